// The ref that `alter` or `commute` alters, before its function is applied.
ghost use Rattle.std.specs.Prelude.{◌≡◌, IfOk};
ghost use Rattle.value_data.specs.Inside.View.{view};
ghost use Rattle.repl_asks.specs.Inside.View.{name_view};
ghost use Rattle.repl_values.specs.Inside.FaultView.{Gives};
ghost use Rattle.evaluation_rules.specs.Calling.{altered_in, altering};
ghost use Rattle.evaluation_rules.specs.Inside.View.{altered_view};

use crate::arguments::ref_of;
use crate::outcome::Altered;
use crate::rules::keep_to;
use core_functions::StoreFunction;
use repl_values::{ApplyError, RefName, Rule, Value};
use std::alloc::{AllocError, Global};

/// How a function's value goes into a ref.
#[derive(Clone, Copy, Debug, PartialEq, Eq)]
pub enum Alteration {
    /// It is set.
    Alter,
    /// It is made again at the commit, of the value that the ref has then.
    Commute,
}

impl Alteration {
    /// What it is named by.
    pub fn function(self) -> StoreFunction
        ensures { result ≡ altering self }
    {
        match self {
            Alteration::Alter => StoreFunction::Alter,
            Alteration::Commute => StoreFunction::Commute,
        }
    }
}

/// The ref that `(alter ref function argument ..)` alters, or `commute` likewise, whose first
/// argument is this value, while a transaction runs or none does. What is no ref is refused first,
/// then what stands in no transaction. It fails only for want of memory.
pub fn ref_to_alter(
    alloc: Global,
    by: Alteration,
    in_transaction: bool,
    value: &Value,
) -> Result<Altered, AllocError>
    ensures { IfOk result (λ altered. altered_view altered
        ≡ altered_in by in_transaction (view value.now)) }
{
    match ref_altered(alloc, by, in_transaction, value) {
        Ok(name) => Ok(Altered::Ref(name)),
        Err(ApplyError::Fault(fault)) => Ok(Altered::Refused(fault)),
        Err(ApplyError::NoMemory) => Err(AllocError),
    }
}

fn ref_altered(
    alloc: Global,
    by: Alteration,
    in_transaction: bool,
    value: &Value,
) -> Result<RefName, ApplyError>
    ensures { Gives name_view result (altered_in by in_transaction (view value.now)) }
{
    let name = ref_of(alloc, by.function(), value)?;
    keep_to(alloc, Rule::ATransactionRuns, in_transaction)?;
    Ok(name)
}
