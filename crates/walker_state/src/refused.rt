// What `commute` does not apply, since it may be applied again at the commit.
#![tactic(auto, using(crate::proofs::Stepping::steps))]

ghost use Rattle.std.specs.Prelude.{◌≡◌, ◌==◌, length, IfOk};
ghost use Rattle.core_functions.specs.StoreNames.{store_fits, store_name_of};
ghost use Rattle.special_forms.specs.Inside.Seen.{function_view};
ghost use Rattle.evaluation_rules.specs.Applying as meant;
ghost use Rattle.evaluation_rules.specs.Calls.{not_of_core};
ghost use Rattle.walker_state.specs.Pending.{from_state, tree};
ghost use Rattle.walker_state.specs.Position.{LeadsOnWithin};
ghost use Rattle.walker_state.specs.declared.frames.State.{State};

use crate::frames::Control;
use core_functions::StoreFunction;
use evaluation_rules::full_name;
use repl_values::{Rule, broken_rule, wrong_arity};
use special_forms::Function;
use std::alloc::{AllocError, Global};

/// `commute` applies no function that asks the store, whatever it takes. It fails only for want of
/// memory.
pub fn refuse_store(
    alloc: Global,
    function: StoreFunction,
    arguments: usize,
) -> Result<Control, AllocError>
    ensures on { IfOk result (λ control. (s : State) → LeadsOnWithin 2 s s control) }
    ensures meaning { IfOk result (λ control. (s : State) → tree control s
        ≡ from_state (not_of_core (store_fits function arguments) (store_name_of function)
        arguments) s) }
{
    let takes = function.takes(arguments);
    refuse_commuting(alloc, takes, function.name(), arguments)
}

/// Nor does it apply one of the program.
#[tactic(auto, using(crate::proofs::Stepping::steps, crate::proofs::Taking::lengths))]
pub fn refuse_program(
    alloc: Global,
    function: &Function,
    arguments: usize,
) -> Result<Control, AllocError>
    ensures on { IfOk result (λ control. (s : State) → LeadsOnWithin 2 s s control) }
    ensures meaning { IfOk result (λ control. (s : State) → tree control s ≡ from_state (not_of_core
        (length (function_view function.now).params == arguments)
        (meant.full_name (function_view function.now)) arguments) s) }
{
    let takes = function.params.len() == arguments;
    let name = full_name(alloc, function)?;
    refuse_commuting(alloc, takes, name.as_str(), arguments)
}

// A function that is none of the language, where it would take so many arguments, or would not.
fn refuse_commuting(
    alloc: Global,
    takes: bool,
    name: &str,
    arguments: usize,
) -> Result<Control, AllocError>
    ensures on { IfOk result (λ control. (s : State) → LeadsOnWithin 2 s s control) }
    ensures meaning { IfOk result (λ control. (s : State) → tree control s
        ≡ from_state (not_of_core takes name.now arguments) s) }
{
    if takes {
        return Ok(Control::Fault(broken_rule(alloc, Rule::CommutesAreOfCore)?));
    }
    Ok(Control::Fault(wrong_arity(alloc, name, arguments)?))
}
