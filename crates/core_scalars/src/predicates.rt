// Applying a predicate to values.
ghost use Rattle.std.specs.Prelude.{◌≡◌, true, length, map};
ghost use Rattle.std.specs.List.{list_all};
ghost use Rattle.value_data.specs.Inside.View.{view};
ghost use Rattle.value_data.specs.Same.{same as are_same};
ghost use Rattle.repl_values.specs.Inside.FaultView.{Gives};
ghost use Rattle.repl_values.specs.Arguments.{neighbours};
ghost use Rattle.core_scalars.specs.PredicateNames.{fits_predicate_function};
ghost use Rattle.core_scalars.specs.PredicateMeaning as meant;

use crate::kinds::passes_value_test;
use crate::predicate_function::PredicateFunction;
use repl_values::{ApplyError, Value, copy, same};
use std::alloc::Global;

/// The function's value at as many arguments as it takes. It fails only for want of memory.
#[tactic(auto, using(crate::proofs::PredicateValues::seen), unfolding(crate::specs::PredicateMeaning::predicate_meaning))]
pub fn apply_predicates(
    alloc: Global,
    function: PredicateFunction,
    args: &[Value],
) -> Result<Value, ApplyError>
    requires { fits_predicate_function function (length args.now) ≡ true }
    ensures { Gives view result (meant.predicate_meaning function (map view args.now)) }
{
    match function {
        PredicateFunction::Equal => Ok(Value::Bool(each_equals_the_next(args))),
        PredicateFunction::NotEqual => Ok(Value::Bool(!each_equals_the_next(args))),
        PredicateFunction::Identity => Ok(copy(&args[0])?),
        PredicateFunction::Test(test) => Ok(Value::Bool(passes_value_test(test, &args[0]))),
    }
}

fn each_equals_the_next(args: &[Value]) -> bool
    ensures { result ≡ list_all (λ p. are_same (view p.0) (view p.1)) (neighbours args.now) }
{
    args.iter()
        .zip(args.iter().skip(1))
        .all(|(left, right)| same(left, right))
}
