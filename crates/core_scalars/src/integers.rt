// Applying a function of integers to values.
ghost use Rattle.std.specs.Prelude.{◌≡◌, true, length, map, IfOk, vec_len};
ghost use Rattle.value_data.specs.Inside.View.{view};
ghost use Rattle.repl_values.specs.Inside.FaultView.{Gives};
ghost use Rattle.core_scalars.specs.IntegerNames.{fits_integer_function};
ghost use Rattle.core_scalars.specs.IntegerMeaning.{integer_meaning, integers_in};
ghost use Rattle.core_scalars.specs.IntegerMeaning as meant;

use crate::arithmetic::arithmetic;
use crate::comparison::{is_ordered, passes_integer_test};
use crate::integer_function::IntegerFunction;
use repl_values::{ApplyError, Value, integer_of};
use std::alloc::Global;

/// The function's value at as many arguments as it takes. All arguments' kinds are checked from the
/// left before anything else.
#[tactic(auto, using(crate::proofs::IntegerValues::seen), unfolding(crate::specs::IntegerMeaning::integer_meaning))]
pub fn apply_integers(
    alloc: Global,
    function: IntegerFunction,
    args: &[Value],
) -> Result<Value, ApplyError>
    requires { fits_integer_function function (length args.now) ≡ true }
    ensures { Gives view result (integer_meaning function (map view args.now)) }
{
    let integers = integers_of(alloc, function.name(), args)?;
    answer(alloc, function, integers.as_slice())
}

// The function at as many integers as it takes.
#[tactic(auto, using(crate::proofs::IntegerValues::seen))]
fn answer(alloc: Global, function: IntegerFunction, integers: &[i64]) -> Result<Value, ApplyError>
    requires { fits_integer_function function (length integers.now) ≡ true }
    ensures { Gives view result (meant.answer function integers.now) }
{
    match function {
        IntegerFunction::Arithmetic(function) => {
            Ok(Value::Int(arithmetic(alloc, function, integers)?))
        }
        IntegerFunction::Comparison(comparison) => {
            Ok(Value::Bool(is_ordered(comparison, integers)))
        }
        IntegerFunction::Test(test) => Ok(Value::Bool(passes_integer_test(test, integers[0]))),
    }
}

// The arguments of a function that takes integers alone.
#[tactic(auto, using(crate::proofs::IntegerValues::seen))]
fn integers_of(alloc: Global, function: &str, args: &[Value]) -> Result<Vec<i64>, ApplyError>
    ensures each { Gives (λ integers. integers.items) result
        (integers_in function.now (map view args.now)) }
    ensures count { IfOk result (λ integers. vec_len integers ≡ length args.now) }
{
    let mut integers = Vec::new(alloc);
    for argument in args {
        let n = integer_of(alloc, function, argument)?;
        integers.push(n)?;
    }
    Ok(integers)
}
