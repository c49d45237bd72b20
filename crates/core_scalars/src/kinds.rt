// Tests of one value, of any kind. Nothing here takes memory.
ghost use Rattle.std.specs.Prelude.{◌≡◌};
ghost use Rattle.value_data.specs.Inside.View.{view};
ghost use Rattle.core_scalars.specs.Kinds as meant;

use crate::predicate_function::ValueTest;
use repl_values::Value;

#[tactic(auto, using(crate::proofs::PredicateValues::seen), unfolding(crate::specs::Kinds::passes_value_test))]
pub(crate) fn passes_value_test(test: ValueTest, value: &Value) -> bool
    ensures { result ≡ meant.passes_value_test test (view value.now) }
{
    match test {
        ValueTest::Not => is_falsy(value),
        ValueTest::Nil => is_nil(value),
        ValueTest::Some => !is_nil(value),
        ValueTest::True => is_true(value),
        ValueTest::False => is_false(value),
        ValueTest::Int => is_integer(value),
        ValueTest::String => is_string(value),
        ValueTest::Keyword => is_keyword(value),
        ValueTest::Symbol => is_symbol(value),
        ValueTest::List => is_list(value),
        ValueTest::Vector => is_vector(value),
        ValueTest::Map => is_map(value),
    }
}

#[tactic(auto, using(crate::proofs::PredicateValues::seen))]
fn is_falsy(value: &Value) -> bool
    ensures { result ≡ meant.is_falsy (view value.now) }
{
    matches!(value, Value::Nil | Value::Bool(false))
}

#[tactic(auto, using(crate::proofs::PredicateValues::seen))]
fn is_true(value: &Value) -> bool
    ensures { result ≡ meant.is_true (view value.now) }
{
    matches!(value, Value::Bool(true))
}

#[tactic(auto, using(crate::proofs::PredicateValues::seen))]
fn is_false(value: &Value) -> bool
    ensures { result ≡ meant.is_false (view value.now) }
{
    matches!(value, Value::Bool(false))
}

#[tactic(auto, using(crate::proofs::PredicateValues::seen))]
fn is_nil(value: &Value) -> bool
    ensures { result ≡ meant.is_nil (view value.now) }
{
    matches!(value, Value::Nil)
}

#[tactic(auto, using(crate::proofs::PredicateValues::seen))]
fn is_integer(value: &Value) -> bool
    ensures { result ≡ meant.is_integer (view value.now) }
{
    matches!(value, Value::Int(_))
}

#[tactic(auto, using(crate::proofs::PredicateValues::seen))]
fn is_string(value: &Value) -> bool
    ensures { result ≡ meant.is_string (view value.now) }
{
    matches!(value, Value::Str(_))
}

#[tactic(auto, using(crate::proofs::PredicateValues::seen))]
fn is_keyword(value: &Value) -> bool
    ensures { result ≡ meant.is_keyword (view value.now) }
{
    matches!(value, Value::Keyword(_))
}

#[tactic(auto, using(crate::proofs::PredicateValues::seen))]
fn is_symbol(value: &Value) -> bool
    ensures { result ≡ meant.is_symbol (view value.now) }
{
    matches!(value, Value::Symbol(_))
}

#[tactic(auto, using(crate::proofs::PredicateValues::seen))]
fn is_list(value: &Value) -> bool
    ensures { result ≡ meant.is_list (view value.now) }
{
    matches!(value, Value::List(_))
}

#[tactic(auto, using(crate::proofs::PredicateValues::seen))]
fn is_vector(value: &Value) -> bool
    ensures { result ≡ meant.is_vector (view value.now) }
{
    matches!(value, Value::Vector(_))
}

#[tactic(auto, using(crate::proofs::PredicateValues::seen))]
fn is_map(value: &Value) -> bool
    ensures { result ≡ meant.is_map (view value.now) }
{
    matches!(value, Value::Map(_))
}
