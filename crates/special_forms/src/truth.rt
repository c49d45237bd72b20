// What is true, and what `and`, `or` and a condition make of it.
ghost use Rattle.std.specs.Prelude.{◌≡◌, if◌then◌else◌};
ghost use Rattle.value_data.specs.Inside.View.{view};
ghost use Rattle.special_forms.specs.Truth as meant;

use crate::forms::Forms;
use crate::shapes::Logic;
use repl_values::Value;

/// Only nil and false are false.
pub fn is_truthy(value: &Value) -> bool
    ensures { result ≡ meant.is_truthy (view value.now) }
{
    match value {
        Value::Nil => false,
        Value::Bool(b) => *b,
        _ => true,
    }
}

/// The body that a condition with this value chooses.
pub fn chosen_body(condition: Value, consequent: Forms, alternative: Forms) -> Forms
    ensures { result ≡ (if meant.is_truthy (view condition) then consequent else alternative) }
{
    if is_truthy(&condition) {
        consequent
    } else {
        alternative
    }
}

impl Logic {
    /// Whether a value ends `and` or `or`.
    pub fn decides(self, value: &Value) -> bool
        ensures { result ≡ meant.decides self (view value.now) }
    {
        match self {
            Logic::And => !is_truthy(value),
            Logic::Or => is_truthy(value),
        }
    }

    /// The value before the first form.
    pub fn before(self) -> Value
        ensures { view result ≡ meant.before self }
    {
        match self {
            Logic::And => Value::Bool(true),
            Logic::Or => Value::Nil,
        }
    }
}
