// What a program does wrong.
use std::alloc::AllocError;
use std::sync::ArcStr;
use value_data::{Value, copy_text};

/// A fault of evaluation or of the reader, by its class and its text. It ends a form, and is
/// answered as an exception of that class.
#[derive(Debug, Drop)]
pub struct Fault {
    pub class: ArcStr,
    pub text: ArcStr,
}

impl Fault {
    ghost use Rattle.std.specs.Prelude.{◌≡◌, IfOk};
    ghost use Rattle.std.specs.Arc.{arc_str_bytes};
    ghost use Rattle.value_data.specs.Datum.{fault};
    ghost use Rattle.value_data.specs.Inside.View.{view};

    /// The fault as a value, which `throw` and `*e` know. It takes no memory.
    pub fn into_value(self) -> Value
        ensures { view result ≡ fault (arc_str_bytes self.class) (arc_str_bytes self.text) }
    {
        let Fault { class, text } = self;
        Value::Fault { class, text }
    }

    /// The same fault. It takes one step and no memory, and fails only where 2^63 owners share a
    /// text.
    pub fn copy(&self) -> Result<Fault, AllocError>
        ensures class { IfOk result (λ copied. arc_str_bytes copied.class
            ≡ arc_str_bytes self.now.class) }
        ensures text { IfOk result (λ copied. arc_str_bytes copied.text
            ≡ arc_str_bytes self.now.text) }
    {
        Ok(Fault {
            class: copy_text(&self.class)?,
            text: copy_text(&self.text)?,
        })
    }
}
