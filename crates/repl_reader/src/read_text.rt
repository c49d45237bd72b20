// A text that was read before its forms are wanted.
ghost use Rattle.std.specs.Prelude.{◌≡◌, true, IfOk, IfSome, string_bytes};
ghost use Rattle.value_data.specs.Inside.View.{items_view};
ghost use Rattle.repl_reader.specs.Grammar.{IsReading};
ghost use Rattle.repl_reader.specs.Inside.View.{fault_option};

use crate::forms::{ProgramForms, read_all};
use std::alloc::{AllocError, Global};
use std::marker::Model;

/// A text that was read, with its forms. Contracts see the text.
pub struct ReadText {
    text: String,
    forms: ProgramForms,
}

impl Drop for ReadText {
    fn drop(self) {
        let ReadText {
            text: _text,
            forms: _forms,
        } = self;
    }
}

impl Model for ReadText {
    ghost use Rattle.std.specs.Prelude.{ℕ, List, string_bytes};
    ghost use Rattle.value_data.specs.Inside.View.{items_view};
    ghost use Rattle.repl_reader.specs.Grammar.{IsReading};
    ghost use Rattle.repl_reader.specs.Inside.View.{fault_option};

    ghost Value = { List ℕ };

    ghost view = { λ r. string_bytes r.text };

    ghost invariant = { λ r. IsReading (string_bytes r.text) (items_view r.forms.forms.items)
        (fault_option r.forms.fault) };
}

impl ReadText {
    /// Reads a text. It fails only for want of memory.
    pub fn new(alloc: Global, text: String) -> Result<ReadText, AllocError>
        ensures { IfOk result (λ it. it ≡ string_bytes text) }
    {
        let forms = read_all(alloc, text.as_str())?;
        Ok(ReadText { text, forms })
    }

    fn is_of(&self, text: &str) -> bool
        ensures { result ≡ true → self.now ≡ text.now }
    {
        self.text.as_str() == text
    }

    fn into_forms(self) -> ProgramForms
        ensures { IsReading self (items_view result.forms.items) (fault_option result.fault) }
    {
        let ReadText { text: _text, forms } = self;
        forms
    }
}

/// The forms of a text, if they are what was read. What was read of another text stays.
pub fn take_if_of(read: &mut Option<ReadText>, text: &str) -> Option<ProgramForms>
    ensures { IfSome result (λ it. IsReading text.now (items_view it.forms.items)
        (fault_option it.fault)) }
{
    match read.take() {
        Some(found) => {
            if found.is_of(text) {
                return Some(found.into_forms());
            }
            *read = Some(found);
            None
        }
        None => None,
    }
}
