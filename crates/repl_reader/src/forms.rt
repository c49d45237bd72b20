// All forms of a text.
ghost use Rattle.std.specs.Prelude.{◌≡◌, IfOk, length};
ghost use Rattle.value_data.specs.Inside.View.{items_view};
ghost use Rattle.repl_reader.specs.Grammar.{IsReading, placed_fault, last_break};
ghost use Rattle.repl_reader.specs.Inside.View.{form_reading_view, break_view, break_option};
ghost use Rattle.repl_reader.specs.Inside.View.{fault_view};
ghost use Rattle.repl_reader.specs.Inside.View.{fault_option};

use crate::fault::{Break, FaultKind, ReaderFault, break_with};
use crate::nest::{RowReading, read_row};
use crate::reading::FormReading;
use repl_values::Value;
use std::alloc::{AllocError, Global};

/// The forms of a text before its first fault, and that fault.
#[derive(Debug, Drop)]
pub struct ProgramForms {
    pub forms: Vec<Value>,
    pub fault: Option<ReaderFault>,
}

/// Reads a text to its end, or to its first fault.
pub fn read_all(alloc: Global, text: &str) -> Result<ProgramForms, AllocError>
    ensures { IfOk result (λ read. IsReading text.now (items_view read.forms.items)
        (fault_option read.fault)) }
{
    let RowReading { forms, after } = read_row(alloc, text, 0)?;
    let fault = match last_break(alloc, after)? {
        Some(fault) => Some(placed_fault(text.len(), fault)),
        None => None,
    };
    Ok(ProgramForms { forms, fault })
}

// What is wrong after the last form, if anything is.
fn last_break(alloc: Global, after: FormReading<'_>) -> Result<Option<Break>, AllocError>
    ensures { IfOk result (λ fault. break_option fault
        ≡ last_break (form_reading_view after.entry)) }
{
    match after {
        FormReading::Closing(bracket, rest) => {
            let left = rest.len() + 1;
            let fault = break_with(alloc, FaultKind::Unmatched, left, bracket.closing())?;
            Ok(Some(fault))
        }
        FormReading::Broken(fault) => Ok(Some(fault)),
        FormReading::Form(..) | FormReading::End => Ok(None),
    }
}

fn placed_fault(length: usize, fault: Break) -> ReaderFault
    ensures { fault_view result ≡ placed_fault length (break_view fault) }
{
    ReaderFault {
        kind: fault.kind,
        at: length.saturating_sub(fault.left),
        text: fault.text,
    }
}
