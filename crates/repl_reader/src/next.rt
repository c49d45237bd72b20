// What comes next in a text, as far as its first characters tell.
ghost use Rattle.std.specs.Prelude.{◌≡◌, IfOk};
ghost use Rattle.repl_reader.specs.Reading.{next_in, dispatch_at};
ghost use Rattle.repl_reader.specs.Inside.View.{next_view};

use crate::blank::skip_blank;
use crate::fault::{FaultKind, break_with};
use crate::reading::{Bracket, FormReading, MacroCharacter};
use crate::strings::read_string;
use crate::text::{first_character, tail};
use crate::tokens::read_token;
use std::alloc::{AllocError, Global};

#[derive(Drop)]
pub(crate) enum Next<'a> {
    /// All that there is to say.
    Settled(FormReading<'a>),
    Opening(Bracket, &'a str),
    Marking(MacroCharacter, &'a str),
    Dropping(&'a str),
}

#[tactic(auto, unfolding(crate::specs::Reading::next_by))]
pub(crate) fn read_next(alloc: Global, text: &str) -> Result<Next<'_>, AllocError>
    ensures { IfOk result (λ n. next_view n ≡ next_in text.now) }
{
    let text = skip_blank(text);
    let [first, ..] = text.as_bytes() else {
        return Ok(Next::Settled(FormReading::End));
    };
    match *first {
        b'(' => Ok(Next::Opening(Bracket::Round, tail(text))),
        b'[' => Ok(Next::Opening(Bracket::Square, tail(text))),
        b'{' => Ok(Next::Opening(Bracket::Curly, tail(text))),
        b')' => Ok(Next::Settled(FormReading::Closing(Bracket::Round, tail(text)))),
        b']' => Ok(Next::Settled(FormReading::Closing(Bracket::Square, tail(text)))),
        b'}' => Ok(Next::Settled(FormReading::Closing(Bracket::Curly, tail(text)))),
        b'\'' => Ok(Next::Marking(MacroCharacter::Quote, tail(text))),
        b'@' => Ok(Next::Marking(MacroCharacter::Deref, tail(text))),
        b'#' => read_dispatch(alloc, tail(text)),
        b'"' => Ok(Next::Settled(read_string(alloc, tail(text))?)),
        b'^' | b'~' | b'\\' | b'`' => {
            let fault = break_with(alloc, FaultKind::BadChar, text.len(), first_character(text))?;
            Ok(Next::Settled(FormReading::Broken(fault)))
        }
        _ => Ok(Next::Settled(read_token(alloc, text)?)),
    }
}

/// What follows a `#` that begins no token.
#[tactic(auto, unfolding(crate::specs::Reading::dispatch_at))]
fn read_dispatch(alloc: Global, text: &str) -> Result<Next<'_>, AllocError>
    ensures { IfOk result (λ n. next_view n ≡ dispatch_at text.now) }
{
    match text.as_bytes() {
        [b'_', ..] => Ok(Next::Dropping(tail(text))),
        [] => Ok(Next::Settled(FormReading::Broken(break_with(alloc, FaultKind::Eof, 0, "")?))),
        _ => {
            let found = first_character(text);
            let left = text.len() + 1;
            let fault = break_with(alloc, FaultKind::BadDispatch, left, found)?;
            Ok(Next::Settled(FormReading::Broken(fault)))
        }
    }
}
