// What stands next in a text.
use crate::fault::Break;
use repl_values::Value;

/// The three kinds of brackets.
#[derive(Clone, Copy)]
pub(crate) enum Bracket {
    Round,
    Square,
    Curly,
}

/// A character that wraps the form after it.
#[derive(Clone, Copy)]
pub(crate) enum MacroCharacter {
    Quote,
    Deref,
}

/// What a text begins with, and the text after it.
#[derive(Drop)]
pub(crate) enum FormReading<'a> {
    Form(Value, &'a str),
    Closing(Bracket, &'a str),
    End,
    Broken(Break),
}
