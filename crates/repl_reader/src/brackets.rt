// What brackets and marks are written as.
ghost use Rattle.std.specs.Prelude.{◌≡◌};
ghost use Rattle.repl_reader.specs.Grammar.{closing, same_bracket};
ghost use Rattle.repl_reader.specs.Inside.View.{bracket_view, mark_symbol};

use crate::reading::{Bracket, MacroCharacter};

impl Bracket {
    pub(crate) fn closing(self) -> &'static str
        ensures { result.now ≡ closing (bracket_view self) }
    {
        match self {
            Bracket::Round => ")",
            Bracket::Square => "]",
            Bracket::Curly => "}",
        }
    }

    pub(crate) fn is(self, other: Bracket) -> bool
        ensures { result ≡ same_bracket (bracket_view self) (bracket_view other) }
    {
        match (self, other) {
            (Bracket::Round, Bracket::Round) => true,
            (Bracket::Square, Bracket::Square) => true,
            (Bracket::Curly, Bracket::Curly) => true,
            _ => false,
        }
    }
}

impl MacroCharacter {
    pub(crate) fn symbol(self) -> &'static str
        ensures { result.now ≡ mark_symbol self }
    {
        match self {
            MacroCharacter::Quote => "quote",
            MacroCharacter::Deref => "clojure.core/deref",
        }
    }
}
