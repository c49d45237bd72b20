// Which functions there are, and how many arguments each takes.
ghost use Rattle.std.specs.Prelude.{◌≡◌, Some};
ghost use Rattle.core_collections.specs.SequenceNames.{sequence_row, sequence_functions};
ghost use Rattle.core_collections.specs.SequenceNames.{sequence_function_named};
ghost use Rattle.core_collections.specs.SequenceNames.{name_of_sequence_function};
ghost use Rattle.core_collections.specs.SequenceNames.{fits_sequence_function};

use repl_values::{Arity, FunctionRow, HasRow, first_named};

/// A function that makes a sequence or goes by the items of one.
#[derive(Clone, Copy, Debug, PartialEq, Eq)]
pub enum SequenceFunction {
    List,
    Vector,
    First,
    Last,
    Rest,
    Next,
    Reverse,
    Cons,
    Conj,
    Count,
    IsEmpty,
    Nth,
}

const SEQUENCE_FUNCTIONS: [SequenceFunction; 12] = [
    SequenceFunction::List,
    SequenceFunction::Vector,
    SequenceFunction::First,
    SequenceFunction::Last,
    SequenceFunction::Rest,
    SequenceFunction::Next,
    SequenceFunction::Reverse,
    SequenceFunction::Cons,
    SequenceFunction::Conj,
    SequenceFunction::Count,
    SequenceFunction::IsEmpty,
    SequenceFunction::Nth,
];

impl HasRow for SequenceFunction {
    ghost row_of = { sequence_row };

    ghost functions = { sequence_functions };

    fn row(self) -> FunctionRow {
        match self {
            SequenceFunction::List => FunctionRow::new("list", Arity::AnyNumber),
            SequenceFunction::Vector => FunctionRow::new("vector", Arity::AnyNumber),
            SequenceFunction::First => FunctionRow::new("first", Arity::Exactly(1)),
            SequenceFunction::Last => FunctionRow::new("last", Arity::Exactly(1)),
            SequenceFunction::Rest => FunctionRow::new("rest", Arity::Exactly(1)),
            SequenceFunction::Next => FunctionRow::new("next", Arity::Exactly(1)),
            SequenceFunction::Reverse => FunctionRow::new("reverse", Arity::Exactly(1)),
            SequenceFunction::Cons => FunctionRow::new("cons", Arity::Exactly(2)),
            SequenceFunction::Conj => FunctionRow::new("conj", Arity::AtLeast(1)),
            SequenceFunction::Count => FunctionRow::new("count", Arity::Exactly(1)),
            SequenceFunction::IsEmpty => FunctionRow::new("empty?", Arity::Exactly(1)),
            SequenceFunction::Nth => FunctionRow::new("nth", Arity::FromTo(2, 3)),
        }
    }
}

impl SequenceFunction {
    /// The function of this name, without a namespace. It takes no memory.
    pub fn named(name: &str) -> Option<SequenceFunction>
        ensures { result ≡ sequence_function_named name.now }
    {
        first_named(&SEQUENCE_FUNCTIONS, name)
    }

    /// Its name in `clojure.core`.
    pub fn name(self) -> &'static str
        ensures text { result.now ≡ name_of_sequence_function self }
        ensures known { sequence_function_named result.now ≡ Some self }
    {
        self.row().name
    }

    /// Whether it takes this many arguments. It takes no memory.
    pub fn takes(self, arguments: usize) -> bool
        ensures { result ≡ fits_sequence_function self arguments }
    {
        self.row().arity.takes(arguments)
    }
}
