// Which functions there are, and how many arguments each takes.
ghost use Rattle.std.specs.Prelude.{◌≡◌, Some, false, is_some};
ghost use Rattle.std.specs.Option.{option_map_or};
ghost use Rattle.repl_values.specs.Inside.RowView.{function_row_view};
ghost use Rattle.core_functions.specs.Names.{function_named, core_row, name_of, fits};

use core_collections::{MapFunction, SequenceFunction};
use core_scalars::{IntegerFunction, PredicateFunction, PrintFunction, TextFunction};
use repl_values::{FunctionRow, HasRow};

/// A function of the language that needs no store, by its group.
#[derive(Clone, Copy, Debug, PartialEq, Eq)]
pub enum CoreFunction {
    Integer(IntegerFunction),
    Predicate(PredicateFunction),
    Text(TextFunction),
    Sequence(SequenceFunction),
    Map(MapFunction),
    Print(PrintFunction),
}

impl CoreFunction {
    /// The function of this name, without a namespace. It takes no memory.
    pub fn named(name: &str) -> Option<CoreFunction>
        ensures { result ≡ function_named name.now }
    {
        if let Some(function) = IntegerFunction::named(name) {
            return Some(CoreFunction::Integer(function));
        }
        if let Some(function) = PredicateFunction::named(name) {
            return Some(CoreFunction::Predicate(function));
        }
        if let Some(function) = TextFunction::named(name) {
            return Some(CoreFunction::Text(function));
        }
        if let Some(function) = SequenceFunction::named(name) {
            return Some(CoreFunction::Sequence(function));
        }
        if let Some(function) = MapFunction::named(name) {
            return Some(CoreFunction::Map(function));
        }
        if let Some(function) = PrintFunction::named(name) {
            return Some(CoreFunction::Print(function));
        }
        None
    }

    /// Its name in `clojure.core`.
    pub fn name(self) -> &'static str
        ensures text { result.now ≡ name_of self }
        ensures known { function_named result.now ≡ Some self }
    {
        self.row().name
    }

    /// Whether it takes this many arguments. It takes no memory.
    pub fn takes(self, arguments: usize) -> bool
        ensures { result ≡ fits self arguments }
    {
        self.row().arity.takes(arguments)
    }

    // Its row in the table of its group.
    fn row(self) -> FunctionRow
        ensures meant { function_row_view result ≡ core_row self }
        ensures known { function_named result.name.now ≡ Some self }
    {
        match self {
            CoreFunction::Integer(function) => function.row(),
            CoreFunction::Predicate(function) => function.row(),
            CoreFunction::Text(function) => function.row(),
            CoreFunction::Sequence(function) => function.row(),
            CoreFunction::Map(function) => function.row(),
            CoreFunction::Print(function) => function.row(),
        }
    }
}

/// Whether there is a function of this name that needs no store. It takes no memory.
pub fn knows(name: &str) -> bool
    ensures { result ≡ is_some (function_named name.now) }
{
    CoreFunction::named(name).is_some()
}

/// Whether the function of this name, which needs no store, takes this many arguments; false for a
/// name that is unknown. It takes no memory.
pub fn arity_fits(name: &str, arguments: usize) -> bool
    ensures { result ≡ option_map_or (λ f. fits f arguments) (function_named name.now) false }
{
    match CoreFunction::named(name) {
        Some(function) => function.takes(arguments),
        None => false,
    }
}
