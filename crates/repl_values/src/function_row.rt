// A function's row in the table of its group. Nothing here takes memory.
ghost use Rattle.std.specs.Prelude.{◌≡◌, List, Some};
ghost use Rattle.repl_values.specs.FunctionRows.{FunctionRowData};
ghost use Rattle.repl_values.specs.Inside.RowView.{function_row_view};
ghost use Rattle.repl_values.specs.FunctionRows as meant;

/// How many arguments a function takes.
#[derive(Clone, Copy, Debug, PartialEq, Eq)]
pub enum Arity {
    AnyNumber,
    Exactly(usize),
    AtLeast(usize),
    /// Both bounds are taken.
    FromTo(usize, usize),
    /// Odd numbers alone, from this one on.
    OddFrom(usize),
    /// Odd numbers alone, up to this one.
    OddUpTo(usize),
}

impl Arity {
    /// Whether so many arguments are taken.
    pub fn takes(self, arguments: usize) -> bool
        ensures { result ≡ meant.takes self arguments }
    {
        match self {
            Arity::AnyNumber => true,
            Arity::Exactly(number) => arguments == number,
            Arity::AtLeast(least) => arguments >= least,
            Arity::FromTo(least, most) => arguments >= least && arguments <= most,
            Arity::OddFrom(least) => arguments >= least && arguments % 2 == 1,
            Arity::OddUpTo(most) => arguments <= most && arguments % 2 == 1,
        }
    }
}

/// A row of a table of functions.
#[derive(Clone, Copy, Debug)]
pub struct FunctionRow {
    pub name: &'static str,
    pub arity: Arity,
}

impl FunctionRow {
    /// The row of this name.
    pub fn new(name: &'static str, arity: Arity) -> FunctionRow
        ensures { function_row_view result ≡ record { name = name.now; arity = arity } }
    {
        FunctionRow { name, arity }
    }
}

/// A function of a table.
pub trait HasRow: Copy {
    // The row of each function, and all functions, as the group's definitions have them.
    ghost row_of: { Self → FunctionRowData };

    ghost functions: { List Self };

    /// Its row. The table has no other function of this name.
    fn row(self) -> FunctionRow
        ensures meant { function_row_view result ≡ row_of self }
        ensures known { meant.first_named row_of functions result.name.now ≡ Some self };
}

/// The first of the functions whose row has this name.
pub fn first_named<F: HasRow>(functions: &[F], name: &str) -> Option<F>
    ensures { result ≡ meant.first_named F.row_of functions.now name.now }
{
    functions
        .iter()
        .copied()
        .find(|function| function.row().name == name)
}
