// Which functions there are, and how many arguments each takes.
ghost use Rattle.std.specs.Prelude.{◌≡◌, Some};
ghost use Rattle.core_scalars.specs.TextNames.{text_row, text_functions, text_function_named};
ghost use Rattle.core_scalars.specs.TextNames.{name_of_text_function, fits_text_function};
ghost use Rattle.core_scalars.specs.TextNames.{print_row, print_functions, print_function_named};
ghost use Rattle.core_scalars.specs.TextNames.{name_of_print_function};

use repl_values::{Arity, FunctionRow, HasRow, first_named};

/// A function that gives a text.
#[derive(Clone, Copy, Debug, PartialEq, Eq)]
pub enum TextFunction {
    Str,
    PrStr,
    Name,
}

/// A function that prints its arguments, of which it takes any number. Its value is nil.
#[derive(Clone, Copy, Debug, PartialEq, Eq)]
pub enum PrintFunction {
    Print,
    Println,
    Pr,
    Prn,
}

const TEXT_FUNCTIONS: [TextFunction; 3] = [
    TextFunction::Str,
    TextFunction::PrStr,
    TextFunction::Name,
];

const PRINT_FUNCTIONS: [PrintFunction; 4] = [
    PrintFunction::Print,
    PrintFunction::Println,
    PrintFunction::Pr,
    PrintFunction::Prn,
];

impl HasRow for TextFunction {
    ghost row_of = { text_row };

    ghost functions = { text_functions };

    fn row(self) -> FunctionRow {
        match self {
            TextFunction::Str => FunctionRow::new("str", Arity::AnyNumber),
            TextFunction::PrStr => FunctionRow::new("pr-str", Arity::AnyNumber),
            TextFunction::Name => FunctionRow::new("name", Arity::Exactly(1)),
        }
    }
}

impl TextFunction {
    /// The function of this name, without a namespace. It takes no memory.
    pub fn named(name: &str) -> Option<TextFunction>
        ensures { result ≡ text_function_named name.now }
    {
        first_named(&TEXT_FUNCTIONS, name)
    }

    /// Its name in `clojure.core`.
    pub fn name(self) -> &'static str
        ensures text { result.now ≡ name_of_text_function self }
        ensures known { text_function_named result.now ≡ Some self }
    {
        self.row().name
    }

    /// Whether it takes this many arguments. It takes no memory.
    pub fn takes(self, arguments: usize) -> bool
        ensures { result ≡ fits_text_function self arguments }
    {
        self.row().arity.takes(arguments)
    }
}

impl HasRow for PrintFunction {
    ghost row_of = { print_row };

    ghost functions = { print_functions };

    fn row(self) -> FunctionRow {
        let name = match self {
            PrintFunction::Print => "print",
            PrintFunction::Println => "println",
            PrintFunction::Pr => "pr",
            PrintFunction::Prn => "prn",
        };
        FunctionRow::new(name, Arity::AnyNumber)
    }
}

impl PrintFunction {
    /// The function of this name, without a namespace. It takes no memory.
    pub fn named(name: &str) -> Option<PrintFunction>
        ensures { result ≡ print_function_named name.now }
    {
        first_named(&PRINT_FUNCTIONS, name)
    }

    /// Its name in `clojure.core`.
    pub fn name(self) -> &'static str
        ensures text { result.now ≡ name_of_print_function self }
        ensures known { print_function_named result.now ≡ Some self }
    {
        self.row().name
    }
}
