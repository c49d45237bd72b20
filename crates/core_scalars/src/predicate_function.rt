// Which functions there are, and how many arguments each takes.
ghost use Rattle.std.specs.Prelude.{◌≡◌, Some};
ghost use Rattle.core_scalars.specs.PredicateNames.{value_test_name, predicate_row};
ghost use Rattle.core_scalars.specs.PredicateNames.{predicate_functions, predicate_function_named};
ghost use Rattle.core_scalars.specs.PredicateNames.{name_of_predicate_function};
ghost use Rattle.core_scalars.specs.PredicateNames.{fits_predicate_function};

use repl_values::{Arity, FunctionRow, HasRow, first_named};

/// A test of one value, of any kind.
#[derive(Clone, Copy, Debug, PartialEq, Eq)]
pub enum ValueTest {
    Not,
    Nil,
    Some,
    True,
    False,
    Int,
    String,
    Keyword,
    Symbol,
    List,
    Vector,
    Map,
}

/// A function that takes values of any kind and has no fault.
#[derive(Clone, Copy, Debug, PartialEq, Eq)]
pub enum PredicateFunction {
    Equal,
    NotEqual,
    Identity,
    Test(ValueTest),
}

const PREDICATE_FUNCTIONS: [PredicateFunction; 15] = [
    PredicateFunction::Equal,
    PredicateFunction::NotEqual,
    PredicateFunction::Identity,
    PredicateFunction::Test(ValueTest::Not),
    PredicateFunction::Test(ValueTest::Nil),
    PredicateFunction::Test(ValueTest::Some),
    PredicateFunction::Test(ValueTest::True),
    PredicateFunction::Test(ValueTest::False),
    PredicateFunction::Test(ValueTest::Int),
    PredicateFunction::Test(ValueTest::String),
    PredicateFunction::Test(ValueTest::Keyword),
    PredicateFunction::Test(ValueTest::Symbol),
    PredicateFunction::Test(ValueTest::List),
    PredicateFunction::Test(ValueTest::Vector),
    PredicateFunction::Test(ValueTest::Map),
];

impl HasRow for PredicateFunction {
    ghost row_of = { predicate_row };

    ghost functions = { predicate_functions };

    fn row(self) -> FunctionRow {
        match self {
            PredicateFunction::Equal => FunctionRow::new("=", Arity::AtLeast(1)),
            PredicateFunction::NotEqual => FunctionRow::new("not=", Arity::AtLeast(1)),
            PredicateFunction::Identity => FunctionRow::new("identity", Arity::Exactly(1)),
            PredicateFunction::Test(test) => FunctionRow::new(test.name(), Arity::Exactly(1)),
        }
    }
}

impl PredicateFunction {
    /// The function of this name, without a namespace. It takes no memory.
    pub fn named(name: &str) -> Option<PredicateFunction>
        ensures { result ≡ predicate_function_named name.now }
    {
        first_named(&PREDICATE_FUNCTIONS, name)
    }

    /// Its name in `clojure.core`.
    pub fn name(self) -> &'static str
        ensures text { result.now ≡ name_of_predicate_function self }
        ensures known { predicate_function_named result.now ≡ Some self }
    {
        self.row().name
    }

    /// Whether it takes this many arguments. It takes no memory.
    pub fn takes(self, arguments: usize) -> bool
        ensures { result ≡ fits_predicate_function self arguments }
    {
        self.row().arity.takes(arguments)
    }
}

impl ValueTest {
    fn name(self) -> &'static str
        ensures text { result.now ≡ value_test_name self }
        ensures known { predicate_function_named result.now ≡ Some (PredicateFunction.Test self) }
    {
        match self {
            ValueTest::Not => "not",
            ValueTest::Nil => "nil?",
            ValueTest::Some => "some?",
            ValueTest::True => "true?",
            ValueTest::False => "false?",
            ValueTest::Int => "int?",
            ValueTest::String => "string?",
            ValueTest::Keyword => "keyword?",
            ValueTest::Symbol => "symbol?",
            ValueTest::List => "list?",
            ValueTest::Vector => "vector?",
            ValueTest::Map => "map?",
        }
    }
}
