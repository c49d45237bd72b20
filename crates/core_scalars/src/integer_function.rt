// Which functions there are, and how many arguments each takes.
ghost use Rattle.std.specs.Prelude.{◌≡◌, Some};
ghost use Rattle.repl_values.specs.Inside.RowView.{function_row_view};
ghost use Rattle.core_scalars.specs.IntegerNames.{arithmetic_row, comparison_name};
ghost use Rattle.core_scalars.specs.IntegerNames.{integer_test_name};
ghost use Rattle.core_scalars.specs.IntegerNames.{integer_row, integer_functions};
ghost use Rattle.core_scalars.specs.IntegerNames.{integer_function_named, name_of_integer_function};
ghost use Rattle.core_scalars.specs.IntegerNames.{fits_integer_function};

use repl_values::{Arity, FunctionRow, HasRow, first_named};

/// A function whose value is an integer.
#[derive(Clone, Copy, Debug, PartialEq, Eq)]
pub enum ArithmeticFunction {
    Add,
    Subtract,
    Multiply,
    Increment,
    Decrement,
    Quotient,
    Remainder,
    Modulo,
    Maximum,
    Minimum,
}

/// A comparison of each integer with the next.
#[derive(Clone, Copy, Debug, PartialEq, Eq)]
pub enum ComparisonFunction {
    Less,
    Greater,
    LessOrEqual,
    GreaterOrEqual,
}

/// A test of one integer.
#[derive(Clone, Copy, Debug, PartialEq, Eq)]
pub enum IntegerTest {
    Zero,
    Positive,
    Negative,
    Even,
    Odd,
}

/// A function that takes integers alone.
#[derive(Clone, Copy, Debug, PartialEq, Eq)]
pub enum IntegerFunction {
    Arithmetic(ArithmeticFunction),
    Comparison(ComparisonFunction),
    Test(IntegerTest),
}

const INTEGER_FUNCTIONS: [IntegerFunction; 19] = [
    IntegerFunction::Arithmetic(ArithmeticFunction::Add),
    IntegerFunction::Arithmetic(ArithmeticFunction::Subtract),
    IntegerFunction::Arithmetic(ArithmeticFunction::Multiply),
    IntegerFunction::Arithmetic(ArithmeticFunction::Increment),
    IntegerFunction::Arithmetic(ArithmeticFunction::Decrement),
    IntegerFunction::Arithmetic(ArithmeticFunction::Quotient),
    IntegerFunction::Arithmetic(ArithmeticFunction::Remainder),
    IntegerFunction::Arithmetic(ArithmeticFunction::Modulo),
    IntegerFunction::Arithmetic(ArithmeticFunction::Maximum),
    IntegerFunction::Arithmetic(ArithmeticFunction::Minimum),
    IntegerFunction::Comparison(ComparisonFunction::Less),
    IntegerFunction::Comparison(ComparisonFunction::Greater),
    IntegerFunction::Comparison(ComparisonFunction::LessOrEqual),
    IntegerFunction::Comparison(ComparisonFunction::GreaterOrEqual),
    IntegerFunction::Test(IntegerTest::Zero),
    IntegerFunction::Test(IntegerTest::Positive),
    IntegerFunction::Test(IntegerTest::Negative),
    IntegerFunction::Test(IntegerTest::Even),
    IntegerFunction::Test(IntegerTest::Odd),
];

impl HasRow for IntegerFunction {
    ghost row_of = { integer_row };

    ghost functions = { integer_functions };

    fn row(self) -> FunctionRow {
        match self {
            IntegerFunction::Arithmetic(function) => function.row(),
            IntegerFunction::Comparison(comparison) => {
                FunctionRow::new(comparison.name(), Arity::AtLeast(1))
            }
            IntegerFunction::Test(test) => FunctionRow::new(test.name(), Arity::Exactly(1)),
        }
    }
}

impl IntegerFunction {
    /// The function of this name, without a namespace. It takes no memory.
    pub fn named(name: &str) -> Option<IntegerFunction>
        ensures { result ≡ integer_function_named name.now }
    {
        first_named(&INTEGER_FUNCTIONS, name)
    }

    /// Its name in `clojure.core`.
    pub fn name(self) -> &'static str
        ensures text { result.now ≡ name_of_integer_function self }
        ensures known { integer_function_named result.now ≡ Some self }
    {
        self.row().name
    }

    /// Whether it takes this many arguments. It takes no memory.
    pub fn takes(self, arguments: usize) -> bool
        ensures { result ≡ fits_integer_function self arguments }
    {
        self.row().arity.takes(arguments)
    }
}

impl ArithmeticFunction {
    fn row(self) -> FunctionRow
        ensures meant { function_row_view result ≡ arithmetic_row self }
        ensures known { integer_function_named result.name.now
            ≡ Some (IntegerFunction.Arithmetic self) }
    {
        match self {
            ArithmeticFunction::Add => FunctionRow::new("+", Arity::AnyNumber),
            ArithmeticFunction::Subtract => FunctionRow::new("-", Arity::AtLeast(1)),
            ArithmeticFunction::Multiply => FunctionRow::new("*", Arity::AnyNumber),
            ArithmeticFunction::Increment => FunctionRow::new("inc", Arity::Exactly(1)),
            ArithmeticFunction::Decrement => FunctionRow::new("dec", Arity::Exactly(1)),
            ArithmeticFunction::Quotient => FunctionRow::new("quot", Arity::Exactly(2)),
            ArithmeticFunction::Remainder => FunctionRow::new("rem", Arity::Exactly(2)),
            ArithmeticFunction::Modulo => FunctionRow::new("mod", Arity::Exactly(2)),
            ArithmeticFunction::Maximum => FunctionRow::new("max", Arity::AtLeast(1)),
            ArithmeticFunction::Minimum => FunctionRow::new("min", Arity::AtLeast(1)),
        }
    }
}

impl ComparisonFunction {
    fn name(self) -> &'static str
        ensures text { result.now ≡ comparison_name self }
        ensures known { integer_function_named result.now ≡ Some (IntegerFunction.Comparison self) }
    {
        match self {
            ComparisonFunction::Less => "<",
            ComparisonFunction::Greater => ">",
            ComparisonFunction::LessOrEqual => "<=",
            ComparisonFunction::GreaterOrEqual => ">=",
        }
    }
}

impl IntegerTest {
    fn name(self) -> &'static str
        ensures text { result.now ≡ integer_test_name self }
        ensures known { integer_function_named result.now ≡ Some (IntegerFunction.Test self) }
    {
        match self {
            IntegerTest::Zero => "zero?",
            IntegerTest::Positive => "pos?",
            IntegerTest::Negative => "neg?",
            IntegerTest::Even => "even?",
            IntegerTest::Odd => "odd?",
        }
    }
}
