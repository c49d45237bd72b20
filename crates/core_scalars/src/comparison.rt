// Comparisons of neighbours, and tests of one integer. Nothing here takes memory.
ghost use Rattle.std.specs.Prelude.{◌≡◌};
ghost use Rattle.core_scalars.specs.Comparison as meant;

use crate::integer_function::{ComparisonFunction, IntegerTest};

// Whether the comparison holds of each integer and the next.
pub(crate) fn is_ordered(comparison: ComparisonFunction, integers: &[i64]) -> bool
    ensures { result ≡ meant.is_ordered comparison integers.now }
{
    integers
        .iter()
        .zip(integers.iter().skip(1))
        .all(|(left, right)| compare(comparison, *left, *right))
}

fn compare(comparison: ComparisonFunction, left: i64, right: i64) -> bool
    ensures { result ≡ meant.compare comparison left right }
{
    match comparison {
        ComparisonFunction::Less => left < right,
        ComparisonFunction::Greater => left > right,
        ComparisonFunction::LessOrEqual => left <= right,
        ComparisonFunction::GreaterOrEqual => left >= right,
    }
}

pub(crate) fn passes_integer_test(test: IntegerTest, n: i64) -> bool
    ensures { result ≡ meant.passes_integer_test test n }
{
    match test {
        IntegerTest::Zero => n == 0,
        IntegerTest::Positive => n > 0,
        IntegerTest::Negative => n < 0,
        IntegerTest::Even => is_even(n),
        IntegerTest::Odd => !is_even(n),
    }
}

fn is_even(n: i64) -> bool
    ensures { result ≡ meant.is_even n }
{
    n % 2 == 0
}
