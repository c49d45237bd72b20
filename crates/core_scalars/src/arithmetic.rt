// Arithmetic on 64 signed bits.
ghost use Rattle.std.specs.Prelude.{◌≡◌, ℤ, pos, length, true, SomeIff, FitsSigned, int_div, ◌<◌};
ghost use Rattle.std.specs.Int.{w64, IsNonZero};
ghost use Rattle.core_scalars.specs.IntegerNames.{fits_arithmetic};
ghost use Rattle.repl_values.specs.Inside.FaultView.{Gives};
ghost use Rattle.core_scalars.specs.Arithmetic as meant;
ghost use Rattle.core_scalars.specs.Inside.BinaryOperation.{binary_operation};

use crate::integer_function::ArithmeticFunction;
use repl_values::{ApplyError, divide_by_zero, integer_overflow};
use std::alloc::Global;

// What is folded from the left.
#[derive(Clone, Copy)]
enum BinaryOperation {
    Add,
    Subtract,
    Multiply,
    Maximum,
    Minimum,
}

// The function at as many integers as it takes.
#[tactic(auto, unfolding(crate::specs::Arithmetic::arithmetic))]
pub(crate) fn arithmetic(
    alloc: Global,
    function: ArithmeticFunction,
    integers: &[i64],
) -> Result<i64, ApplyError>
    requires { fits_arithmetic function (length integers.now) ≡ true }
    ensures { Gives (λ n. n) result (meant.arithmetic function integers.now) }
{
    match function {
        ArithmeticFunction::Add => fold(alloc, BinaryOperation::Add, 0, integers),
        ArithmeticFunction::Subtract => difference(alloc, integers),
        ArithmeticFunction::Multiply => fold(alloc, BinaryOperation::Multiply, 1, integers),
        ArithmeticFunction::Increment => operate(alloc, BinaryOperation::Add, integers[0], 1),
        ArithmeticFunction::Decrement => operate(alloc, BinaryOperation::Subtract, integers[0], 1),
        ArithmeticFunction::Quotient => quotient(alloc, integers[0], integers[1]),
        ArithmeticFunction::Remainder => remainder(alloc, integers[0], integers[1]),
        ArithmeticFunction::Modulo => modulo(alloc, integers[0], integers[1]),
        ArithmeticFunction::Maximum => fold_from_first(alloc, BinaryOperation::Maximum, integers),
        ArithmeticFunction::Minimum => fold_from_first(alloc, BinaryOperation::Minimum, integers),
    }
}

#[tactic(auto, unfolding(crate::specs::Arithmetic::difference))]
fn difference(alloc: Global, integers: &[i64]) -> Result<i64, ApplyError>
    requires { 0 < length integers.now }
    ensures { Gives (λ n. n) result (meant.difference integers.now) }
{
    if integers.len() == 1 {
        let negated = integers[0].checked_neg();
        return or_overflow(alloc, negated);
    }
    fold_from_first(alloc, BinaryOperation::Subtract, integers)
}

fn fold_from_first(
    alloc: Global,
    operation: BinaryOperation,
    integers: &[i64],
) -> Result<i64, ApplyError>
    requires { 0 < length integers.now }
    ensures { Gives (λ n. n) result (meant.from_first (binary_operation operation) integers.now) }
{
    fold(alloc, operation, integers[0], &integers[1..])
}

fn fold(
    alloc: Global,
    operation: BinaryOperation,
    start: i64,
    integers: &[i64],
) -> Result<i64, ApplyError>
    ensures { Gives (λ n. n) result (meant.left_fold
        (binary_operation operation) start integers.now) }
{
    let mut total = start;
    for n in integers {
        total = operate(alloc, operation, total, *n)?;
    }
    Ok(total)
}

fn operate(
    alloc: Global,
    operation: BinaryOperation,
    left: i64,
    right: i64,
) -> Result<i64, ApplyError>
    ensures { Gives (λ n. n) result (binary_operation operation left right) }
{
    match operation {
        BinaryOperation::Add => or_overflow(alloc, left.checked_add(right)),
        BinaryOperation::Subtract => or_overflow(alloc, left.checked_sub(right)),
        BinaryOperation::Multiply => or_overflow(alloc, left.checked_mul(right)),
        BinaryOperation::Maximum => Ok(left.max(right)),
        BinaryOperation::Minimum => Ok(left.min(right)),
    }
}

#[tactic(auto, unfolding(crate::specs::Arithmetic::quotient))]
fn quotient(alloc: Global, dividend: i64, divisor: i64) -> Result<i64, ApplyError>
    ensures { Gives (λ n. n) result (meant.quotient dividend divisor) }
{
    if divisor == 0 {
        return Err(ApplyError::Fault(divide_by_zero(alloc)?));
    }
    let divided = divide(dividend, divisor);
    or_overflow(alloc, divided)
}

// Nothing where the quotient does not fit, which is at the least number by -1.
fn divide(dividend: i64, divisor: i64) -> Option<i64>
    requires { IsNonZero w64 divisor }
    ensures { SomeIff result (FitsSigned w64 (int_div dividend divisor))
        (int_div dividend divisor) }
{
    dividend.checked_div(divisor)
}

#[tactic(auto, unfolding(crate::specs::Arithmetic::remainder))]
fn remainder(alloc: Global, dividend: i64, divisor: i64) -> Result<i64, ApplyError>
    ensures { Gives (λ n. n) result (meant.remainder dividend divisor) }
{
    if divisor == 0 {
        return Err(ApplyError::Fault(divide_by_zero(alloc)?));
    }
    Ok(dividend.wrapping_rem(divisor))
}

#[tactic(auto, unfolding(crate::specs::Arithmetic::modulo))]
fn modulo(alloc: Global, dividend: i64, divisor: i64) -> Result<i64, ApplyError>
    ensures { Gives (λ n. n) result (meant.modulo dividend divisor) }
{
    if divisor == 0 {
        return Err(ApplyError::Fault(divide_by_zero(alloc)?));
    }
    let rest = dividend.wrapping_rem(divisor);
    Ok(with_sign_of(divisor, rest))
}

// A remainder other than zero is given the divisor's sign.
fn with_sign_of(divisor: i64, rest: i64) -> i64
    ensures { result ≡ meant.with_sign_of divisor rest }
{
    if rest == 0 || (rest < 0) == (divisor < 0) {
        rest
    } else {
        rest.wrapping_add(divisor)
    }
}

// What a checked operation gave, or the fault where it gave nothing.
fn or_overflow(alloc: Global, checked: Option<i64>) -> Result<i64, ApplyError>
    ensures { (n : ℤ) → SomeIff checked (FitsSigned w64 n) n
        → Gives (λ n. n) result (meant.or_overflow n) }
{
    match checked {
        Some(n) => Ok(n),
        None => Err(ApplyError::Fault(integer_overflow(alloc)?)),
    }
}
