// When two answers are the same.
ghost use Rattle.std.specs.Prelude.{◌≡◌, ◌↔◌, IsTrue};
ghost use Rattle.repl_asks.specs.Inside.View.{answer_view, named_view, resolution_view};
ghost use Rattle.repl_asks.specs.Inside.View.{reading_view, verdict_view, permission_view};

use crate::functions::{same_fault, same_function};
use crate::values::same_value;
use repl_asks::{Answer, NamedFunction, Permission, Reading, Resolution, Verdict};

/// Whether both are one function of the language, or the same function of the program.
pub fn same_named_function(left: &NamedFunction, right: &NamedFunction) -> bool
    ensures { IsTrue result ↔ (named_view left.now ≡ named_view right.now) }
{
    match (left, right) {
        (NamedFunction::Core(a), NamedFunction::Core(b)) => a == b,
        (NamedFunction::Store(a), NamedFunction::Store(b)) => a == b,
        (NamedFunction::Program(a), NamedFunction::Program(b)) => same_function(a, b),
        _ => false,
    }
}

/// Whether both name the same value or function, or nothing for the same reason.
pub fn same_resolution(left: &Resolution, right: &Resolution) -> bool
    ensures { IsTrue result ↔ (resolution_view left.now ≡ resolution_view right.now) }
{
    match (left, right) {
        (Resolution::Value(a), Resolution::Value(b)) => same_value(a, b),
        (Resolution::Function(a), Resolution::Function(b)) => same_named_function(a, b),
        (Resolution::Nothing(a), Resolution::Nothing(b)) => same_fault(a, b),
        _ => false,
    }
}

/// Whether both found the same value, or none.
pub fn same_reading(left: &Reading, right: &Reading) -> bool
    ensures { IsTrue result ↔ (reading_view left.now ≡ reading_view right.now) }
{
    match (left, right) {
        (Reading::Found(a), Reading::Found(b)) => same_value(a, b),
        (Reading::Retry, Reading::Retry) => true,
        _ => false,
    }
}

/// Whether the same came of both commits.
pub fn same_verdict(left: &Verdict, right: &Verdict) -> bool
    ensures { IsTrue result ↔ (verdict_view left.now ≡ verdict_view right.now) }
{
    match (left, right) {
        (Verdict::Committed, Verdict::Committed) => true,
        (Verdict::Conflict, Verdict::Conflict) => true,
        (Verdict::Faulted(a), Verdict::Faulted(b)) => same_fault(a, b),
        _ => false,
    }
}

/// Whether both were granted, or denied for the same reason.
pub fn same_permission(left: &Permission, right: &Permission) -> bool
    ensures { IsTrue result ↔ (permission_view left.now ≡ permission_view right.now) }
{
    match (left, right) {
        (Permission::Granted, Permission::Granted) => true,
        (Permission::Denied(a), Permission::Denied(b)) => same_fault(a, b),
        _ => false,
    }
}

/// Whether the answers are of one kind and say the same.
pub fn same_answer(left: &Answer, right: &Answer) -> bool
    ensures { IsTrue result ↔ (answer_view left.now ≡ answer_view right.now) }
{
    match (left, right) {
        (Answer::Resolution(a), Answer::Resolution(b)) => same_resolution(a, b),
        (Answer::Done, Answer::Done) => true,
        (Answer::Value(a), Answer::Value(b)) => same_value(a, b),
        (Answer::Reading(a), Answer::Reading(b)) => same_reading(a, b),
        (Answer::Verdict(a), Answer::Verdict(b)) => same_verdict(a, b),
        (Answer::Permission(a), Answer::Permission(b)) => same_permission(a, b),
        _ => false,
    }
}
