//! The functions of the language on single values: those that take integers alone, those that take
//! values of any kind and have no fault (equality, and tests of what a value is), and those that
//! give or print a text.
//!
//! Integers have 64 signed bits, and a result outside them is a fault, never a wrap.
#![tactic(auto)]

mod arithmetic;
mod comparison;
mod integer_function;
mod integers;
mod kinds;
mod predicate_function;
mod predicates;
mod printing;
mod text_function;
mod texts;

pub use integer_function::{ArithmeticFunction, ComparisonFunction, IntegerFunction, IntegerTest};
pub use integers::apply_integers;
pub use predicate_function::{PredicateFunction, ValueTest};
pub use predicates::apply_predicates;
pub use printing::text_printed;
pub use text_function::{PrintFunction, TextFunction};
pub use texts::{apply_texts, show_into};
