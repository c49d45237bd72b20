//! The values of the language: how they are made, printed, compared, measured and copied; the faults
//! of evaluation: one maker for each, with its class and its text; and what several groups of
//! functions share: rows of tables, each with a function's name and the numbers of arguments that it
//! takes, and items: taken from a value, reached by index, and put together to a list.
//!
//! What a value is, and its nodes, stand in `value_data`, whose types and calls stand here too.
//! `laws` says what holds of all values.
#![tactic(auto)]

mod arguments;
mod error;
mod fault;
mod faults;
mod function_row;
pub mod laws;
mod limits;
mod making;
mod print;
mod repeats;
mod row;
mod rule;

pub use arguments::{at_index, integer_of, row_of};
pub use error::ApplyError;
pub use fault::Fault;
pub use faults::{
    bad_form, broken_rule, divide_by_zero, duplicate_key, integer_overflow, namespace_is_fixed,
    no_such_namespace, no_such_var, no_value_supplied, not_a_function, not_a_value, out_of_bounds,
    output_too_long, thrown_text, too_deep, too_large, too_many_calls, unresolved_symbol,
    wrong_argument, wrong_arity,
};
pub use function_row::{Arity, FunctionRow, HasRow, first_named};
pub use limits::{MOST_NESTING, MOST_TEXT, MOST_WEIGHT};
pub use making::{list_of, list_or_nil, vector_of};
pub use print::{display_into, print_into};
pub use repeats::first_repeated;
pub use row::ItemRow;
pub use rule::Rule;
pub use value_data::{
    Built, Owner, RefName, Sequence, Table, Value, copy, copy_items, copy_text, hash_of, is_plain,
    nesting, pair_as_vector, same, weight,
};
