//! The rules of evaluation, by cases on the form: what a job asks next after these answers, or how
//! it ends. Of them the code names two numbers that it has to keep to, and on which occasion a form
//! is evaluated.
//!
//! And what calls of the functions that ask the store come to, before anybody is asked: a fault, a
//! read, a set or an ensure in the attempt, or an ask whose answer is the value. The kinds of all
//! arguments are looked at first, from the left; then whether a transaction runs; then what a shared
//! ref forbids. For calls of a program's functions, their parameters are bound.
#![tactic(auto)]

mod agents;
mod altering;
mod applying;
mod arguments;
mod bounds;
mod limits;
mod occasion;
mod outcome;
mod parameters;
mod rules;
mod sending;
mod shared;
mod updating;

pub use altering::{Alteration, ref_to_alter};
pub use applying::{call, call_in_action};
pub use limits::{CALLS, ROOM};
pub use occasion::Occasion;
pub use outcome::{Addressed, Altered, Call, Swapped};
pub use parameters::{bind_parameters, full_name, get_arguments};
pub use rules::may_hold;
pub use sending::{Dispatch, agent_to_send};
pub use shared::call_in_shared_text;
pub use updating::{Update, atom_to_swap};
