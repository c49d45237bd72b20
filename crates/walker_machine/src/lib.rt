//! The steps of the walker: what a form's evaluation begins with, what a call comes to, and what
//! becomes of an answer. `repl_walker` takes them, from one ask to the next.
#![tactic(auto)]

mod alter;
mod answers;
mod calls;
mod collect;
mod defining;
mod forms;
mod names;
mod rows;
mod special;
mod swap;
mod update;

pub use answers::use_answer;
pub use calls::{call_named, enter};
pub use defining::define;
pub use forms::evaluate;
pub use names::names_function;
pub use rows::{next_argument, next_binding, next_in_logic, next_item};
pub use update::give_to_store;
