//! The special forms of the language, the shapes that they have, and what a program defines by
//! them.
#![tactic(auto)]

mod forms;
mod function;
mod local;
mod locals;
mod lookup;
mod names;
mod shapes;
mod special;
mod truth;

pub use forms::{Forms, LetBinding};
pub use function::Function;
pub use locals::Locals;
pub use shapes::{Logic, Shape, shape_of};
pub use special::SpecialForm;
pub use truth::{chosen_body, is_truthy};
