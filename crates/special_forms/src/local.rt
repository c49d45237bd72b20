// A name that is bound.
use repl_values::Value;
use std::sync::ArcStr;

// With the place of the next older local of its name, from 0 for the oldest of all.
#[derive(Drop)]
pub(crate) struct Local {
    pub(crate) name: ArcStr,
    pub(crate) value: Value,
    pub(crate) older: Option<usize>,
}
