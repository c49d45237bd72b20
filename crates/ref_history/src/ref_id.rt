// What a ref is made with, and what it is found by.

/// Names a ref in the history that made it. After the ref was dropped, another may get its id.
#[derive(Clone, Copy, Debug, PartialEq, Eq, PartialOrd, Ord)]
pub struct RefId {
    pub(crate) place: usize,
}

/// How many versions are kept behind the newest: `least` at the least, as soon as there are so
/// many, and `most` at the most, where a failed read asks for more.
#[derive(Clone, Copy, Debug, PartialEq, Eq)]
pub struct Bounds {
    pub least: u64,
    pub most: u64,
}
