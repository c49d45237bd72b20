// A version in a ring, and what a ring is found by.
use value_data::Value;

/// Names a ring in the `Rings` that made it, by a number from 0 on. After the ring was released,
/// another may get it.
#[derive(Clone, Copy, Debug, PartialEq, Eq, PartialOrd, Ord)]
pub struct RingId {
    pub place: usize,
}

// A version, and the places of its neighbours. The newest is the newer neighbour of none: there
// `newer` is the oldest of its ring, and the oldest has the newest as `older`. A node that is in no
// ring holds nil, and `older` is the next such.
#[derive(Drop)]
pub(crate) struct Node {
    pub(crate) stamp: u128,
    pub(crate) content: Value,
    pub(crate) older: u32,
    pub(crate) newer: u32,
}

// What a walk over a ring passes: the lower half of a stamp, and the places of the neighbours.
#[derive(Clone, Copy)]
pub(crate) struct Joint {
    pub(crate) lower: u64,
    pub(crate) older: u32,
    pub(crate) newer: u32,
}

// Where the newest version stands, and how many there are: one at the least.
#[derive(Clone, Copy)]
pub(crate) struct Ring {
    pub(crate) newest: u32,
    pub(crate) count: u32,
}
