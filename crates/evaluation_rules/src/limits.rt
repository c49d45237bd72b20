// What an evaluation may do. The definitions name these constants.

/// How many calls a form may make.
pub const CALLS: u32 = 10_000;

/// How many lists, vectors and maps may be under way inside one another.
pub const ROOM: u32 = 200;
