// What the values of the language may come to. The definitions name these constants.

/// The most that a value that is made may weigh: 1 for each value in it, and the bytes of each
/// text.
pub const MOST_WEIGHT: u64 = 1_048_576;

/// The deepest that a value that is made may nest.
pub const MOST_NESTING: u64 = 128;

/// The longest text that an evaluation, or one call of a print function, may print, in bytes.
pub const MOST_TEXT: usize = 1_048_576;
