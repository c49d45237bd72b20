// What a tenant may have. The definitions name these constants.

/// The greatest length of a message, and of a string in one, in bytes.
pub const MESSAGE_LIMIT: usize = 1_048_576;

/// So many waiting replies hold back whatever may add more.
pub const MOST_REPLIES: usize = 1_024;
