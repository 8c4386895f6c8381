// The limits of a stack. Contracts name them too.

/// The most macros that can be open at a time.
pub const MAX_DEPTH: usize = 64;

/// The greatest undo limit.
pub const MAX_LIMIT: usize = 1_000_000;
