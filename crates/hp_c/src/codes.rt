//! What an export answers.

/// It was done, and told.
pub const OK: u32 = 0;

/// The pool is closed.
pub const IS_CLOSED: u32 = 1;

/// There was no memory.
pub const NO_MEMORY: u32 = 2;

/// The numbers name nothing: no config, event, file, task or line.
pub const NO_SUCH: u32 = 3;

/// A call is in flight.
pub const IN_FLIGHT: u32 = 4;

/// A line of the trace isn't allowed there.
pub const BAD_LINE: u32 = 5;

/// The first line of the trace is no header.
pub const BAD_HEADER: u32 = 6;

/// There is more to tell than there is room for.
pub const TOO_SMALL: u32 = 7;

/// A line of the conditions says none.
pub const BAD_CONDITION: u32 = 8;

/// Nothing meets the conditions.
pub const NONE_MEETS: u32 = 9;

/// The limits were reached first.
pub const LIMIT_REACHED: u32 = 10;
