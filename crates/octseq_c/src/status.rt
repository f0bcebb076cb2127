//! The statuses that calls return. octseq.h has the same numbers.

/// The call succeeded.
pub const OK: u32 = 0;

/// There is too little room. Nothing was written, and the needed room is reported.
pub const NO_ROOM: u32 = 1;

/// The octets aren't what they were read as.
pub const MALFORMED: u32 = 2;

/// The octets aren't well-formed UTF-8.
pub const FAULT: u32 = 3;

/// Data without the form of its type may have pointers, so it can't be moved.
pub const IMMOVABLE: u32 = 4;

/// A message would exceed 65,535 octets, or a text is longer than a `usize` can say.
pub const TOO_LONG: u32 = 5;

/// There is no name at a row's offset, its data isn't within the octets, or its section doesn't exist.
pub const BAD_ROW: u32 = 6;

/// The state of a reading in pieces isn't valid.
pub const BAD_STATE: u32 = 7;

/// A value wrote no text. This never happens, but no contract of `fmt` rules it out.
pub const UNSHOWN: u32 = 8;

/// A request for memory was refused.
pub const MEMORY: u32 = 9;
