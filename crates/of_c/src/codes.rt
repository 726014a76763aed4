//! The codes that calls from C answer. The C side adds 1 (a pointer is null) and 2 (a handle is in
//! a call).

/// What was asked for is done.
pub const DONE: u32 = 0;

/// The slot is empty, or holds another kind of thing than the call needs.
pub const EMPTY: u32 = 3;

/// The slot that was to be filled holds something already.
pub const FULL: u32 = 4;

/// Memory ran out.
pub const NO_MEMORY: u32 = 5;

/// A number that was given is out of its range.
pub const RANGE: u32 = 6;

/// A caller with this number is enrolled already.
pub const TAKEN: u32 = 7;

/// The caller has an open call, so no other call can begin.
pub const CALL_OPEN: u32 = 8;

/// The caller has no open call that could go on.
pub const NO_CALL: u32 = 9;

/// The call has made all steps that it was given. The call stays open.
pub const STOPPED: u32 = 10;

/// No sequence was left for the call. The call is over, and changed nothing.
pub const SPENT: u32 = 11;

/// The caller's number has made all calls that it may make.
pub const NO_TICKET: u32 = 12;

/// The words or the text are not those of a script.
pub const NO_SCRIPT: u32 = 13;

/// The memory can't be closed: a caller of it has not left.
pub const IN_USE: u32 = 14;

/// No such key, item or call is saved.
pub const ABSENT: u32 = 15;

/// The buffer is too short for the text.
pub const NO_ROOM: u32 = 16;

/// The text is not the image of anything that a memory can have left.
pub const NO_IMAGE: u32 = 17;

/// No memory may go on from what recovery finds in the words.
pub const NO_START: u32 = 18;

/// No new machine may take the place of a lost one yet.
pub const NOT_YET: u32 = 27;
