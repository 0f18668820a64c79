//! The status codes that calls return. The C header has all of them except the last two, with the same numbers.

/// The call succeeded.
pub const OK: u32 = 0;
/// A buffer is too short. No text or list was written.
pub const TOO_SHORT: u32 = 1;
/// Out of memory. The buffers and the handle are unchanged.
pub const OUT_OF_MEMORY: u32 = 2;
/// The mailmap has no entry at this index. Nothing was written.
pub const NO_ENTRY: u32 = 3;
/// The four texts don't make an entry. The mailmap is unchanged.
pub const NOT_AN_ENTRY: u32 = 4;
/// No line can hold one of the mailmap's entries. The buffer is unchanged.
pub const UNWRITABLE: u32 = 5;
/// The handle is closed. Nothing was written.
pub const CLOSED: u32 = 6;
/// The handle is open already, and is unchanged.
pub const OPEN: u32 = 7;
