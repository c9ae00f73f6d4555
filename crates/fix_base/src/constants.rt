//! The delimiter of fields, and the bounds of numbers, tags and times.

/// The byte that ends each field (FIX, "Field Delimiter").
pub const SOH: u8 = 1;

/// The greatest MsgSeqNum (34).
pub const LAST_SEQ_NUM: u32 = 999_999_999;

/// The greatest MsgSeqNum that may be expected next, as NewSeqNo (36) may say it: one above the last.
pub const LAST_EXPECTED: u32 = 1_000_000_000;

/// The greatest tag of a field.
pub const LAST_TAG: u32 = 999_999_999;

/// The last microsecond of 2099, in microseconds since 1970. A clock reading beyond it counts as
/// this one.
pub const LAST_TIME: u64 = 4_102_444_799_999_999;
