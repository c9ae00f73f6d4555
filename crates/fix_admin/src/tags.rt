//! Names that only session messages need.

/// DefaultApplVerID of a Logon (A) of FIXT.1.1.
pub const DEFAULT_APPL_VER_ID: u32 = 1137;

/// SessionRejectReason (373): a required tag is missing.
pub const REQUIRED_TAG_MISSING: u16 = 1;
/// SessionRejectReason (373): a tag has no value.
pub const NO_VALUE: u16 = 4;
/// SessionRejectReason (373): a value is out of range.
pub const OUT_OF_RANGE: u16 = 5;
/// SessionRejectReason (373): a value is of the wrong format.
pub const WRONG_FORMAT: u16 = 6;
