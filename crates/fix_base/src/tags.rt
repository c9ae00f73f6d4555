//! The tags of fields that a session speaks of, by their FIX names, and the lists of tags that have a
//! fixed role.

pub const BEGIN_SEQ_NO: u32 = 7;

pub const BEGIN_STRING: u32 = 8;

pub const BODY_LENGTH: u32 = 9;

pub const CHECK_SUM: u32 = 10;

pub const END_SEQ_NO: u32 = 16;

pub const MSG_SEQ_NUM: u32 = 34;

pub const MSG_TYPE: u32 = 35;

pub const NEW_SEQ_NO: u32 = 36;

pub const POSS_DUP_FLAG: u32 = 43;

pub const REF_SEQ_NUM: u32 = 45;

pub const SENDER_COMP_ID: u32 = 49;

pub const SENDING_TIME: u32 = 52;

pub const TARGET_COMP_ID: u32 = 56;

pub const TEXT: u32 = 58;

pub const ENCRYPT_METHOD: u32 = 98;

pub const HEART_BT_INT: u32 = 108;

pub const TEST_REQ_ID: u32 = 112;

pub const ORIG_SENDING_TIME: u32 = 122;

pub const GAP_FILL_FLAG: u32 = 123;

pub const RESET_SEQ_NUM_FLAG: u32 = 141;

pub const REF_TAG_ID: u32 = 371;

pub const REF_MSG_TYPE: u32 = 372;

pub const SESSION_REJECT_REASON: u32 = 373;

pub const BUSINESS_REJECT_REF_ID: u32 = 379;

pub const BUSINESS_REJECT_REASON: u32 = 380;

/// Pairs of a length tag and the tag of the data field that it counts the bytes of (FIX 4.4,
/// "Data Types", `Length` and `data`).
pub const DATA_PAIRS: [(u32, u32); 16] = [
    (90, 91),
    (93, 89),
    (95, 96),
    (212, 213),
    (348, 349),
    (350, 351),
    (352, 353),
    (354, 355),
    (356, 357),
    (358, 359),
    (360, 361),
    (362, 363),
    (364, 365),
    (445, 446),
    (618, 619),
    (621, 622),
];

/// The header tags that the engine writes itself beside 8, 9 and 35, in the order in which it
/// writes them. They are no part of a message's body.
pub const SESSION_TAGS: [u32; 6] = [34, 43, 49, 52, 56, 122];

/// The tags of a message's header (FIX 4.2 and 4.4, "Standard Message Header"). One list serves
/// both versions.
pub const HEADER_TAGS: [u32; 31] = [
    8, 9, 34, 35, 43, 49, 50, 52, 56, 57, 90, 91, 97, 115, 116, 122, 128, 129, 142, 143, 144, 145,
    212, 213, 347, 369, 370, 627, 628, 629, 630,
];

/// The tags of a message's trailer (FIX, "Standard Message Trailer").
pub const TRAILER_TAGS: [u32; 3] = [10, 89, 93];

/// The tags that the engine alone writes, or that belong to its frame, to signatures or to
/// encryption: a message that an application gives may carry none of them.
pub const ENGINE_TAGS: [u32; 14] = [8, 9, 10, 34, 35, 43, 49, 52, 56, 89, 90, 91, 93, 122];
