//! Message types, MsgType (35), by the names of their messages (FIX, "Session Protocol" and
//! "Business Message Reject"). Each is one byte.
ghost use Rattle.std.specs.Prelude.{◌≡◌};
ghost use Rattle.fix_base.specs.Says;

pub const HEARTBEAT: u8 = b'0';

pub const TEST_REQUEST: u8 = b'1';

pub const RESEND_REQUEST: u8 = b'2';

pub const REJECT: u8 = b'3';

pub const SEQUENCE_RESET: u8 = b'4';

pub const LOGOUT: u8 = b'5';

pub const LOGON: u8 = b'A';

pub const BUSINESS_MESSAGE_REJECT: u8 = b'j';

/// The types of the seven administrative messages. Every other type is an application message's.
pub const ADMIN_TYPES: [u8; 7] = [
    HEARTBEAT,
    TEST_REQUEST,
    RESEND_REQUEST,
    REJECT,
    SEQUENCE_RESET,
    LOGOUT,
    LOGON,
];

/// Whether a MsgType (35) is that of one of the seven administrative messages.
pub fn is_admin_type(msg_type: &[u8]) -> bool
    ensures { result ≡ Says.is_admin_type msg_type.now }
{
    match msg_type {
        [kind] => ADMIN_TYPES.contains(kind),
        _ => false,
    }
}
