//! What is read for one session. `making` fills it, `printing` writes it, and fix_schedule takes the hours
//! from it.
use fix_base::{Begin, Bytes, Precision};

/// The settings of one session: a field for each key, by its name. An Option is None where the key
/// has no value and no default.
#[derive(Debug, Drop)]
pub struct SessionSettings {
    /// The version of the session: BeginString (8).
    pub begin_string: Begin,
    /// This end's SenderCompID (49): 1 to 64 bytes from 0x20 to 0x7E.
    pub sender_comp_id: Bytes,
    /// The counterparty's CompID, this end's TargetCompID (56): 1 to 64 bytes from 0x20 to 0x7E.
    pub target_comp_id: Bytes,
    /// HeartBtInt (108) in seconds, 0 to 86400; 0 for no heartbeats.
    pub heart_bt_int: u32,
    /// When the session's window opens, in seconds after midnight.
    pub start_time: Option<u32>,
    /// When the session's window closes, in seconds after midnight; there just where StartTime is.
    pub end_time: Option<u32>,
    /// The day of the week on which a window opens, from 1 for Monday to 7 for Sunday; only with StartTime.
    pub start_day: Option<u8>,
    /// The day of the week on which a window closes; there just where StartDay is.
    pub end_day: Option<u8>,
    /// The zone of the window's times: UTC.
    pub time_zone: Bytes,
    /// The rule of another zone, as POSIX writes it. Whether it is one is judged where it is used.
    pub zone_rule: Option<Bytes>,
    /// Seconds between two attempts to connect, 1 to 86400.
    pub reconnect_interval: u32,
    /// Seconds to wait for a Logon, 1 to 86400.
    pub logon_timeout: u32,
    /// Seconds to wait for the answer to a Logout, 1 to 86400.
    pub logout_timeout: u32,
    /// Whether both ends begin with number 1 at each Logon; not served yet, so false.
    pub reset_on_logon: bool,
    /// Whether the store is reset after a Logout.
    pub reset_on_logout: bool,
    /// Whether the store is reset where the connection ends.
    pub reset_on_disconnect: bool,
    /// How many messages one ResendRequest asks for, 0 to 999,999,999; 0 for all.
    pub resend_request_chunk_size: u32,
    /// Whether SendingTime (52) is compared with the clock.
    pub check_latency: bool,
    /// By how many seconds SendingTime (52) may differ from the clock, 1 to 86400.
    pub max_latency: u32,
    /// The file of the data dictionary.
    pub data_dictionary: Option<Bytes>,
    /// Whether a field out of its section is rejected.
    pub validate_fields_out_of_order: bool,
    /// Whether a message that breaks the dictionary is rejected.
    pub reject_invalid_message: bool,
    /// Whether application messages are kept for resends.
    pub persist_messages: bool,
    /// The host that an initiator dials.
    pub socket_connect_host: Option<Bytes>,
    /// The port that an initiator dials, 1 to 65535.
    pub socket_connect_port: Option<u16>,
    /// The host on which an acceptor listens.
    pub socket_accept_host: Bytes,
    /// The port on which an acceptor listens, 1 to 65535.
    pub socket_accept_port: Option<u16>,
    /// The folder of the message store; None for a store in memory.
    pub file_store_path: Option<Bytes>,
    /// How finely times are written.
    pub time_stamp_precision: Precision,
    /// The MsgTypes (35) that the application takes; None for every type.
    pub app_types: Option<Vec<Bytes>>,
    /// The keys of the session's section and of the default sections that mean nothing here, in
    /// the order of their bytes, each once.
    pub ignored: Vec<Bytes>,
}
