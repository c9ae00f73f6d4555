//! The keys that have a meaning here, and their order. `table` has a row for each.
ghost use Rattle.std.specs.Prelude.{◌≡◌, ◌<◌};
ghost use Rattle.fix_settings.specs.Table.{index_of};

/// A key of a session's settings.
#[derive(Clone, Copy, Debug, PartialEq, Eq)]
pub enum Key {
    BeginString,
    SenderCompID,
    TargetCompID,
    HeartBtInt,
    StartTime,
    EndTime,
    StartDay,
    EndDay,
    TimeZone,
    ZoneRule,
    ReconnectInterval,
    LogonTimeout,
    LogoutTimeout,
    ResetOnLogon,
    ResetOnLogout,
    ResetOnDisconnect,
    ResendRequestChunkSize,
    CheckLatency,
    MaxLatency,
    DataDictionary,
    ValidateFieldsOutOfOrder,
    RejectInvalidMessage,
    PersistMessages,
    SocketConnectHost,
    SocketConnectPort,
    SocketAcceptHost,
    SocketAcceptPort,
    FileStorePath,
    TimeStampPrecision,
    AppTypes,
}

/// The keys, in the table's order: the order in which they are judged and printed.
pub const KEYS: [Key; 30] = [
    Key::BeginString,
    Key::SenderCompID,
    Key::TargetCompID,
    Key::HeartBtInt,
    Key::StartTime,
    Key::EndTime,
    Key::StartDay,
    Key::EndDay,
    Key::TimeZone,
    Key::ZoneRule,
    Key::ReconnectInterval,
    Key::LogonTimeout,
    Key::LogoutTimeout,
    Key::ResetOnLogon,
    Key::ResetOnLogout,
    Key::ResetOnDisconnect,
    Key::ResendRequestChunkSize,
    Key::CheckLatency,
    Key::MaxLatency,
    Key::DataDictionary,
    Key::ValidateFieldsOutOfOrder,
    Key::RejectInvalidMessage,
    Key::PersistMessages,
    Key::SocketConnectHost,
    Key::SocketConnectPort,
    Key::SocketAcceptHost,
    Key::SocketAcceptPort,
    Key::FileStorePath,
    Key::TimeStampPrecision,
    Key::AppTypes,
];

impl Key {
    /// Its place in the table, from 0 on.
    pub fn index(self) -> usize
        ensures is { result ≡ index_of self }
        ensures bound { result < 30 }
    {
        match self {
            Key::BeginString => 0,
            Key::SenderCompID => 1,
            Key::TargetCompID => 2,
            Key::HeartBtInt => 3,
            Key::StartTime => 4,
            Key::EndTime => 5,
            Key::StartDay => 6,
            Key::EndDay => 7,
            Key::TimeZone => 8,
            Key::ZoneRule => 9,
            Key::ReconnectInterval => 10,
            Key::LogonTimeout => 11,
            Key::LogoutTimeout => 12,
            Key::ResetOnLogon => 13,
            Key::ResetOnLogout => 14,
            Key::ResetOnDisconnect => 15,
            Key::ResendRequestChunkSize => 16,
            Key::CheckLatency => 17,
            Key::MaxLatency => 18,
            Key::DataDictionary => 19,
            Key::ValidateFieldsOutOfOrder => 20,
            Key::RejectInvalidMessage => 21,
            Key::PersistMessages => 22,
            Key::SocketConnectHost => 23,
            Key::SocketConnectPort => 24,
            Key::SocketAcceptHost => 25,
            Key::SocketAcceptPort => 26,
            Key::FileStorePath => 27,
            Key::TimeStampPrecision => 28,
            Key::AppTypes => 29,
        }
    }
}
