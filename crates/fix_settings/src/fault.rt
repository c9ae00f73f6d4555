//! What `Settings::read` answers where it fails. `judging` and `reading` find the reason.
use crate::key::Key;

/// Why a text is refused, and in which line.
#[derive(Clone, Copy, Debug, PartialEq, Eq)]
pub struct SettingsFault {
    /// The line, the first one being 1; 0 where none is at fault.
    pub line: u32,
    pub cause: SettingsCause,
}

/// The reasons, in the order in which they are looked for.
#[derive(Clone, Copy, Debug, PartialEq, Eq)]
pub enum SettingsCause {
    /// A key before any section; at line 0, no session or more than 256.
    NoSection,
    /// A line that is no heading and no `key=value`.
    NotKeyValue,
    /// `SocketUseSSL=Y`, or a key of TLS.
    TlsAsked,
    /// A session has no value for a key that it must have one for.
    Missing(Key),
    /// A value that isn't of its key's form, or stands without one that belongs beside it.
    BadValue(Key),
    /// The same BeginString, SenderCompID and TargetCompID as a session before.
    SameIdentity,
    /// Out of memory; the line is 0.
    OutOfMemory,
}
