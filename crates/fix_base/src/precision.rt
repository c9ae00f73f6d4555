//! How times are written.
/// How finely a time is written: TimeStampPrecision of a session's settings.
#[derive(Clone, Copy, Debug, PartialEq, Eq)]
pub enum Precision {
    /// Whole seconds, as `20240102-10:00:00`.
    Seconds,
    /// Three digits after the point.
    Millis,
    /// Six digits after the point.
    Micros,
}
