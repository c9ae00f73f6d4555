//! What `Schedule::read` answers where it fails.

/// Why settings make no schedule.
#[derive(Clone, Copy, Debug, PartialEq, Eq)]
pub enum ScheduleFault {
    /// ZoneRule is no rule of a zone as POSIX writes it.
    BadRule,
    /// Out of memory. Making a schedule takes none, so this doesn't come.
    OutOfMemory,
}
