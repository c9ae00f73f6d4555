//! What a read of a connection, and a write to it, answer.

/// What a read of a connection came to.
#[derive(Clone, Copy, Debug, PartialEq, Eq)]
pub enum ReadTurn {
    /// So many bytes came: at least one.
    Bytes(usize),
    /// Nothing came yet.
    Idle,
    /// The other side ended the connection.
    End,
    /// The connection failed.
    Failed,
    /// Out of memory, and nothing was read.
    OutOfMemory,
}

/// What a write to a connection came to.
#[derive(Clone, Copy, Debug, PartialEq, Eq)]
pub enum WriteTurn {
    /// All bytes went out.
    Done,
    /// The connection failed after so many of the bytes had gone out.
    Failed(usize),
    /// Out of memory, and nothing went out.
    OutOfMemory,
}
