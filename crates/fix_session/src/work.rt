//! What a session works on in a turn: its state, and what came over the connection. `turn` takes it as one value.
use crate::State;
use fix_frame::Reader;

/// What a session works on in a turn.
#[derive(Drop)]
pub struct Work {
    pub state: State,
    pub reader: Reader,
    /// Room for what one read gives.
    pub room: Vec<u8>,
}
