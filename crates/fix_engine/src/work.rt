//! What a session works on in a turn: its state, what came over the connection, and the draft in hand. `turn` and
//! `pending` take it as one value.
use crate::State;
use crate::pending::PendingDraft;
use fix_frame::Reader;

/// What a session works on in a turn.
#[derive(Drop)]
pub struct Work {
    pub state: State,
    pub reader: Reader,
    /// Room for what one read gives.
    pub room: Vec<u8>,
    pub pending: PendingDraft,
}
