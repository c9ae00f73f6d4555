//! An outbox and its passes.
ghost use Rattle.std.specs.Prelude.{◌≡◌, true, false, []};
ghost use Rattle.crossbeam_queue.specs.Passes.{view};
ghost use Rattle.fix_outbox.specs.Queue.{IsSender, IsTaker};

use crate::closing::{ClosingSeat, ClosingWord};
use crate::queue::{Place, Queue};
use fix_fields::Draft;

/// A bounded queue of drafts, and a word that closes it. Threads share it by a reference; what each
/// may do it does by its pass.
#[derive(Drop)]
pub struct Outbox {
    pub(crate) queue: Queue,
    pub(crate) gate: ClosingWord,
    ghost one_word: { gate.shared.table_id.words ≡ 1 },
}

/// The right to post under one number. It comes from `Outbox::new` alone, and isn't copied.
#[derive(Drop)]
pub struct SenderPass {
    pub(crate) number: u32,
    pub(crate) place: Place,
    pub(crate) watch: ClosingSeat,
    ghost sends: { IsSender number (view place) × (place.me.1 ≡ []) × (watch.me.0.takes ≡ false) × (watch.me.1 ≡ []) },
}

/// The right to take and to close, with the room of the list that `settle` answers. It comes from
/// `Outbox::new` alone, and isn't copied.
#[derive(Drop)]
pub struct TakerPass {
    pub(crate) place: Place,
    pub(crate) watch: ClosingSeat,
    pub(crate) room: Vec<Draft>,
    ghost takes: { IsTaker (view place) × (place.me.1 ≡ []) × (watch.me.0.takes ≡ true) },
    ghost none_in: { (view place).known ≡ [] },
    ghost empty: { room.items ≡ [] },
}

/// Why a draft wasn't posted, with the draft.
#[derive(Drop)]
pub enum PostFault {
    /// The taker has closed the outbox.
    Closed(Draft),
    /// The outbox held as many drafts as it may, at a moment of this call.
    Full(Draft),
}

/// What `settle` answers.
#[derive(Drop)]
pub struct Settled {
    /// The drafts that were posted and not taken, oldest first.
    pub left: Vec<Draft>,
}
