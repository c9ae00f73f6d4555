//! Making an outbox and its passes.
ghost use Rattle.std.specs.Prelude.{◌≡◌, ◌<◌, ◌≤◌, ◌+◌, vec_capacity, false, [], All, length, IfOk};
ghost use Rattle.crossbeam_queue.specs.Passes.{view, IsPassOf};
ghost use Rattle.fix_outbox.specs.Queue.{IsTaker, taker};
ghost use Rattle.fix_outbox.specs.Passes.{capacity_of, count_of, IsTakerOf, taken, closed, IsNewSender, AreNumbered};

use crate::closing::{ClosingSeat, ClosingWord, SharesWord};
use crate::pass::{Outbox, SenderPass, TakerPass};
use crate::queue::{Place, Queue, Sends};
use fix_base::OutOfMemory;
use std::alloc::Global;

impl Outbox {
    /// An outbox of this capacity, with its passes. The senders are numbered from 1.
    pub fn new(
        alloc: Global,
        capacity: usize,
        senders: u32,
    ) -> Result<(Outbox, TakerPass, Vec<SenderPass>), OutOfMemory>
        requires { 0 < capacity }
        ensures outbox { IfOk result (λ r. capacity_of r.0 ≡ capacity) }
        ensures taker { IfOk result
            (λ r. IsTakerOf r.0 r.1 × (count_of r.1 ≡ senders) × (taken r.1 ≡ []) × (closed r.1 ≡ false)) }
        ensures senders { IfOk result
            (λ r. (length r.2.items ≡ senders) × All (λ p. IsNewSender r.0 p) r.2.items × AreNumbered r.2.items) }
    {
        let room = Vec::with_capacity(alloc, capacity)?;
        let (queue, mut place) = Queue::ruled(alloc, capacity)?;
        let (gate, mut watch) = ClosingWord::of_words(alloc, &[0], &())?;
        let outbox = Outbox { queue, gate };
        let passes = Vec::with_capacity(alloc, senders as usize)?;
        let passes = fill(&outbox, &mut place, &mut watch, passes, senders);
        let pass = TakerPass { place, watch, room };
        Ok((outbox, pass, passes))
    }

    // The next sender.
    fn sender(&self, place: &mut Place, watch: &mut ClosingSeat, number: u32) -> SenderPass
        requires place { IsPassOf self.now.queue place.old × IsTaker (view place.old)
            × ((view place.old).known ≡ []) × ((view place.old).number + 1 ≡ number) }
        requires watch { watch.old.table_id ≡ self.now.gate.shared.table_id }
        ensures place { IsPassOf self.now.queue place.new × (view place.new ≡ taker number (view place.old).list []) }
        ensures watch { (watch.new.table_id ≡ watch.old.table_id) × (watch.new.me.0 ≡ watch.old.me.0) }
        ensures sender { IsNewSender self.now result × (result.number ≡ number) }
    {
        let theirs = self.queue.another::<Sends>(place);
        let seen = self.gate.shared.split_seat::<SharesWord>(watch);
        SenderPass {
            number,
            place: theirs,
            watch: seen,
        }
    }
}

// The senders, each with a pass of its own.
fn fill(
    outbox: &Outbox,
    place: &mut Place,
    watch: &mut ClosingSeat,
    room: Vec<SenderPass>,
    senders: u32,
) -> Vec<SenderPass>
    requires place { IsPassOf outbox.now.queue place.old × (view place.old ≡ taker 0 [] []) }
    requires watch { watch.old.table_id ≡ outbox.now.gate.shared.table_id }
    requires room { (room.items ≡ []) × (senders ≤ vec_capacity room) }
    ensures place { IsPassOf outbox.now.queue place.new × (view place.new ≡ taker senders [] []) }
    ensures watch { (watch.new.table_id ≡ watch.old.table_id) × (watch.new.me.0 ≡ watch.old.me.0) }
    ensures senders { (length result.items ≡ senders) × All (λ p. IsNewSender outbox.now p) result.items
        × AreNumbered result.items }
{
    let mut passes = room;
    for k in 0..senders {
        let pass = outbox.sender(place, watch, k + 1);
        passes.push_reserved(pass);
    }
    passes
}
