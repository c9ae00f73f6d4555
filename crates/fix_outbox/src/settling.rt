//! The end of an outbox: what was posted and not taken.
ghost use Rattle.fix_outbox.specs.declared.queue.Item.{Item as AnItem};
ghost use Rattle.std.specs.Prelude.{◌≡◌, ◌+◌, ◌≤◌, vec_capacity, List, false, [], ◌++◌, All, length, map};
ghost use Rattle.crossbeam_queue.specs.Passes.{view, IsPassOf};
ghost use Rattle.fix_outbox.specs.Closing.{Clean};
ghost use Rattle.fix_outbox.specs.Queue.{CanContain, IsTaker, count_posted, taker, with_list};
ghost use Rattle.fix_outbox.specs.Passes.{capacity_of, count_of, IsSenderOf, IsTakerOf, taken, closed, draft_of};
ghost use Rattle.fix_outbox.specs.Passes.{ended_of, Settles, AreClean};

use crate::closing::{ChecksWord, ClosingSeat, SharesWord};
use crate::pass::{Outbox, SenderPass, Settled, TakerPass};
use crate::queue::{Place, Sends, Takes};
use fix_fields::Draft;
use std::sync::Wait;

/// Ends an outbox, with all of its passes: what each sender posted was taken, or is left. The list
/// that it answers was reserved when the outbox was made.
pub fn settle<R: Wait>(
    rt: &R,
    outbox: &Outbox,
    taker: TakerPass,
    senders: Vec<SenderPass>,
) -> Settled
    requires taker { IsTakerOf outbox.now taker }
    requires senders { All (λ p. IsSenderOf outbox.now p) senders.items × (length senders.items ≡ count_of taker) }
    ensures settled { (rest : List AnItem) × (map draft_of rest ≡ result.left.items)
        × Settles (taken taker) rest senders.items }
    ensures closing { closed taker ≡ false → AreClean senders.items }
    ensures few { length result.left.items ≤ capacity_of outbox.now }
{
    let TakerPass {
        mut place,
        mut watch,
        room,
    } = taker;
    gather(outbox, &mut place, &mut watch, senders);
    // No post comes any more, so what is in the queue now is all that is left.
    outbox.gate.shared.load::<ChecksWord>(&mut watch, 0);
    outbox.queue.len_as::<Takes, R>(rt, &mut place);
    let left = drain(rt, outbox, &mut place, room);
    Settled { left }
}

// Takes in the senders, last one first.
fn gather(outbox: &Outbox, place: &mut Place, watch: &mut ClosingSeat, mut senders: Vec<SenderPass>)
    requires place { IsPassOf outbox.now.queue place.old × IsTaker (view place.old) }
    requires watch { watch.old.table_id ≡ outbox.now.gate.shared.table_id }
    requires senders { All (λ p. IsSenderOf outbox.now p) senders.items }
    ensures place { IsPassOf outbox.now.queue place.new }
    ensures known { view place.new
        ≡ taker (view place.old).number (view place.old).list (map ended_of senders.items ++ (view place.old).known) }
    ensures watch { (watch.new.table_id ≡ watch.old.table_id) × (watch.new.me.0.takes ≡ watch.old.me.0.takes)
        × (watch.new.me.0.closed ≡ watch.old.me.0.closed) }
    ensures clean { Clean watch.new.me.0.found → AreClean senders.items }
{
    while let Some(pass) = senders.pop() {
        let SenderPass {
            number: _,
            place: theirs,
            watch: seen,
        } = pass;
        outbox.queue.absorb::<Sends>(place, theirs);
        outbox.gate.shared.join_seat::<SharesWord>(watch, seen);
    }
    senders.destroy_empty();
}

// Takes what is left, once all senders were taken in.
fn drain<R: Wait>(rt: &R, outbox: &Outbox, place: &mut Place, room: Vec<Draft>) -> Vec<Draft>
    requires place { IsPassOf outbox.now.queue place.old × IsTaker (view place.old)
        × (length (view place.old).known ≡ (view place.old).number) }
    requires room { (room.items ≡ [])
        × (count_posted (view place.old).known ≤ length (view place.old).list + vec_capacity room) }
    ensures { (rest : List AnItem) × (map draft_of rest ≡ result.items)
        × CanContain (with_list (view place.old) ((view place.old).list ++ rest)) [] }
{
    let mut left = room;
    for _ in rt.forever() {
        match outbox.queue.pop_as::<Takes, R>(rt, place) {
            Some(item) => left.push_reserved(item.draft),
            None => return left,
        }
    }
    unreachable!()
}
