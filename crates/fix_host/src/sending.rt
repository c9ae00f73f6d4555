//! A sender of a file's drafts, and what is known of it once it has ended.
ghost use Rattle.std.specs.Prelude.{◌≡◌, ◌<◌, ◌^◌, [], length, map, Some, List};
ghost use Rattle.fix_fields.specs.Drafted.{DraftText};
ghost use Rattle.fix_outbox.specs.Passes.{IsSenderOf, posted, found};
ghost use Rattle.fix_host.specs.DraftFile.{AreDraftsOf};
ghost use Rattle.fix_host.specs.Posting.{PostsEnd};
ghost use Rattle.fix_host.specs.Sending.{HasSent};

use crate::{Gate, post_all};
use fix_base::Bytes;
use fix_fields::Draft;
use fix_outbox::{Outbox, SenderPass};
use std::snapshot::Snapshot;
use std::sync::Wait;
use std::thread::Promise;

/// A sender that has ended. The text `file` has so many drafts, and its pass has posted the first `posted` of them
/// and nothing else.
#[derive(Drop)]
pub struct SenderEnd {
    pub pass: SenderPass,
    pub file: Bytes,
    pub drafts: u32,
    pub posted: u32,
    ghost sent: { ∥ HasSent pass file drafts posted ∥₁ },
}

/// That the pass of a sender is of this outbox, and its file is this one.
#[derive(Drop)]
pub struct OfSender {
    pub outbox: Snapshot<Outbox>,
    pub file: Snapshot<Bytes>,
}

impl Promise<SenderEnd> for OfSender {
    ghost use Rattle.std.specs.Prelude.{◌≡◌};
    ghost use Rattle.fix_outbox.specs.Passes.{IsSenderOf};

    ghost kept_by = { λ p r. IsSenderOf p.outbox.value r.pass × (r.file ≡ p.file.value) };
}

/// Posts the drafts of a file with a pass that has posted nothing yet, and ends the sender.
pub fn send_file<R: Wait, G: Gate>(
    rt: &R,
    outbox: &Outbox,
    mut pass: SenderPass,
    file: Bytes,
    mut drafts: Vec<Option<Draft>>,
    gate: &G,
) -> SenderEnd
    requires pass { IsSenderOf outbox.now pass × (posted pass ≡ []) }
    requires drafts { (ds : List DraftText) × (drafts.items ≡ map Some ds) × AreDraftsOf file ds }
    requires few { length drafts.items < 2 ^ 32 }
    ensures pass { IsSenderOf outbox.now result.pass }
    ensures file { result.file ≡ file }
    ensures drafts { result.drafts ≡ length drafts.items }
    ensures end { PostsEnd result.posted result.drafts (found pass) (found result.pass) }
{
    let count = drafts.len() as u32;
    let posted = post_all(rt, outbox, &mut pass, drafts.as_mut_slice(), gate);
    SenderEnd {
        pass,
        file,
        drafts: count,
        posted,
    }
}
