//! One way to send: what a session sends is staged, kept together as one record, and then written. `fix_engine`
//! stages its answers and the drafts of the application here, and flushes them.
#![tactic(auto)]

mod context;
mod drafting;
mod fault;
mod flushing;
mod framing;
mod laws;
mod numbering;
mod pending;
mod repeating;
mod sender;
mod serving;
#[cfg(test)]
mod serving_tests;
mod staged;
mod staging;
#[cfg(test)]
mod tests;
mod writing;

pub use context::Context;
pub use drafting::{stage_draft, stage_pending};
pub use fault::StageFault;
pub use flushing::{flush, settle};
pub use framing::frame_of;
pub use laws::{
    a_draft_is_staged_lawfully, a_flush_is_lawful, a_message_is_staged_lawfully,
    a_served_request_is_lawful, a_turn_settles_lawfully, an_unwritten_message_is_kept_lawfully,
    sending_keeps_and_writes, serving_keeps_only_what_is_withheld,
    what_is_out_of_memory_would_have_gone_on, what_is_served_has_an_end,
};
pub use pending::{PendingDraft, pending_is_draft, settle_pending};
pub use sender::{Numbers, Sender, put_down, take_reading};
pub use serving::serve;
pub use staged::{Stage, Taken};
pub use staging::stage;
