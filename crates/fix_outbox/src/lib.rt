//! The outbox: many threads post drafts, and one session takes them. It is the way by which a
//! draft comes from another thread to the thread that owns the session.
#![tactic(auto)]

mod calls;
mod closing;
mod opening;
mod pass;
mod queue;
mod settling;
#[cfg(test)]
mod tests;

pub use pass::{Outbox, PostFault, SenderPass, Settled, TakerPass};
pub use settling::settle;
