//! A session over its machine: it is opened over a message store, begins connections, makes turns, sends, leaves, and
//! is opened again after a stop.
#![tactic(auto)]

mod answering;
mod beginning;
mod judging;
mod laws;
mod offering;
mod plan;
mod rules;
mod sending;
mod serving;
mod session;
mod state;
mod stop;
#[cfg(test)]
mod tests;
mod turn;
mod waiting;
mod work;

pub use judging::{asks_for_a_reset, is_gap_fill, judge};
pub use laws::a_run_leaves_the_numbers_in_sync;
pub use plan::{SessionPlan, SessionRefused};
pub use rules::Rules;
pub use serving::{Served, session_thread};
pub use session::Session;
pub use state::State;
pub use stop::{BeginFault, RunEnd, SendFault, StopCause};
pub use turn::{ROOM, run};
pub use work::Work;
