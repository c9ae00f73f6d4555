//! The rules of the FIX session layer as one decision: what a session does at each message, each
//! reading of the clock, each begin and leave. No input or output, no memory, no clock is here.
//!
//! ```text
//! Down ──begin──> AwaitLogon ──Logon (A)──> Up ──leave──> LogoutSent
//!   ^                 │                     │                 │
//!   └──── a close, or the end of the connection by the other side or a fault ────┘
//! ```
#![tactic(auto)]

mod answer;
mod await_logon;
mod checks;
mod clock;
mod deadline;
mod event;
mod inbound;
mod laws;
mod logged_on;
mod machine;
#[cfg(test)]
mod rows_of_clock;
#[cfg(test)]
mod rows_of_logon;
#[cfg(test)]
mod rows_of_numbers;
#[cfg(test)]
mod rows_of_types;
mod state;
#[cfg(test)]
mod tests;
#[cfg(test)]
mod worked;
#[cfg(test)]
mod worked_run;
#[cfg(test)]
mod worked_text;

pub use event::{Decision, Event, Refusal, Step, Verdict, Why};
pub use machine::Machine;
pub use state::{MachineState, Options, Phase, Requested, Role};
