//! When a session may be connected: the window of a time, by its settings and the rule of its zone.
#![tactic(auto)]

mod fault;
mod hours;
mod instant;
mod schedule;
mod search;
#[cfg(test)]
mod tests;

pub use fault::ScheduleFault;
pub use schedule::Schedule;
