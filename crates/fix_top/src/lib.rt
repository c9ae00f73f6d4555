//! Serves a session over an Outside, by the arguments of a program.
#![tactic(auto)]

mod sample;
mod serve;
mod status;
#[cfg(test)]
mod tests;
#[cfg(test)]
mod turn_tests;
mod words;

pub use sample::{InMemory, Sampled, serve_sample};
pub use serve::serve_stdio;
pub use status::status_name;
pub use words::asks_for_session;
