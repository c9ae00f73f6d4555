//! The session messages of FIX: the step from a frame to what it asks of a session, and from what a
//! session says to the fields of a frame.
#![tactic(auto)]

mod admin;
mod building;
mod laws;
mod reading;
mod say;
mod tags;
#[cfg(test)]
mod tests;
mod texts;

pub use admin::{Admin, read_admin};
pub use building::{build, business};
pub use laws::what_may_follow_makes_a_message;
pub use say::{LogoutText, Say};
