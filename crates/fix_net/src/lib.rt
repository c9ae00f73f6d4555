//! Connections over TCP: accepting and dialling them. This is the step from a socket of the system to the link of a
//! session.
#![tactic(auto)]

mod dialing;
mod tcp_ear;
mod tcp_link;
#[cfg(test)]
mod tests;

pub use dialing::dial;
pub use tcp_ear::TcpEar;
pub use tcp_link::TcpLink;
