//! Framing: the step from the bytes of a connection to frames, and from the fields of a message
//! to the bytes of its frame.
#![tactic(auto)]

mod item;
mod places;
mod reader;
mod sealing;
mod seeking;
mod shape;
mod summing;
#[cfg(test)]
mod tests;
mod whole;

pub use item::{Framed, frame_at};
pub use reader::Reader;
pub use sealing::{SealFault, seal};
pub use summing::checksum;
pub use whole::frames_of;
