//! The journal: records that are on the disk before they are acknowledged.
#![tactic(auto)]

mod appending;
mod cursor;
#[cfg(test)]
mod cursor_tests;
mod fault;
mod heads;
mod index;
mod journal;
mod laws;
mod making;
mod opening;
mod peeking;
mod scanning;
mod surveying;
mod synced;
#[cfg(test)]
mod tests;
mod window;

pub use cursor::{Cursor, Peek};
pub use fault::{AppendFault, OpenFault, ReadFault};
pub use journal::{Journal, OpenRefused};
pub use laws::a_file_has_one_meaning;
