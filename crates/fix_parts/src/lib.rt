//! The parts that an engine calls: the connection (`Link`), the application (`App`), the clock
//! (`Clock`), and the tape of its acts (`Tape`). Each is a trait with an exact meaning, with a
//! version in memory and an adapter to the real thing.
#![tactic(auto)]

mod app;
mod clock;
mod copies;
mod line_app;
mod link;
mod memory_app;
mod memory_clock;
mod memory_link;
mod named_app;
mod noted;
mod stdio_link;
mod streams;
mod system_clock;
mod tape;
#[cfg(test)]
mod tests;

pub use app::{App, Given};
pub use clock::Clock;
pub use copies::{copy_entries, copy_entry, copy_record};
pub use fix_outside::{Handed, ReadTurn, Said, WriteTurn};
pub use line_app::LineApp;
pub use link::Link;
pub use memory_app::MemoryApp;
pub use memory_clock::MemoryClock;
pub use memory_link::MemoryLink;
pub use named_app::NamedApp;
pub use noted::Noted;
pub use stdio_link::StdioLink;
pub use system_clock::SystemClock;
pub use tape::{KeptTape, NoTape, Tape};
