//! Between sockets and sessions: one connection per session at a time, and threads that are started where there may
//! be none. This is the step from a connection that was accepted to the thread of its session.
#![tactic(auto)]

mod drafting;
mod echoing;
#[cfg(test)]
mod echoing_tests;
mod gate;
mod greeting;
#[cfg(test)]
mod greeting_tests;
mod held;
mod known;
mod looking;
mod posting;
#[cfg(test)]
mod posting_tests;
mod sending;
mod slot;
mod spawner;
mod taking;
#[cfg(test)]
mod taking_tests;
#[cfg(test)]
mod tests;
mod world;

pub use echoing::EchoApp;
pub use gate::{Gate, OpenGate};
pub use greeting::greet;
pub use held::Held;
pub use known::Greeted;
pub use posting::post_all;
pub use sending::{OfSender, SenderEnd, send_file};
pub use slot::{LinkSlot, SlotState};
pub use spawner::{Anything, FailingSpawner, Spawner, ThreadSpawner};
pub use taking::TakeApp;
pub use world::{Ear, MakeFault, World};
