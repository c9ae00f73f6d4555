//! What the arguments of the programs ask for: `fixacceptor`, `fixinitiator` and `fixscript` each have a table of
//! lines, and `clap` reads the words. No file is opened here, and no setting is read.
#![tactic(auto)]

mod acceptor;
mod initiator;
mod matches;
mod script;
#[cfg(test)]
mod tests;

pub use acceptor::{AcceptorArgs, acceptor_args};
pub use initiator::{InitiatorArgs, initiator_args};
pub use script::{ScriptArgs, script_args};
