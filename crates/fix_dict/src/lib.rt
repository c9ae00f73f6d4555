//! Dictionaries: what a counterparty's rules of engagement say, read from a JSON file. This is the
//! step from a file's bytes to the fields, the layouts of messages and the values that are allowed.
#![tactic(auto)]

mod allowed;
mod build;
mod dictionary;
mod fault;
mod field;
mod fields;
mod kinds;
mod members;
mod message;
mod messages;
mod note;
mod noted;
mod parts;
mod paths;
#[cfg(test)]
mod refusal_tests;
mod rule;
#[cfg(test)]
mod sample_tests;
mod samples;
mod tags;

pub use dictionary::Dictionary;
pub use fault::DictFault;
pub use note::{Standing, TagNote};
pub use noted::{NotedLayout, Role};
pub use samples::{SAMPLE_42, SAMPLE_44};
