//! All that a session calls, as one value: the connection, the message store, the application, the
//! clock and the tape of acts.
#![tactic(auto)]

mod optional_link;
mod reserving;
mod rim;
mod slot_contents;
mod store_slot;

pub use fix_outside::{Again, FetchFault, KeepFault, Kind, LoadFault, Outside};
pub use rim::Rim;
