//! All that a session calls, as one trait: the connection, the message store, the application, the
//! clock and the tape of acts. It stands on no disk, journal or store.
#![tactic(auto)]

mod connection;
mod handing;
mod outside;

pub use connection::{ReadTurn, WriteTurn};
pub use handing::{Again, Handed, Said};
pub use outside::{FetchFault, KeepFault, Kind, LoadFault, Outside};
