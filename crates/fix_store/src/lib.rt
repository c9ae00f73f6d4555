//! What one side of a session keeps: the entries that it sent, the inbound number that it expects
//! and its last reset, as the fold of a journal's records.
#![tactic(auto)]

mod changing;
mod counts;
mod entries;
mod fault;
mod fetching;
mod finding;
mod folding;
mod keeping;
mod laws;
mod marking;
mod numbers;
mod reading;
#[cfg(test)]
mod record_tests;
mod spelling;
mod store;
#[cfg(test)]
mod tests;
mod walking;
mod withheld;

pub use fault::StoreFault;
pub use laws::a_stored_file_has_one_end;
pub use store::Store;
