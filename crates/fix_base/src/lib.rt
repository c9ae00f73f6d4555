//! The words of a FIX session that every crate speaks: bytes, numbers, entries, records and acts.
//! `specs/` has the definitions that all promises are made of: fields, frames, the reading of a
//! stream, an end and its lawful steps, and what two ends may do to each other.
#![tactic(auto)]

mod act;
mod bytes;
mod constants;
mod end_laws;
mod entry;
mod fault;
mod identity;
pub mod msg_types;
mod no_match;
mod number;
mod precision;
mod status;
mod stream_laws;
pub mod tags;
#[cfg(test)]
mod tests;
mod world_laws;

pub use act::Act;
pub use bytes::{Bytes, OutOfMemory};
pub use constants::{LAST_EXPECTED, LAST_SEQ_NUM, LAST_TAG, LAST_TIME, SOH};
pub use end_laws::{
    a_front_of_a_run_is_a_run, agreement_in_plain_words, no_message_comes_late,
    no_message_is_passed_over, records_fold_in_order, what_was_handled_is_a_prefix,
};
pub use entry::{By, Entries, Entry, Record, Stored};
pub use fault::Fault;
pub use identity::{Begin, Identity, is_comp_id};
pub use msg_types::is_admin_type;
pub use no_match::NoMatch;
pub use number::{SeqNum, Tag};
pub use precision::Precision;
pub use status::Status;
pub use stream_laws::{
    a_longer_stream_reads_on, a_stream_has_one_reading, a_text_has_one_list_of_fields,
    frames_of_a_front,
};
pub use tags::{DATA_PAIRS, ENGINE_TAGS, HEADER_TAGS, SESSION_TAGS, TRAILER_TAGS};
pub use world_laws::{
    a_message_arrives, a_message_comes_again, a_message_is_withheld, a_reader_keeps_up,
    a_reader_keeps_up_after_a_reset, a_reset_is_shared, no_withheld_message_comes_late,
    resets_are_shared, what_a_writer_keeps_true, world_agrees,
};
