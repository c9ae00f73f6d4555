//! Fields at the front of bytes: the step from a frame's body to its tags and values, and what the
//! values of each kind say. Values are lent, and nothing is copied but into a body or a draft, the
//! message that an application asks an engine to send.
#![tactic(auto)]

mod bodies;
mod dates;
mod draft;
mod draft_fields;
mod draft_laws;
#[cfg(test)]
mod draft_tests;
mod field;
mod header;
mod header_values;
mod judging;
mod kind;
#[cfg(test)]
mod kind_tests;
mod layout;
mod lines;
mod list;
mod number;
mod price;
mod reading;
mod scanning;
mod tag;
#[cfg(test)]
mod tests;
mod time_laws;
mod times;
mod value;
mod writing;

pub use bodies::is_entry_body;
pub use dates::month_year;
pub use draft::Draft;
pub use draft_fields::DraftFields;
pub use draft_laws::a_draft_may_be_kept;
pub use field::{FieldRef, due_after, field_at, is_body, is_body_field};
pub use header::Envelope;
pub use judging::DraftFault;
pub use kind::{ValueKind, is_kind};
pub use layout::{Layout, Member};
pub use lines::body_fields;
pub use list::{FieldFault, FieldList, fields};
pub use number::{boolean, int};
pub use price::price_text;
pub use reading::{body_of, envelope, first_value};
pub use scanning::{after_text, soh_at};
pub use tag::{is_data_tag, is_engine_tag, is_header_tag, is_trailer_tag, paired, tag_at};
pub use time_laws::{a_timestamp_says_one_time, a_written_time_is_a_value, a_written_time_is_read};
pub use times::{TimeText, time_text, utc_time};
pub use value::{data_length, value_at};
pub use writing::push_field;
