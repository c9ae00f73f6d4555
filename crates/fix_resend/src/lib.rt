//! What answers a ResendRequest, and which frames wait for a gap to close. This is the step from the entries of an
//! end to the repeats and gap fills that go out again, and the place for the frames that came too early.
#![tactic(auto)]

mod laws;
mod list;
mod out;
mod stash;
#[cfg(test)]
mod tests;
mod walk;

pub use laws::{
    a_resend_list_in_plain_words, a_resend_list_is_lawful, a_resend_list_is_of_truth_values,
    a_walk_gives_the_resend_list,
};
pub use list::plan;
pub use out::Out;
pub use stash::{Stash, StashFault};
pub use walk::Walk;
