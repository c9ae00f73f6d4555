//! Validation: the step from a frame and a dictionary to the first fault that breaks the rules of
//! engagement, as SessionRejectReason (373) and RefTagID (371), or none. No session: usable alone.
#![tactic(auto)]

mod again;
mod checking;
mod fields;
mod laws;
mod reading;
mod required;
mod seats;
#[cfg(test)]
mod tests;

pub use checking::check;
pub use laws::{a_check_has_one_answer, the_first_of_all_faults_is_told};
