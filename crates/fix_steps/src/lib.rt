//! Carries out a decision of `fix_machine`: its steps in order, over the sending of `fix_stage`.
#![tactic(auto)]

mod carrying;
mod ending;
mod handing;
mod laws;
mod resetting;
mod saying;
mod serving;
mod source;
#[cfg(test)]
mod tests;

pub use carrying::carry_out;
pub use ending::{Ending, ending_of};
pub use laws::{
    an_answer_is_lawful, an_answer_leaves_the_numbers_that_its_steps_say,
    an_answer_sends_and_hands_over, what_is_decided_is_lawful, what_is_decided_is_possible,
    what_is_decided_may_be_done, what_is_out_of_memory_would_have_gone_on,
};
pub use resetting::begin_anew;
pub use saying::stage_said;
pub use source::Source;
