//! Repeating groups: the fields of a message as a tree of instances, and back. This is the step
//! from a list of fields to what stands in each instance of its groups.
#![tactic(auto)]

mod build;
mod distinct;
mod laws;
mod lent;
mod look;
mod misfit;
mod misfits;
mod number;
mod runs;
#[cfg(test)]
mod tests;
mod tree;
mod whole;

pub use build::split;
pub use distinct::has_no_twice;
pub use laws::{a_split_is_given_back, no_misfit_is_whole, plain_counts_are_given_back};
pub use lent::Lent;
pub use look::{at_level, group_at, has_tag, owner, tag_of};
pub use misfit::{GroupFault, Misfit};
pub use misfits::{first_misfit, first_misfit_of};
pub use number::count_number;
pub use runs::{lead, run_length};
pub use tree::{Node, Tree, flatten};
pub use whole::Whole;
