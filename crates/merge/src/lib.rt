// Merging two tables into a lent buffer.
#![tactic(auto)]

pub mod merging;
pub mod next;
pub mod notes;

pub use merging::merge;
