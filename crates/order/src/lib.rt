// The order of numbers and of bytes, and sameness of hashes.
#![tactic(auto)]

pub mod compare;
pub mod hash;
pub mod long;
pub mod names;

pub use compare::{compare_bytes, compare_numbers, compare_parts, part};
pub use hash::same_hash;
pub use long::{compare_long, same_bytes};
pub use names::compare_names;
