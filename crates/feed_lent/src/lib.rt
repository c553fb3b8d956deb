// The state of a reading that is fed run by run, as words that a host lends: a run that ends within a field changes few of them.
#![tactic(auto)]

pub mod feeding;
pub mod fields;
pub mod lent;
mod once;
pub mod tags;

pub use feeding::{feed_words, missing_words};
pub use lent::{Said, packed, unpacked};
