// Settings that outlive a software update: tagged fields, read from bytes and saved into a lent buffer.
//
// Reading answers which settings are there and where the carried fields begin, those whose tags this software doesn't know. Saving takes the
// settings and the carried fields again, so that what was read saves to the same bytes. A setting that isn't there stands for its default.
#![tactic(auto)]

pub mod answer;
mod contents;
mod field;
pub mod reading;
pub mod saving;

pub use answer::{Settings, Span};
pub use reading::read;
pub use saving::save;
