// Reading a message from runs of bytes as they come: a small state by value, fed one run after another.
#![tactic(auto)]

pub mod feeding;
mod front;
pub mod goals;
mod moves;
pub mod scan;
pub mod sound;
pub mod state;
mod steps;
mod words;

pub use state::{Fed, Feed, Header};
