// The ruling on an incoming Request.
#![tactic(auto)]

pub mod ruling;

pub use ruling::{Serving, serve};
