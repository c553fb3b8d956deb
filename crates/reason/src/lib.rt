// Why a block isn't coming: the first reason that is true, by the request list's own rules.
#![tactic(auto)]

pub mod finding;
pub mod highest;
pub mod peers;
pub mod reasons;

pub use reasons::{Reason, why};
