// Turning a message of one edition into the other, into a lent buffer.
#![tactic(auto)]

pub mod extent;
pub mod turning;

pub use turning::{downgrade, upgrade};
