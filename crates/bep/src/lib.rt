// The public face for programs in other languages: numbers and slices only.
//
// Each function takes any bytes, returns 0 where it accepts and else the number of the refusal, and fills the whole answer. What is lent for
// an answer or a message overlaps nothing else that the call is given.
#![tactic(auto)]

pub mod feeding;
mod filling;
pub mod hashing;
pub mod outline;
pub mod outstanding;
pub mod read;
pub mod reasons;
pub mod requests;
pub mod ruling;
pub mod tables;
pub mod turning;
pub mod write;
