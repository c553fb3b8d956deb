// SHA-256 by FIPS 180-4, of bytes in one or in pieces.
//
// A hasher is taken by value, whatever it holds, and handed back.
#![tactic(auto)]

mod block;
mod bytes;
mod compress;
mod constants;
mod functions;
pub mod state;
pub mod stream;

pub use state::State;
pub use stream::{Hasher, digest, hash_value};
