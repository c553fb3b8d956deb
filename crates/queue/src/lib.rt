// The queue of outstanding requests: the links of four peers, within one byte allowance.
//
// Each call takes the queue by value and hands it back beside what came of the call. Any value may be given: a call for a peer that there is
// not is refused with 23, and one on a queue that is not sound with 22, before anything else, and the queue is handed back as it was.
#![tactic(auto)]

pub mod hashes;
pub mod outcome;
pub mod queue;
pub mod window;

pub use hashes::{forget_for, keep_for, settle_for};
pub use outcome::{Answered, Emptied, Issued};
pub use queue::{RequestQueue, is_peer};
