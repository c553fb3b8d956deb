// The queue of outstanding requests as words and bytes that a host lends: 35 words and 512 bytes for each of the peers 1 to 4.
//
// Any may be given. The calls are those on the queue that they are, carried out where it lies.
#![tactic(auto)]

pub mod calls;
mod shares;
pub mod totals;
mod words;

pub use calls::{LentIssued, answer, drop_link, issue, open};
pub use totals::all_totals;
