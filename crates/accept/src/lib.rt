// Accepting an Index or an IndexUpdate: the sender's new table into a lent buffer.
#![tactic(auto)]

pub mod accepting;
mod next;
mod slot;

pub use accepting::accept;
