// Which blocks to request, and from whom.
#![tactic(auto)]

pub mod block;
pub mod entry;
pub mod fields;
pub mod head;
pub mod index;
pub mod list;
pub mod pass;
pub mod peers;
pub mod places;
pub mod run;
pub mod search;
pub mod turn;

pub use entry::{Details, details_of};
pub use list::request_list;
pub use search::{Found, find_local};
