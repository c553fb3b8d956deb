// The outstanding requests of one link: which were issued and not answered yet, within its own window. A limit on the bytes belongs to
// whoever holds the links: an issue is told the bytes held under it.
//
// Each call takes the link by value, whatever it holds, and hands it back beside what came of the call. The hashes that were asked for stand
// beside it.
#![tactic(auto)]

pub mod hashes;
pub mod list;
pub mod outcome;
pub mod request;

pub use hashes::{keep, settle};
pub use list::{Link, window_fits};
pub use outcome::{Arrival, LinkAnswered, LinkIssued, Release};
pub use request::Request;
