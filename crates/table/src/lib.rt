// Tables of records: which of two records is the newer, good tables, and whose record comes next in a walk over two.
#![tactic(auto)]

pub mod good;
pub mod newest;
pub mod side;

pub use good::{BYTES_LIMIT, RECORDS_LIMIT, is_good, within_limits};
pub use newest::compare_records;
pub use side::{Side, side_at};
