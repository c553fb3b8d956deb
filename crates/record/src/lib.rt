// The records of a message: blocks, files and options, and arrays of them.
#![tactic(auto)]

pub mod array;
pub mod block;
pub mod file;
pub mod files;
pub mod limits;
pub mod missing;
pub mod name;
pub mod option;
pub mod option_outline;
pub mod outline;
mod string_outline;

pub use block::{is_size, may_have, read_block, read_blocks, read_hash, read_size, sound_front};
pub use file::{FileSpan, is_deleted, is_invalid, mode, read_file, read_flags, read_name};
pub use files::{is_rising_array, read_files};
pub use limits::{NAME_LIMIT, SIZE_LIMIT};
pub use missing::{missing_at, option_missing_at};
pub use name::name_fault;
pub use option::{OptionSpan, read_option, read_options};
pub use option_outline::{OptionFields, option_at};
pub use outline::{BlockFields, RecordFields, block_at, offset_of, outline_at};
