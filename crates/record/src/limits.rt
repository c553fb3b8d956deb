// The sizes of fields, and the most that they may have.

// Bytes of a Name.
pub const NAME_LIMIT: u32 = 255;

// Flags are below this: their top 18 bits are zero.
pub const FLAGS_BOUND: u32 = 16384;

// Blocks of a file.
pub const BLOCKS_LIMIT: u32 = 1024;

// The Length of a block or of a Request.
pub const SIZE_LIMIT: u32 = 131072;

// Bytes of a Key.
pub const KEY_LIMIT: u32 = 64;

// Bytes of a Value.
pub const VALUE_LIMIT: u32 = 255;

// Bytes that a block takes.
pub const BLOCK_BYTES: usize = 40;
