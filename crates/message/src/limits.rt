// The most that a field of a message may have.

// A Message ID.
pub const ID_LIMIT: u32 = 4095;

// Bytes of a Repository.
pub const REPOSITORY_LIMIT: u32 = 64;

// Files in a message.
pub const FILES_LIMIT: u32 = 512;

// Bytes of Data.
pub const DATA_LIMIT: u32 = 131072;

// Options in a message.
pub const OPTIONS_LIMIT: u32 = 64;
