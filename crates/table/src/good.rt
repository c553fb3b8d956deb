// Good tables.
ghost use Rattle.std.specs.Prelude.{◌≡◌};
ghost use Rattle.table.specs.Table.{is_good, is_within};

pub const RECORDS_LIMIT: u32 = 512;

pub const BYTES_LIMIT: usize = 65536;

// Whether so many records in so many bytes are within the limits of a table.
pub fn within_limits(count: u32, size: usize) -> bool
    ensures { result ≡ is_within count size }
{
    count <= RECORDS_LIMIT && size <= BYTES_LIMIT
}

// Whether bytes are a good table: each record is read once, and its name compared with the one before it.
pub fn is_good(table: &[u8]) -> bool
    ensures { result ≡ is_good table.now }
{
    table.len() <= BYTES_LIMIT && record::is_rising_array(table, RECORDS_LIMIT)
}
