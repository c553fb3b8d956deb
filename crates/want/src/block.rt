// Blocks at places of a table.
ghost use Rattle.std.specs.Prelude.{◌≡◌, ◌&&◌, eqb, ◌+◌, ◌≤◌, ◌<◌, length, get_or, take, drop};
ghost use Rattle.record.specs.Outline.{word_at, block_place};
ghost use Rattle.want.specs.Listing.{is_current, is_same, block_with};
ghost use Rattle.want.specs.Steps.Blocks.{block_here, listed_count};

use crate::fields::word_at;
use record::RecordFields;

// Valid and undeleted.
fn is_current(flags: u32) -> bool
    ensures { result ≡ is_current flags }
{
    !record::is_invalid(flags) && !record::is_deleted(flags)
}

// How many blocks a record lists: none where it is invalid or deleted.
pub fn listed(f: RecordFields) -> u32
    ensures { result ≡ listed_count f }
{
    if is_current(f.flags) {
        return f.blocks;
    }
    0
}

// Where block j is, the first being at a place.
pub(crate) fn place(first: usize, j: u32) -> usize
    requires { block_place first j < 18446744073709551616 }
    ensures { result ≡ block_place first j }
{
    first + (j as usize) * 40
}

// The Length of the block at a place.
pub(crate) fn size_at(s: &[u8], p: usize) -> u32
    requires { p + 40 ≤ length s.now }
    ensures { result ≡ word_at s.now p }
{
    word_at(s, p)
}

// Its hash.
pub(crate) fn hash_at(s: &[u8], p: usize) -> &[u8]
    requires { p + 40 ≤ length s.now }
    ensures { result.now ≡ take 32 (drop (p + 8) s.now) }
{
    let at = p + 8;
    &s[at..at + 32]
}

// Whether the block at a place has a Length and a hash.
pub(crate) fn same_block(s: &[u8], p: usize, size: u32, hash: &[u8]) -> bool
    requires { p + 40 ≤ length s.now }
    ensures { result ≡ is_same (block_here s.now p) (block_with size hash.now) }
{
    order::same_hash(hash_at(s, p), hash) && size_at(s, p) == size
}

// Whether both are 32 bytes long and end alike.
fn ends_alike(a: &[u8], b: &[u8]) -> bool
    requires { length a.now ≡ 32 }
    ensures { result ≡ (eqb (length b.now) 32 && eqb (get_or a.now 31 0) (get_or b.now 31 0)) }
{
    b.len() == 32 && a[31] == b[31]
}

// The same as same_block, for the search: most hashes differ in the last byte, and that test is small enough to stand in its loop.
pub(crate) fn is_block(s: &[u8], p: usize, size: u32, hash: &[u8]) -> bool
    requires { p + 40 ≤ length s.now }
    ensures { result ≡ is_same (block_here s.now p) (block_with size hash.now) }
{
    ends_alike(hash_at(s, p), hash) && same_block(s, p, size, hash)
}
