// The first byte of the field that is not wholly there, of a record or an option that its bytes cut short: by its lengths alone.
ghost use Rattle.std.specs.Prelude.{◌≡◌, ◌+◌, ◌<◌};
ghost use Rattle.record.specs.Missing.{missing_block, missing_after, missing_of, missing_option};

use crate::limits::BLOCK_BYTES;
use crate::string_outline::string_at;

// Of blocks from a place on, of which so many bytes are there.
fn missing_block(first: usize, left: usize) -> usize
    requires { first + left < 18446744073709551616 }
    ensures { result ≡ missing_block first left }
{
    let start = first + left / BLOCK_BYTES * BLOCK_BYTES;
    if left % BLOCK_BYTES < 4 {
        return start;
    }
    start + 4
}

// Of a record from Flags on, of which so many bytes are there.
fn missing_after(rest: usize, left: usize) -> usize
    requires { rest + left < 18446744073709551616 }
    ensures { result ≡ missing_after rest left }
{
    if left < 4 {
        return rest;
    }
    if left < 12 {
        return rest + 4;
    }
    if left < 16 {
        return rest + 12;
    }
    if left < 20 {
        return rest + 16;
    }
    missing_block(rest + 20, left - 20)
}

// Of the record at a place.
pub fn missing_at(s: &[u8], at: usize) -> usize
    ensures { result ≡ missing_of s.now at }
{
    let Some(name) = string_at(s, at) else {
        return at;
    };
    missing_after(name.past, s.len() - name.past)
}

// Of the option at a place: its Key, or else its Value.
pub fn option_missing_at(s: &[u8], at: usize) -> usize
    ensures { result ≡ missing_option s.now at }
{
    match string_at(s, at) {
        Some(key) => key.past,
        None => at,
    }
}
