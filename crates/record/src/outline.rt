// The fixed fields of a record at a place, and its blocks by number, by bounds checks alone: for records that were read before.
ghost use Rattle.std.specs.Prelude.{◌≡◌};
ghost use Rattle.record.specs.Outline.{outline_from, outline_of, block_of, offset_of};

use crate::limits::BLOCK_BYTES;
use crate::string_outline::string_at;

// The fields of a record, by their places in the whole: its name is at name..stop, its bytes from Flags to the end at rest..past, and
// its blocks begin at first.
#[derive(Clone, Copy)]
pub struct RecordFields {
    pub name: usize,
    pub stop: usize,
    pub rest: usize,
    pub flags: u32,
    pub modified: u64,
    pub version: u32,
    pub blocks: u32,
    pub first: usize,
    pub past: usize,
}

// The Length of a block and the place of its hash's 32 bytes.
#[derive(Clone, Copy)]
pub struct BlockFields {
    pub size: u32,
    pub hash: usize,
}

// The fields of a record whose name and Flags have these places, where it ends within the bytes.
fn outline_from(s: &[u8], name: usize, stop: usize, rest: usize) -> Option<RecordFields>
    ensures { result ≡ outline_from s.now name stop rest }
{
    let (flags, modified_at) = xdr::read_word(s, rest).ok()?;
    let (modified, version_at) = xdr::read_hyper(s, modified_at).ok()?;
    let (version, count_at) = xdr::read_word(s, version_at).ok()?;
    let (blocks, first) = xdr::read_word(s, count_at).ok()?;
    let size = (blocks as usize) * BLOCK_BYTES;
    if s.len() - first < size {
        return None;
    }
    Some(RecordFields {
        name,
        stop,
        rest,
        flags,
        modified,
        version,
        blocks,
        first,
        past: first + size,
    })
}

// The record at a place, where it ends within the bytes.
pub fn outline_at(s: &[u8], at: usize) -> Option<RecordFields>
    ensures { result ≡ outline_of s.now at }
{
    let string = string_at(s, at)?;
    let name = at + 4;
    outline_from(s, name, name + string.length, string.past)
}

// Block i, the first being at a place, where it is within the bytes.
pub fn block_at(s: &[u8], first: usize, i: u32) -> Option<BlockFields>
    ensures { result ≡ block_of s.now first i }
{
    if s.len() < first {
        return None;
    }
    let before = (i as usize) * BLOCK_BYTES;
    if s.len() - first < before + BLOCK_BYTES {
        return None;
    }
    let (size, next) = xdr::read_word(s, first + before).ok()?;
    let hash = next + 4;
    Some(BlockFields { size, hash })
}

// The offset of block i, the sum of the Lengths before it: a block that is not there counts 0.
pub fn offset_of(s: &[u8], first: usize, i: u32) -> u64
    ensures { result ≡ offset_of s.now first i }
{
    let mut sum: u64 = 0;
    for j in 0..i {
        let Some(block) = block_at(s, first, j) else {
            return sum;
        };
        sum += block.size as u64;
    }
    sum
}
