// BlockInfo: a Length and a Hash.
ghost use Rattle.std.specs.Prelude.{◌≡◌, ◌≤◌, true, length, if◌then◌else◌, ◌==◌};
ghost use Rattle.xdr.specs.Answers.{word_answer, bytes_answer};
ghost use Rattle.xdr.specs.Format.{read_at};
ghost use Rattle.record.specs.Answers.{block_answer, array_answer};
ghost use Rattle.record.specs.Block.{is_size, size, hash, block, block_count, blocks};
ghost use Rattle.record.specs.Steps.{IsHead, SoundBlocks};

use crate::array::read_count;
use crate::limits::{BLOCK_BYTES, BLOCKS_LIMIT, SIZE_LIMIT};
use xdr::Refusal;

// The least head of a block: a Length of 1 and a hash's length of 32, side by side as one number of 64 bits.
const LEAST_HEAD: u64 = 4294967328;

// Whether the Length of a block or of a Request is in its range.
pub fn is_size(n: u32) -> bool
    ensures { result ≡ is_size n }
{
    if n == 0 {
        return false;
    }
    n <= SIZE_LIMIT
}

// The Length of a block or of a Request at a place.
pub fn read_size(s: &[u8], at: usize) -> Result<(u32, usize), Refusal>
    ensures { result ≡ word_answer (read_at size s.now at) }
{
    let answer = xdr::read_word(s, at);
    let Ok((n, next)) = answer else {
        return Err(xdr::refusal_of(answer));
    };
    if !is_size(n) {
        return Err(Refusal {
            number: 10,
            place: at,
        });
    }
    Ok((n, next))
}

// The hash at a place: its 32 bytes begin 4 bytes after it, and it has no pad.
pub fn read_hash(s: &[u8], at: usize) -> Result<(usize, usize), Refusal>
    ensures { result ≡ bytes_answer (read_at hash s.now at) }
{
    let answer = xdr::read_word(s, at);
    let Ok((len, start)) = answer else {
        return Err(xdr::refusal_of(answer));
    };
    if len != 32 {
        return Err(Refusal {
            number: 9,
            place: at,
        });
    }
    if s.len() - start < 32 {
        return Err(Refusal {
            number: 1,
            place: at,
        });
    }
    Ok((32, start + 32))
}

// The block at the front of a part.
pub fn read_block(s: &[u8]) -> Result<(u32, usize), Refusal>
    ensures { result ≡ block_answer (read_at block s.now 0) }
{
    let length = read_size(s, 0);
    let Ok((n, hash_at)) = length else {
        return Err(xdr::refusal_of(length));
    };
    let bytes = read_hash(s, hash_at);
    let Ok((_, next)) = bytes else {
        return Err(xdr::refusal_of(bytes));
    };
    Ok((n, next))
}

// Whether a file may have so many blocks: a deleted one has none.
pub fn may_have(deleted: bool, count: u32) -> bool
    ensures { result ≡ (if deleted then (count == 0) else true) }
{
    if deleted {
        return count == 0;
    }
    true
}

// The block count at the front of a part.
fn read_block_count(s: &[u8], deleted: bool) -> Result<(u32, usize), Refusal>
    ensures { result ≡ word_answer (read_at (block_count deleted) s.now 0) }
{
    let answer = read_count(s, 0, BLOCKS_LIMIT);
    let Ok((count, first)) = answer else {
        return Err(xdr::refusal_of(answer));
    };
    if !may_have(deleted, count) {
        return Err(Refusal {
            number: 12,
            place: 0,
        });
    }
    Ok((count, first))
}

// Whether a number of 64 bits is the Length of a block and the length of its hash side by side: one test for both.
fn is_head(head: u64) -> bool
    ensures { result ≡ true → IsHead head }
{
    let left = std::num::wrapping_sub_u64(head, LEAST_HEAD);
    if left % 4294967296 != 0 {
        return false;
    }
    left / 4294967296 < SIZE_LIMIT as u64
}

// How many of the blocks from a place on are in order, where all of them are there: then none is tested for missing bytes.
fn sound_blocks(s: &[u8], first: usize, count: u32) -> u32
    requires { first ≤ length s.now }
    ensures { (result ≤ count) × SoundBlocks s.now first result }
{
    if (s.len() - first) / BLOCK_BYTES < count as usize {
        return 0;
    }
    let mut at = first;
    for i in 0..count {
        let end = at + BLOCK_BYTES;
        let Ok((head, _)) = xdr::read_hyper(&s[at..end], 0) else {
            return i;
        };
        if !is_head(head) {
            return i;
        }
        at = end;
    }
    count
}

// How many of the blocks at the front of a part are in order, where so many are there.
pub fn sound_front(s: &[u8], count: u32) -> u32
    ensures { (result ≤ count) × SoundBlocks s.now 0 result }
{
    sound_blocks(s, 0, count)
}

// The blocks at the front of a part, of a file, deleted or not.
pub fn read_blocks(s: &[u8], deleted: bool) -> Result<(u32, usize), Refusal>
    ensures { result ≡ array_answer (read_at (blocks deleted) s.now 0) }
{
    let answer = read_block_count(s, deleted);
    let Ok((count, first)) = answer else {
        return Err(xdr::refusal_of(answer));
    };
    let sound = sound_blocks(s, first, count);
    let mut next = first + (sound as usize) * BLOCK_BYTES;
    for i in sound..count {
        let read = read_block(&s[next..]);
        let Ok((_, used)) = read else {
            let refusal = xdr::refusal_of(read);
            return Err(Refusal {
                number: refusal.number,
                place: next + refusal.place,
            });
        };
        next += used;
    }
    Ok((count, next))
}
