// Runs of blocks in a table, and marks in them that go along: offsets rise, so no block is passed twice.
ghost use Rattle.std.specs.Prelude.{◌≡◌, ◌&&◌, eqb, ◌+◌, ◌≤◌, length};
ghost use Rattle.want.specs.Listing.{is_same, block_with};
ghost use Rattle.want.specs.Steps.Blocks.{block_here};
ghost use Rattle.want.specs.Steps.Runs.{is_ahead, MarkIn, Marked};

use crate::block::{place, same_block, size_at};

// So many blocks, the first being at a place.
#[derive(Clone, Copy)]
pub struct Run {
    pub first: usize,
    pub count: u32,
}

// One of a run's blocks by its number, and its offset; or the end of the run.
#[derive(Clone, Copy)]
pub struct Mark {
    pub j: u32,
    pub from: u64,
}

// Whether the block at a place, which is at one offset, has a Length and a hash at another.
fn is_there(s: &[u8], p: usize, from: u64, offset: u64, size: u32, hash: &[u8]) -> bool
    requires { p + 40 ≤ length s.now }
    ensures { result ≡ (eqb from offset && is_same (block_here s.now p) (block_with size hash.now)) }
{
    if from != offset {
        return false;
    }
    same_block(s, p, size, hash)
}

// Whether a run has a block of a Length and a hash at an offset, from a mark on.
pub(crate) fn has_there(s: &[u8], run: Run, mark: Mark, offset: u64, size: u32, hash: &[u8]) -> bool
    requires { MarkIn s.now run mark }
    ensures { result ≡ is_ahead s.now run mark offset (block_with size hash.now) }
{
    let first = run.first;
    let mut from = mark.from;
    for j in mark.j..run.count {
        if offset < from {
            return false;
        }
        let p = place(first, j);
        if is_there(s, p, from, offset, size, hash) {
            return true;
        }
        from += size_at(s, p) as u64;
    }
    false
}

// The mark after the blocks before an offset.
pub(crate) fn forward(s: &[u8], run: Run, mark: Mark, offset: u64) -> Mark
    requires { Marked s.now run mark offset }
    ensures { Marked s.now run result offset }
{
    let first = run.first;
    let mut from = mark.from;
    for j in mark.j..run.count {
        if offset <= from {
            return Mark { j, from };
        }
        from += size_at(s, place(first, j)) as u64;
    }
    Mark { j: run.count, from }
}
