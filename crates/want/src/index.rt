// An index of the blocks that a table lists: slots with the places of blocks, and 0 where a slot is free.
ghost use Rattle.std.specs.Prelude.{◌≡◌, true, ◌+◌, ◌≤◌, ◌<◌, length};
ghost use Rattle.table.specs.Table.{is_good, records};
ghost use Rattle.want.specs.Listing.{is_same, is_held};
ghost use Rattle.want.specs.Steps.Blocks.{block_here};
ghost use Rattle.want.specs.Steps.Index.{mixed as mixed_of, key_of, next_slot, slot_of, is_placed, placed, Empty, Within, Indexed, Serves};

use crate::block::{hash_at, listed, place, same_block, size_at};
use crate::search::is_held;

// How a search for a block ends: at a free slot, at a slot with a block that is the same, or after as many slots as are looked at. `insert` tells all three apart.
#[derive(Clone, Copy)]
pub enum Slot {
    Free(usize),
    Present,
    Full,
}

// What is in a slot as a place.
fn wide(x: u16) -> usize
    ensures { result ≡ x }
{
    x as usize
}

// A place as what is put into a slot.
fn narrow(x: usize) -> u16
    requires { x < 65536 }
    ensures { result ≡ x }
{
    x as u16
}

// 13 bits of four bytes, mixed by a product, so that hashes that differ little don't crowd.
fn mixed(a: u8, b: u8, c: u8, d: u8) -> usize
    ensures { result ≡ mixed_of a b c d }
{
    let w = (a as u64) + (b as u64) * 256 + (c as u64) * 65536 + (d as u64) * 16777216;
    (w * 2654435769 / 524288 % 8192) as usize
}

// The slot where the search for a hash begins.
fn key(hash: &[u8]) -> usize
    requires { length hash.now ≡ 32 }
    ensures { result ≡ key_of hash.now }
{
    mixed(hash[28], hash[29], hash[30], hash[31])
}

// The slot after a slot.
fn next_slot(i: usize) -> usize
    requires { i < 8192 }
    ensures { result ≡ next_slot i }
{
    (i + 1) % 8192
}

// Whether the blocks at two places have the same Length and hash.
fn same_at(s: &[u8], p: usize, t: &[u8], q: usize) -> bool
    requires { (p + 40 ≤ length s.now) × (q + 40 ≤ length t.now) }
    ensures { result ≡ is_same (block_here s.now p) (block_here t.now q) }
{
    same_block(s, p, size_at(t, q), hash_at(t, q))
}

// Searches an index of the local table for the block at a place of another.
fn probe(local: &[u8], index: &[u16], t: &[u8], p: usize) -> Slot
    requires index_len { (length index.now ≡ 8192) × (p + 40 ≤ length t.now) }
    requires within { Within local.now index.now }
    ensures { result ≡ slot_of local.now index.now (block_here t.now p) }
{
    let mut i = key(hash_at(t, p));
    for _ in 0..64usize {
        let e = wide(index[i]);
        if e == 0 {
            return Slot::Free(i);
        }
        if same_at(local, e, t, p) {
            return Slot::Present;
        }
        i = next_slot(i);
    }
    Slot::Full
}

// Puts the block at a place into an index of its table, unless it is there; no where there is no slot for it.
fn insert(t: &[u8], p: usize, index: &mut [u16]) -> bool
    requires index_len { (length index.old ≡ 8192) × (p + 40 ≤ length t.now) × (length t.now ≤ 65536) }
    requires within { Within t.now index.old }
    ensures value { result ≡ is_placed (slot_of t.now index.old (block_here t.now p)) }
    ensures index_after { index.new ≡ placed index.old p (slot_of t.now index.old (block_here t.now p)) }
{
    match probe(t, index, t, p) {
        Slot::Free(i) => {
            index[i] = narrow(p);
            true
        }
        Slot::Present => true,
        Slot::Full => false,
    }
}

// Puts the blocks of a good table into free slots; no where the hashes crowd so that a block finds none.
fn build(t: &[u8], index: &mut [u16]) -> bool
    requires t_value { is_good t.now ≡ true }
    requires empty { Empty index.old }
    ensures { result ≡ true → Indexed t.now index.new }
{
    let mut at = 4;
    while let Some(f) = record::outline_at(t, at) {
        let count = listed(f);
        let first = f.first;
        for j in 0..count {
            if !insert(t, place(first, j), index) {
                return false;
            }
        }
        at = f.past;
    }
    true
}

// An index of a good table, in slots that are free; no slots where the hashes crowd.
pub(crate) fn index_of<'a>(t: &[u8], slots: &'a mut [u16]) -> &'a [u16]
    requires t_value { is_good t.now ≡ true }
    requires empty { Empty slots.old }
    ensures { Serves t.now result.now }
{
    if build(t, slots) {
        return slots;
    }
    &slots[0..0]
}

// Whether a table lists the block at a place of other bytes, by its index.
fn is_indexed(local: &[u8], index: &[u16], t: &[u8], p: usize) -> bool
    requires indexed { Indexed local.now index.now }
    requires p_in_bounds { p + 40 ≤ length t.now }
    ensures { result ≡ is_held (records local.now) (block_here t.now p) }
{
    matches!(probe(local, index, t, p), Slot::Present)
}

// Whether a good table lists the block at a place of other bytes: by its index where there is one, and else by a search through its records.
pub(crate) fn holds(local: &[u8], index: &[u16], t: &[u8], p: usize) -> bool
    requires local_value { is_good local.now ≡ true }
    requires serves { Serves local.now index.now }
    requires p_in_bounds { p + 40 ≤ length t.now }
    ensures { result ≡ is_held (records local.now) (block_here t.now p) }
{
    if index.len() == 0 {
        return is_held(local, size_at(t, p), hash_at(t, p));
    }
    is_indexed(local, index, t, p)
}
