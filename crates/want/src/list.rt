// The request list: the blocks of the highest records that are not held, and whom to ask for each.
ghost use Rattle.std.specs.Prelude.{◌≡◌, true, cond, [], ◌∷◌, map, ◌+◌, ◌≤◌, ◌<◌, length, leb, Some, None};
ghost use Rattle.xdr.specs.Buffer.{over, filled};
ghost use Rattle.xdr.specs.Filling.{Fills};
ghost use Rattle.record.specs.Outline.{blocks_size};
ghost use Rattle.table.specs.Table.{is_good, all_good, records};
ghost use Rattle.want.specs.Listing.{is_held};
ghost use Rattle.want.specs.Steps.Blocks.{block_here, blocks_from};
ghost use Rattle.want.specs.Wanted.{wanted_bytes, list_bytes, request_outcome};
ghost use Rattle.want.specs.Steps.Index.{Serves};
ghost use Rattle.want.specs.Steps.Places.{table_at, wanted_count, Begun, Five, list_of};
ghost use Rattle.want.specs.Steps.Runs.{Along, InTables, wanted_here, wanted_run, wanted_turn};

use crate::block::{hash_at, place, size_at};
use crate::head::next_head;
use crate::index::{holds, index_of};
use crate::peers::{ask, runs_at};
use crate::run::{Mark, Run};
use crate::turn::{Turn, turn_of};
use xdr::Refusal;

// A block to ask for: its file's number and its own, its offset and Length, and the peer.
#[derive(Clone, Copy)]
pub struct Wanted {
    pub file: u32,
    pub block: u32,
    pub offset: u64,
    pub size: u32,
    pub peer: u32,
}

// Where a walk of the tables begins: a place in each, and how many names come before.
#[derive(Clone, Copy)]
pub struct Start {
    pub places: [usize; 5],
    pub file: u32,
}

// 1 where the block at a place is not held, and 0 where it is.
fn count_block(local: &[u8], index: &[u16], t: &[u8], p: usize) -> usize
    requires local_value { is_good local.now ≡ true }
    requires serves { Serves local.now index.now }
    requires p_in_bounds { p + 40 ≤ length t.now }
    ensures { result ≡ cond (is_held (records local.now) (block_here t.now p)) 0 1 }
{
    if holds(local, index, t, p) {
        return 0;
    }
    1
}

// How many of so many blocks, the first being at a place, are not held.
fn count_blocks(local: &[u8], index: &[u16], t: &[u8], first: usize, blocks: u32) -> usize
    requires local_value { is_good local.now ≡ true }
    requires serves { Serves local.now index.now }
    requires blocks_in_bounds { first + blocks_size blocks ≤ length t.now }
    ensures { result ≡ wanted_count (records local.now) (blocks_from t.now first 0 blocks) }
{
    let mut n = 0;
    for j in 0..blocks {
        n += count_block(local, index, t, place(first, j));
    }
    n
}

// The first record with blocks that may be missing, by where the tables then are and how many names come before it; none where no record has any.
fn seek(tables: [&[u8]; 5]) -> Option<Start>
    requires { Five (map (λ x. x.now) tables) }
    ensures some { (s : Start) → result ≡ Some s → Begun (map (λ x. x.now) tables.entry) s.file s.places }
    ensures none { result ≡ None → list_of (map (λ x. x.now) tables.entry) ≡ [] }
{
    let mut places = [4; 5];
    let mut file = 0;
    // A turn goes by the head's fields and by its places, so the head is made in the loop.
    loop {
        let head = next_head(tables, places);
        let turn = turn_of(head.best, head.fields)?;
        if turn.count != 0 {
            return Some(Start { places, file });
        }
        places = head.past;
        file += 1;
    }
}

// How many entries the list has: fewer than the five tables have bytes (5 x 65,536), so 24 times as many don't overflow.
fn count(tables: [&[u8]; 5], index: &[u16], start: Start) -> usize
    requires five { Five (map (λ x. x.now) tables) }
    requires serves { Serves (table_at (map (λ x. x.now) tables) 0) index.now }
    requires begun { Begun (map (λ x. x.now) tables) start.file start.places }
    ensures { (result ≡ length (list_of (map (λ x. x.now) tables.entry))) × (result ≤ 327680) }
{
    let mut places = start.places;
    let mut n = 0;
    // A turn goes by the head's fields and by its places, so the head is made in the loop.
    loop {
        let head = next_head(tables, places);
        let best = head.best;
        let Some(turn) = turn_of(best, head.fields) else {
            return n;
        };
        n += count_blocks(tables[0], index, tables[best], turn.first, turn.count);
        places = head.past;
    }
}

// Puts an entry at a place of the buffer.
fn put_wanted(out: &mut [u8], at: usize, w: Wanted)
    requires { at + 24 ≤ length out.old }
    ensures { out.new ≡ over out.old at (wanted_bytes w) }
{
    xdr::put_word(out, at, w.file);
    xdr::put_word(out, at + 4, w.block);
    xdr::put_hyper(out, at + 8, w.offset);
    xdr::put_word(out, at + 16, w.size);
    xdr::put_word(out, at + 20, w.peer);
}

// Puts the entry for the block at a place, which is at an offset, where it is not held, and answers how many bytes it took.
fn fill_block(
    tables: [&[u8]; 5],
    index: &[u16],
    runs: [Run; 5],
    marks: &mut [Mark],
    t: &[u8],
    p: usize,
    file: u32,
    block: u32,
    offset: u64,
    out: &mut [u8],
    at: usize,
) -> usize
    requires tables_value { is_good (table_at (map (λ x. x.now) tables) 0) ≡ true }
    requires serves { Serves (table_at (map (λ x. x.now) tables) 0) index.now }
    requires along { Along (map (λ x. x.now) tables) runs marks.old offset }
    requires p_in_bounds { p + 40 ≤ length t.now }
    requires p_in_bounds_2 { at + length (list_bytes (wanted_here (map (λ x. x.now) tables) runs file block offset (block_here t.now p))) ≤ length out.old }
    ensures value { result ≡ length (list_bytes (wanted_here (map (λ x. x.now) tables.entry) runs file block offset (block_here t.now p))) }
    ensures out_after { out.new ≡ over out.old at
        (list_bytes (wanted_here (map (λ x. x.now) tables.entry) runs file block offset (block_here t.now p))) }
    ensures along_2 { Along (map (λ x. x.now) tables.entry) runs marks.new offset }
{
    if holds(tables[0], index, t, p) {
        return 0;
    }
    let size = size_at(t, p);
    // In the list, 0 is no peer.
    let peer = ask(tables, runs, marks, offset, size, hash_at(t, p)).unwrap_or(0);
    put_wanted(
        out,
        at,
        Wanted {
            file,
            block,
            offset,
            size,
            peer,
        },
    );
    24
}

// Puts the entries for so many blocks of the record that is next, and answers where the next one goes.
fn fill_blocks(
    tables: [&[u8]; 5],
    index: &[u16],
    runs: [Run; 5],
    t: &[u8],
    first: usize,
    count: u32,
    file: u32,
    out: &mut [u8],
    at: usize,
) -> usize
    requires tables_value { is_good (table_at (map (λ x. x.now) tables) 0) ≡ true }
    requires serves { Serves (table_at (map (λ x. x.now) tables) 0) index.now }
    requires in_tables { InTables (map (λ x. x.now) tables) runs }
    requires count_in_bounds { first + blocks_size count ≤ length t.now }
    requires count_in_bounds_2 { at + length (list_bytes (wanted_run (map (λ x. x.now) tables) runs file 0 0 t.now first count)) ≤ length out.old }
    ensures value { result ≡ at + length (list_bytes (wanted_run (map (λ x. x.now) tables.entry) runs file 0 0 t.now first count)) }
    ensures out_after { out.new ≡ over out.old at
        (list_bytes (wanted_run (map (λ x. x.now) tables.entry) runs file 0 0 t.now first count)) }
{
    let mut marks = [Mark { j: 0, from: 0 }; 5];
    let mut next = at;
    let mut offset: u64 = 0;
    for j in 0..count {
        let p = place(first, j);
        next += fill_block(
            tables, index, runs, &mut marks, t, p, file, j, offset, out, next,
        );
        offset += size_at(t, p) as u64;
    }
    next
}

// Puts the entries for the record that is next, and answers where the next one goes.
fn fill_record(
    tables: [&[u8]; 5],
    index: &[u16],
    places: [usize; 5],
    past: [usize; 5],
    best: usize,
    turn: Turn,
    file: u32,
    out: &mut [u8],
    at: usize,
) -> usize
    requires tables_value { is_good (table_at (map (λ x. x.now) tables) 0) ≡ true }
    requires serves { Serves (table_at (map (λ x. x.now) tables) 0) index.now }
    requires best_bound { (best < 5) × (turn.first + blocks_size turn.count ≤ length (table_at (map (λ x. x.now) tables) best)) }
    requires file_in_bounds { at + length (list_bytes (wanted_turn (map (λ x. x.now) tables) places past best turn file)) ≤ length out.old }
    ensures value { result ≡ at + length (list_bytes (wanted_turn (map (λ x. x.now) tables.entry) places past best turn file)) }
    ensures out_after { out.new ≡ over out.old at (list_bytes (wanted_turn (map (λ x. x.now) tables.entry) places past best turn file)) }
{
    if turn.count == 0 {
        return at;
    }
    let runs = runs_at(tables, places, past);
    let t = tables[best];
    fill_blocks(
        tables, index, runs, t, turn.first, turn.count, file, out, at,
    )
}

// The list, from the start of the buffer, and how many bytes it has.
fn fill(tables: [&[u8]; 5], index: &[u16], start: Start, out: &mut [u8]) -> usize
    requires five { Five (map (λ x. x.now) tables) }
    requires serves { Serves (table_at (map (λ x. x.now) tables) 0) index.now }
    requires begun { Begun (map (λ x. x.now) tables) start.file start.places }
    requires tables_in_bounds { length (list_bytes (list_of (map (λ x. x.now) tables))) ≤ length out.old }
    ensures value { result ≡ length (list_bytes (list_of (map (λ x. x.now) tables.entry))) }
    ensures out_after { out.new ≡ filled out.old (list_bytes (list_of (map (λ x. x.now) tables.entry))) }
{
    let mut places = start.places;
    let mut file = start.file;
    let mut at = 0;
    // A turn goes by the head's fields and by its places, so the head is made in the loop.
    loop {
        let head = next_head(tables, places);
        let best = head.best;
        let past = head.past;
        let Some(turn) = turn_of(best, head.fields) else {
            return at;
        };
        at = fill_record(tables, index, places, past, best, turn, file, out, at);
        places = past;
        file += 1;
    }
}

// How many bytes the list has at most: 24 for each 40 of the peers' tables.
fn most(tables: [&[u8]; 5]) -> usize
    requires { Five (map (λ x. x.now) tables) }
    ensures { length (list_bytes (list_of (map (λ x. x.now) tables.entry))) ≤ result }
{
    (tables[1].len() + tables[2].len() + tables[3].len() + tables[4].len()) / 40 * 24
}

// Whether the list fits into so many bytes: where that isn't sure, its entries are counted.
fn fits(tables: [&[u8]; 5], index: &[u16], start: Start, room: usize) -> bool
    requires five { Five (map (λ x. x.now) tables) }
    requires serves { Serves (table_at (map (λ x. x.now) tables) 0) index.now }
    requires begun { Begun (map (λ x. x.now) tables) start.file start.places }
    ensures { result ≡ leb (length (list_bytes (list_of (map (λ x. x.now) tables.entry)))) room }
{
    most(tables) <= room || count(tables, index, start) * 24 <= room
}

// Whether five tables are good.
pub fn all_good(a: &[u8], b: &[u8], c: &[u8], d: &[u8], e: &[u8]) -> bool
    ensures { result ≡ all_good (a.now ∷ b.now ∷ c.now ∷ d.now ∷ e.now ∷ []) }
{
    table::is_good(a)
        && table::is_good(b)
        && table::is_good(c)
        && table::is_good(d)
        && table::is_good(e)
}

// The request list of a local table and four peers' tables, 24 bytes a block, in the first bytes of the buffer.
pub fn request_list<'a>(
    local: &'a [u8],
    peer1: &'a [u8],
    peer2: &'a [u8],
    peer3: &'a [u8],
    peer4: &'a [u8],
    out: &mut [u8],
) -> Result<usize, Refusal>
    ensures { Fills
        (request_outcome local.now (peer1.now ∷ peer2.now ∷ peer3.now ∷ peer4.now ∷ []))
        out.old result out.new }
{
    if !all_good(local, peer1, peer2, peer3, peer4) {
        return xdr::refused(15);
    }
    let tables = [local, peer1, peer2, peer3, peer4];
    let Some(start) = seek(tables) else {
        return Ok(0);
    };
    let mut slots = [0; 8192];
    let index = index_of(local, &mut slots);
    if !fits(tables, index, start, out.len()) {
        return xdr::refused(14);
    }
    Ok(fill(tables, index, start, out))
}
