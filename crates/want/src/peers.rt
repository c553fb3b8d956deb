// Which peer lists a block of a record, with a mark in the record of each peer that goes along.
ghost use Rattle.std.specs.Prelude.{◌≡◌, map};
ghost use Rattle.std.specs.Option.{unwrap_or};
ghost use Rattle.want.specs.Listing.{block_with};
ghost use Rattle.want.specs.Steps.Runs.{run_from, runs_from, peer_in, Along};

use crate::block::listed;
use crate::run::{Mark, Run, forward, has_there};

// The blocks that the record at a place lists, where the table goes on past it.
fn run_at(t: &[u8], at: usize, past: usize) -> Run
    ensures { result ≡ run_from t.now at past }
{
    if at == past {
        return Run { first: 0, count: 0 };
    }
    let Some(f) = record::outline_at(t, at) else {
        return Run { first: 0, count: 0 };
    };
    let count = listed(f);
    Run {
        first: f.first,
        count,
    }
}

// Those of the peers' records, where the tables go on past them; none of the local one's.
pub(crate) fn runs_at(tables: [&[u8]; 5], places: [usize; 5], past: [usize; 5]) -> [Run; 5]
    ensures { result ≡ runs_from (map (λ x. x.now) tables.entry) places past }
{
    let none = Run { first: 0, count: 0 };
    let a = run_at(tables[1], places[1], past[1]);
    let b = run_at(tables[2], places[2], past[2]);
    let c = run_at(tables[3], places[3], past[3]);
    let d = run_at(tables[4], places[4], past[4]);
    [none, a, b, c, d]
}

// The lowest peer that lists a block at an offset, where one does; the marks go along.
pub(crate) fn ask(
    tables: [&[u8]; 5],
    runs: [Run; 5],
    marks: &mut [Mark],
    offset: u64,
    size: u32,
    hash: &[u8],
) -> Option<u32>
    requires { Along (map (λ x. x.now) tables) runs marks.old offset }
    ensures value { unwrap_or result 0 ≡ peer_in (map (λ x. x.now) tables.entry) runs offset (block_with size hash.now) }
    ensures along { Along (map (λ x. x.now) tables.entry) runs marks.new offset }
{
    for k in 1..5 {
        let run = runs[k];
        let mark = forward(tables[k], run, marks[k], offset);
        marks[k] = mark;
        if has_there(tables[k], run, mark, offset, size, hash) {
            return Some(k as u32);
        }
    }
    None
}
