// The next name over five tables, by names alone: where each goes on after it, as the walk that looks for the highest record does.
ghost use Rattle.std.specs.Prelude.{map, ◌≡◌};
ghost use Rattle.record.specs.Outline.{outline_of};
ghost use Rattle.want.specs.Steps.Head.{Stands, name_in, order_in, AllStand, Passes};

use crate::fields::{name_at, record_at};
use crate::head::past_of;
use std::cmp::Ordering;

// How the names of the records at a place of each of two tables compare: no record comes last. `order::compare_names` would be no faster here, and with one caller it is
// inlined there, where records are listed.
fn compare_at(a: &[u8], i: usize, b: &[u8], j: usize) -> Ordering
    requires stands { Stands a.now i }
    requires stands_2 { Stands b.now j }
    ensures { result ≡ order_in (name_in a.now (outline_of a.now i)) (name_in b.now (outline_of b.now j)) }
{
    if b.len() <= j {
        return Ordering::Less;
    }
    if a.len() <= i {
        return Ordering::Greater;
    }
    order::compare_bytes(name_at(a, i), name_at(b, j))
}

// Where each table goes on after the next name, from a place in each; none where no record is left.
pub(crate) fn next_places(tables: [&[u8]; 5], places: [usize; 5]) -> Option<[usize; 5]>
    requires { AllStand (map (λ x. x.now) tables) places }
    ensures { Passes (map (λ x. x.now) tables.entry) places result }
{
    let mut best = 0;
    let mut past = places;
    past[0] = past_of(record_at(tables[0], places[0]), places[0]);
    for k in 1..5 {
        let t = tables[k];
        let at = places[k];
        match compare_at(tables[best], places[best], t, at) {
            Ordering::Less => {}
            Ordering::Equal => {
                past[k] = past_of(record_at(t, at), at);
            }
            Ordering::Greater => {
                best = k;
                past = places;
                past[k] = past_of(record_at(t, at), at);
            }
        }
    }
    if tables[best].len() <= places[best] {
        return None;
    }
    Some(past)
}
