// Which record comes next: the message's or the old table's.
ghost use Rattle.std.specs.Prelude.{◌≡◌, Some};
ghost use Rattle.table.specs.Newest.{bit};
ghost use Rattle.table.specs.Steps.Side.{side_of_two};
ghost use Rattle.merge.specs.Steps.Next.{next_by};
ghost use Rattle.accept.specs.Steps.Next.{place_of, replacing_step, next_over};

use merge::next::{Pick, from_left, from_right};
use record::RecordFields;
use std::cmp::Ordering;

// The place of number i of the message's records in order, or the end where none is left.
pub fn place_of(s: &[u8], places: &[usize], i: usize) -> usize
    ensures { result ≡ place_of s.now places.now i }
{
    places.get(i).copied().unwrap_or(s.len())
}

// Two records, by their names.
fn by_names(s: &[u8], at: usize, f: RecordFields, old: &[u8], j: usize, g: RecordFields) -> Pick
    ensures { Some result ≡ next_by (replacing_step at) at j (Some (side_of_two s.now f old.now g)) }
{
    match order::compare_parts(s, f.name, f.stop, old, g.name, g.stop) {
        Ordering::Less => from_left(at, f.past, j),
        Ordering::Equal => from_left(at, f.past, g.past),
        Ordering::Greater => from_right(j, g.past, at),
    }
}

// The message's record at a place, or the old record at j: of one name the message's, without a look at which is the newer. It is
// table::side_at written out, since that is inlined only where it has one caller.
#[tactic(auto, unfolding(crate::specs::Steps::Next::next_over))]
pub fn next_at(s: &[u8], at: usize, old: &[u8], j: usize) -> Option<Pick>
    ensures { result ≡ next_over s.now at old.now j }
{
    match (record::outline_at(s, at), record::outline_at(old, j)) {
        (None, None) => None,
        (None, Some(g)) => Some(from_right(j, g.past, at)),
        (Some(f), None) => Some(from_left(at, f.past, j)),
        (Some(f), Some(g)) => Some(by_names(s, at, f, old, j, g)),
    }
}

// How many of the message's records a step takes.
pub fn taken_by(step: Pick) -> usize
    ensures { result ≡ bit step.left }
{
    usize::from(step.left)
}
