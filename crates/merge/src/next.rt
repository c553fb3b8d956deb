// Which record a merge takes next.
ghost use Rattle.std.specs.Prelude.{◌≡◌};
ghost use Rattle.merge.specs.Steps.Next.{from_left, from_right, higher_of, next_of};

use record::RecordFields;
use std::cmp::Ordering;
use table::Side;

// A record that is taken: of the first table or of the second, at start..end; the merge goes on at i of the first and j of the second.
#[derive(Clone, Copy)]
pub struct Pick {
    pub left: bool,
    pub start: usize,
    pub end: usize,
    pub i: usize,
    pub j: usize,
}

// The record of the first table at i, up to x.
pub fn from_left(i: usize, x: usize, j: usize) -> Pick
    ensures { result ≡ from_left i x j }
{
    Pick {
        left: true,
        start: i,
        end: x,
        i: x,
        j,
    }
}

// The record of the second table at j, up to y.
pub fn from_right(j: usize, y: usize, i: usize) -> Pick
    ensures { result ≡ from_right j y i }
{
    Pick {
        left: false,
        start: j,
        end: y,
        i,
        j: y,
    }
}

// Of two records of one name the higher.
fn higher(a: &[u8], i: usize, f: RecordFields, b: &[u8], j: usize, g: RecordFields) -> Pick
    ensures { result ≡ higher_of a.now i b.now j f g }
{
    match table::compare_records(a, f, b, g) {
        Ordering::Less => from_right(j, g.past, f.past),
        Ordering::Equal | Ordering::Greater => from_left(i, f.past, g.past),
    }
}

// The next record, at a place of each table; none is left where both have come to their end.
#[tactic(auto, unfolding(crate::specs::Steps::Next::next_of))]
pub fn next_at(a: &[u8], i: usize, b: &[u8], j: usize) -> Option<Pick>
    ensures { result ≡ next_of a.now i b.now j }
{
    Some(match table::side_at(a, i, b, j)? {
        Side::Left(x) => from_left(i, x, j),
        Side::Right(y) => from_right(j, y, i),
        Side::Both(f, g) => higher(a, i, f, b, j, g),
    })
}
