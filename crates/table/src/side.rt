// Whose record comes next in a walk over two tables.
ghost use Rattle.std.specs.Prelude.{◌≡◌};
ghost use Rattle.table.specs.Steps.Side.{side_at, side_of_two};

use record::RecordFields;
use std::cmp::Ordering;

// The first table's up to a place, the second's, or both, which have one name.
#[derive(Clone, Copy)]
pub enum Side {
    Left(usize),
    Right(usize),
    Both(RecordFields, RecordFields),
}

// Two records, each in its own bytes, by their names.
fn side_of_two(a: &[u8], f: RecordFields, b: &[u8], g: RecordFields) -> Side
    ensures { result ≡ side_of_two a.now f b.now g }
{
    match order::compare_parts(a, f.name, f.stop, b, g.name, g.stop) {
        Ordering::Less => Side::Left(f.past),
        Ordering::Equal => Side::Both(f, g),
        Ordering::Greater => Side::Right(g.past),
    }
}

// By the records at a place of each; none is left where both tables have come to their end.
pub fn side_at(a: &[u8], i: usize, b: &[u8], j: usize) -> Option<Side>
    ensures { result ≡ side_at a.now i b.now j }
{
    match (record::outline_at(a, i), record::outline_at(b, j)) {
        (None, None) => None,
        (None, Some(g)) => Some(Side::Right(g.past)),
        (Some(f), None) => Some(Side::Left(f.past)),
        (Some(f), Some(g)) => Some(side_of_two(a, f, b, g)),
    }
}
