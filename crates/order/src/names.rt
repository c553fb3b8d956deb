// Short runs of bytes, such as names. From eight bytes on, the last eight of the shorter one are taken at once, though some of them were compared before: so few
// are compared byte by byte.
ghost use Rattle.std.specs.Prelude.{◌≡◌, ◌-◌, ◌≤◌, length, take};
ghost use Rattle.order.specs.Order.{compare_lists};
ghost use Rattle.order.specs.Steps.{Shorter};

use crate::compare::{compare_numbers, compare_rest};
use crate::hash::eight_at;
use std::cmp::Ordering;

// Two runs of bytes that are the same up to the last eight of the shorter one, which has so many.
fn compare_last(a: &[u8], b: &[u8], n: usize) -> Ordering
    requires shorter { Shorter (length a.now) (length b.now) n }
    requires le_n { 8 ≤ n }
    requires a_value { take (n - 8) a.now ≡ take (n - 8) b.now }
    ensures { result ≡ compare_lists a.now b.now }
{
    let at = n - 8;
    let x = eight_at(a, at);
    let y = eight_at(b, at);
    if x != y {
        return compare_numbers(x, y);
    }
    a.len().cmp(&b.len())
}

// Two runs of bytes, such as names.
pub fn compare_names(a: &[u8], b: &[u8]) -> Ordering
    ensures { result ≡ compare_lists a.now b.now }
{
    let n = a.len().min(b.len());
    if n < 8 {
        return compare_rest(a, b);
    }
    for i in (0..n - 8).step_by(8) {
        let x = eight_at(a, i);
        let y = eight_at(b, i);
        if x != y {
            return compare_numbers(x, y);
        }
    }
    compare_last(a, b, n)
}
