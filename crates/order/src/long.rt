// Long runs of bytes, by many bytes at once.
ghost use Rattle.std.specs.Prelude.{◌≡◌};
ghost use Rattle.order.specs.Order.{is_equal, compare_lists};
ghost use Rattle.order.specs.Steps.{SameUpTo};

use crate::compare::compare_bytes;
use std::cmp::Ordering;

// Whether two runs of bytes are the same. With no early exit it compiles to comparisons of 16 bytes, where the length is known.
pub fn same_bytes(a: &[u8], b: &[u8]) -> bool
    ensures { result ≡ is_equal (compare_lists a.now b.now) }
{
    if a.len() != b.len() {
        return false;
    }
    let mut same = true;
    for (x, y) in a.iter().zip(b) {
        if x != y {
            same = false;
        }
    }
    same
}

// A place up to which two runs of bytes are the same, in steps of 64.
fn same_up_to(a: &[u8], b: &[u8]) -> usize
    ensures { SameUpTo a.now b.now result }
{
    let n = a.len().min(b.len());
    let whole = n - n % 64;
    for i in (0..whole).step_by(64) {
        let end = i + 64;
        if !same_bytes(&a[i..end], &b[i..end]) {
            return i;
        }
    }
    whole
}

// Two runs of bytes that are long and mostly the same.
pub fn compare_long(a: &[u8], b: &[u8]) -> Ordering
    ensures { result ≡ compare_lists a.now b.now }
{
    let i = same_up_to(a, b);
    compare_bytes(&a[i..], &b[i..])
}
