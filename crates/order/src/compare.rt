// The order of bytes: by the first place where they differ, a proper prefix being lower.
ghost use Rattle.std.specs.Prelude.{◌≡◌};
ghost use Rattle.order.specs.Order.{compare_numbers, compare_lists, part as part_of};

use std::cmp::Ordering;

// Two numbers.
pub fn compare_numbers(m: u64, n: u64) -> Ordering
    ensures { result ≡ compare_numbers m n }
{
    m.cmp(&n)
}

// Byte by byte.
pub(crate) fn compare_rest(a: &[u8], b: &[u8]) -> Ordering
    ensures { result ≡ compare_lists a.now b.now }
{
    for (x, y) in a.iter().zip(b) {
        if x != y {
            return x.cmp(y);
        }
    }
    a.len().cmp(&b.len())
}

// Two runs of bytes: eight at a time, as long as both have so many.
pub fn compare_bytes(a: &[u8], b: &[u8]) -> Ordering
    ensures { result ≡ compare_lists a.now b.now }
{
    let mut i = 0;
    while let (Ok((x, next)), Ok((y, _))) = (xdr::read_hyper(a, i), xdr::read_hyper(b, i)) {
        if x != y {
            return compare_numbers(x, y);
        }
        i = next;
    }
    compare_rest(&a[i..], &b[i..])
}

// The bytes from one place to another, as far as there are any.
pub fn part(s: &[u8], from: usize, to: usize) -> &[u8]
    ensures { result.now ≡ part_of s.now from to }
{
    let len = s.len();
    if len < from {
        return &s[len..len];
    }
    if to < from {
        return &s[from..from];
    }
    if len < to {
        return &s[from..len];
    }
    &s[from..to]
}

// A part of some bytes with a part of others.
pub fn compare_parts(
    s: &[u8],
    from: usize,
    to: usize,
    t: &[u8],
    start: usize,
    end: usize,
) -> Ordering
    ensures { result ≡ compare_lists (part_of s.now from to) (part_of t.now start end) }
{
    compare_bytes(part(s, from, to), part(t, start, end))
}
