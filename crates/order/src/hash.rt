// Hashes: runs of 32 bytes.
ghost use Rattle.std.specs.Prelude.{◌≡◌, ◌+◌, ◌≤◌, length, drop};
ghost use Rattle.xdr.specs.Number.{big_endian};
ghost use Rattle.order.specs.Order.{is_equal, compare_lists};

use crate::long::same_bytes;

// Eight bytes as a number. All of them are there, so the 0 is never answered.
pub(crate) fn eight_at(s: &[u8], at: usize) -> u64
    requires { at + 8 ≤ length s.now }
    ensures { result ≡ big_endian 8 (drop at s.now) }
{
    let end = at + 8;
    let Ok((x, _)) = xdr::read_hyper(&s[at..end], 0) else {
        return 0;
    };
    x
}

// Whether two hashes are the same, by eight bytes at a time. It has no early exit, so that it compiles to four loads of each and one test.
pub fn same_hash(a: &[u8], b: &[u8]) -> bool
    ensures { result ≡ is_equal (compare_lists a.now b.now) }
{
    if a.len() != 32 {
        return same_bytes(a, b);
    }
    if b.len() != 32 {
        return false;
    }
    let mut same = true;
    for i in (0..32).step_by(8) {
        if eight_at(a, i) != eight_at(b, i) {
            same = false;
        }
    }
    same
}
