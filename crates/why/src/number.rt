// A number in decimal digits.
ghost use Rattle.std.specs.Prelude.{◌≡◌};
ghost use Rattle.why.specs.Number.{is_digit, number_of};

// Whether a byte is a decimal digit.
fn is_digit(c: u8) -> bool
    ensures { result ≡ is_digit c }
{
    48 <= c && c <= 57
}

// The number that some bytes say: one or more digits, and no more than 32 bits hold.
pub fn read(s: &[u8]) -> Option<u32>
    ensures { result ≡ number_of s.now }
{
    if s.len() == 0 {
        return None;
    }
    let mut n: u64 = 0;
    for &c in s {
        if !is_digit(c) {
            return None;
        }
        n = n * 10 + (c - 48) as u64;
        if 4294967295 < n {
            return None;
        }
    }
    Some(n as u32)
}
