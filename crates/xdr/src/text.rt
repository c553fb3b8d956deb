// The text rule, which is UTF-8: a run of sequences, each a lead byte and its followers.
ghost use Rattle.std.specs.Prelude.{◌≡◌, true, ◌+◌, ◌≤◌, ◌<◌, length, drop};
ghost use Rattle.xdr.specs.Steps.{followed_by, sound_after, Whole, Advance};
ghost use Rattle.xdr.specs.Text.{followers as followers_of, lowest as lowest_of, highest as highest_of, is_within, sound_up_to};

use crate::number::little_endian_at;

// The top bit of each of four bytes.
const TOP_BITS: u32 = 0x80808080;

// How many followers a lead byte has: 4 for a byte that can't lead.
pub fn followers(b: u8) -> u8
    ensures { result ≡ followers_of b }
{
    match b {
        0..=127 => 0,
        194..=223 => 1,
        224..=239 => 2,
        240..=244 => 3,
        _ => 4,
    }
}

// The least that the first follower of a lead byte may be.
pub fn lowest(b: u8) -> u8
    ensures { result ≡ lowest_of b }
{
    match b {
        224 => 160,
        240 => 144,
        _ => 128,
    }
}

// The most that it may be.
pub fn highest(b: u8) -> u8
    ensures { result ≡ highest_of b }
{
    match b {
        237 => 159,
        244 => 143,
        _ => 191,
    }
}

// Whether the four bytes at a place are sequences of their own: none has its top bit set.
fn plain_at(s: &[u8], at: usize) -> bool
    requires { at + 4 ≤ length s.now }
    ensures { result ≡ true → Whole s.now at 4 }
{
    little_endian_at(s, at) & TOP_BITS == 0
}

// Whether the eight bytes at a place are, by one test.
fn plain_eight_at(s: &[u8], at: usize) -> bool
    requires { at + 8 ≤ length s.now }
    ensures { result ≡ true → Whole s.now at 8 }
{
    (little_endian_at(s, at) | little_endian_at(s, at + 4)) & TOP_BITS == 0
}

// A position up to which every byte is a sequence of its own, in steps of eight: most names are ASCII throughout.
fn past_eights(s: &[u8]) -> usize
    ensures { (result ≤ length s.now) × (sound_up_to s.now ≡ sound_after s.now result) }
{
    let eights = s.len() / 8;
    for i in 0..eights {
        if !plain_eight_at(s, 8 * i) {
            return 8 * i;
        }
    }
    8 * eights
}

// Whether a byte is of a range.
pub fn is_within(b: u8, low: u8, high: u8) -> bool
    ensures { result ≡ is_within low high b }
{
    low <= b && b <= high
}

// Whether a byte of a range is at a place.
fn follows_at(s: &[u8], at: usize, low: u8, high: u8) -> bool
    ensures { result ≡ followed_by 1 low high (drop at s.now) }
{
    at < s.len() && is_within(s[at], low, high)
}

// Whether so many followers, three at most, are at a place, the first of them of a range.
fn followed(s: &[u8], at: usize, n: u8, low: u8, high: u8) -> bool
    requires { (at ≤ length s.now) × (n ≤ 3) }
    ensures { result ≡ followed_by n low high (drop at s.now) }
{
    (n == 0 || follows_at(s, at, low, high))
        && (n <= 1 || follows_at(s, at + 1, 128, 191))
        && (n <= 2 || follows_at(s, at + 2, 128, 191))
}

// Whether a sequence of two bytes is at a place.
fn pair_at(s: &[u8], at: usize) -> bool
    requires { at + 2 ≤ length s.now }
    ensures { result ≡ true → Whole s.now at 2 }
{
    is_within(s[at], 194, 223) && is_within(s[at + 1], 128, 191)
}

// Whether two of them are.
fn pairs_at(s: &[u8], at: usize) -> bool
    requires { at + 4 ≤ length s.now }
    ensures { result ≡ true → Whole s.now at 4 }
{
    pair_at(s, at) && pair_at(s, at + 2)
}

// Whether a sequence of three bytes is at a place, with a lead that no range is narrowed after.
fn three_at(s: &[u8], at: usize) -> bool
    requires { at + 3 ≤ length s.now }
    ensures { result ≡ true → Whole s.now at 3 }
{
    is_within(s[at], 225, 236) && is_within(s[at + 1], 128, 191) && is_within(s[at + 2], 128, 191)
}

// Whether a sequence of four bytes is at a place, with F0 for a lead: those of pictures have no other.
fn four_at(s: &[u8], at: usize) -> bool
    requires { at ≤ length s.now }
    ensures { result ≡ true → Whole s.now at 4 }
{
    4 <= s.len() - at
        && s[at] == 240
        && is_within(s[at + 1], 144, 191)
        && is_within(s[at + 2], 128, 191)
        && is_within(s[at + 3], 128, 191)
}

// The bytes of the sequence at a place, 0 where it breaks the rule.
fn one_at(s: &[u8], at: usize) -> usize
    requires { at < length s.now }
    ensures { Advance s.now at result }
{
    let b = s[at];
    match followers(b) {
        0 => 1,
        1 if follows_at(s, at + 1, 128, 191) => 2,
        1 => 0,
        _ if four_at(s, at) => 4,
        n if n <= 3 && followed(s, at + 1, n, lowest(b), highest(b)) => 1 + n as usize,
        _ => 0,
    }
}

// The bytes of sequences at a place, four bytes at once where that can be, 0 where the first breaks the rule.
fn step_at(s: &[u8], at: usize) -> usize
    requires { at < length s.now }
    ensures { Advance s.now at result }
{
    if 4 <= s.len() - at {
        if plain_at(s, at) || pairs_at(s, at) {
            return 4;
        }
        if s[at] < 128 {
            return 1;
        }
        if three_at(s, at) {
            return 3;
        }
    }
    one_at(s, at)
}

// The position of the first sequence that breaks the text rule, or the number of bytes where none does.
pub fn sound_up_to(s: &[u8]) -> usize
    ensures { result ≡ sound_up_to s.now }
{
    let mut i = past_eights(s);
    // A `while`, since a step is as long as what it finds: no iterator goes by such steps.
    while i < s.len() {
        let n = step_at(s, i);
        if n == 0 {
            return i;
        }
        i += n;
    }
    i
}
