// Numbers in bytes, the highest byte first.
ghost use Rattle.std.specs.Prelude.{◌≡◌, ◌+◌, ◌≤◌, length, drop};
ghost use Rattle.xdr.specs.Number.{big_endian};
ghost use Rattle.xdr.specs.Steps.{little_endian};

// The number that the four bytes at a place are, the lowest first: as the processor reads them, so that it is one load.
pub(crate) fn little_endian_at(s: &[u8], at: usize) -> u32
    requires { at + 4 ≤ length s.now }
    ensures { result ≡ little_endian (drop at s.now) }
{
    u32::from_le_bytes([s[at], s[at + 1], s[at + 2], s[at + 3]])
}

// The word at a place that has one: a load and a turn, which is less for the compiler to weigh than four bytes, and so is inlined.
pub(crate) fn word_at(s: &[u8], at: usize) -> u32
    requires { at + 4 ≤ length s.now }
    ensures { result ≡ big_endian 4 (drop at s.now) }
{
    little_endian_at(s, at).swap_bytes()
}

// The number of 64 bits at a place that has one: two words, the higher first.
pub(crate) fn hyper_at(s: &[u8], at: usize) -> u64
    requires { at + 8 ≤ length s.now }
    ensures { result ≡ big_endian 8 (drop at s.now) }
{
    u64::from(word_at(s, at)) * 4294967296 + u64::from(word_at(s, at + 4))
}
