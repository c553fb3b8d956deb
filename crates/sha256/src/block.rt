// The sixteen words of a block, or the sixteen newest of the schedule.
ghost use Rattle.std.specs.Prelude.{◌≡◌, ◌+◌, ◌≤◌, length, drop};
ghost use Rattle.sha256.specs.Functions.{◌⊞◌, σ₀, σ₁};
ghost use Rattle.sha256.specs.Hash.{word_of, words_of};
ghost use Rattle.sha256.specs.Steps.{words_in};

use crate::functions::{lower0, lower1, sum2};

// Sixteen words of the schedule, in its order: fields and no array, since each round names its words and has no index to be proved in bounds.
#[derive(Clone, Copy)]
pub struct Block {
    pub w0: u32,
    pub w1: u32,
    pub w2: u32,
    pub w3: u32,
    pub w4: u32,
    pub w5: u32,
    pub w6: u32,
    pub w7: u32,
    pub w8: u32,
    pub w9: u32,
    pub w10: u32,
    pub w11: u32,
    pub w12: u32,
    pub w13: u32,
    pub w14: u32,
    pub w15: u32,
}

// The word at a place.
fn word_at(s: &[u8], at: usize) -> u32
    requires { at + 4 ≤ length s.now }
    ensures { result ≡ word_of (drop at s.now) }
{
    u32::from_be_bytes([s[at], s[at + 1], s[at + 2], s[at + 3]])
}

// The block that the first 64 bytes are.
pub(crate) fn block_of(s: &[u8]) -> Block
    requires { 64 ≤ length s.now }
    ensures { words_in result ≡ words_of 16 s.now }
{
    Block {
        w0: word_at(s, 0),
        w1: word_at(s, 4),
        w2: word_at(s, 8),
        w3: word_at(s, 12),
        w4: word_at(s, 16),
        w5: word_at(s, 20),
        w6: word_at(s, 24),
        w7: word_at(s, 28),
        w8: word_at(s, 32),
        w9: word_at(s, 36),
        w10: word_at(s, 40),
        w11: word_at(s, 44),
        w12: word_at(s, 48),
        w13: word_at(s, 52),
        w14: word_at(s, 56),
        w15: word_at(s, 60),
    }
}

// A word of the schedule, from those sixteen, fifteen, seven and two before it.
pub(crate) fn next_word(w16: u32, w15: u32, w7: u32, w2: u32) -> u32
    ensures { result ≡ σ₁ w2 ⊞ w7 ⊞ σ₀ w15 ⊞ w16 }
{
    sum2(sum2(sum2(lower1(w2), w7), lower0(w15)), w16)
}
