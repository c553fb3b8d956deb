// The sixty-four rounds of a block, by eight.
ghost use Rattle.std.specs.Prelude.{◌≡◌, ◌+◌, ◌*◌, ◌%◌, drop};
ghost use Rattle.sha256.specs.Schedule.{schedule};
ghost use Rattle.sha256.specs.Constants.{K};
ghost use Rattle.sha256.specs.Hash as fips;
ghost use Rattle.sha256.specs.Steps.{low_words, high_words, words_in, Eight};

use crate::block::{Block, block_of, next_word};
use crate::constants;
use crate::state::{State, added, round};

// The working variables after some rounds, and the sixteen newest words of the schedule.
#[derive(Clone, Copy)]
pub struct Step {
    pub state: State,
    pub block: Block,
}

// Eight rounds with the first constants of a row, each beside the word of the schedule for sixteen rounds later. They are written out, since
// a loop would have to move all words on by one for each.
fn first_eight(mut s: State, mut w: Block, k: &[u32; 64], row: usize) -> Step
    requires { k.now ≡ K }
    ensures { Eight (row % 4 * 16) (low_words w) (high_words w) (low_words result.block) (high_words result.block) s result.state }
{
    s = round(s, k[row % 4 * 16], w.w0);
    w.w0 = next_word(w.w0, w.w1, w.w9, w.w14);
    s = round(s, k[row % 4 * 16 + 1], w.w1);
    w.w1 = next_word(w.w1, w.w2, w.w10, w.w15);
    s = round(s, k[row % 4 * 16 + 2], w.w2);
    w.w2 = next_word(w.w2, w.w3, w.w11, w.w0);
    s = round(s, k[row % 4 * 16 + 3], w.w3);
    w.w3 = next_word(w.w3, w.w4, w.w12, w.w1);
    s = round(s, k[row % 4 * 16 + 4], w.w4);
    w.w4 = next_word(w.w4, w.w5, w.w13, w.w2);
    s = round(s, k[row % 4 * 16 + 5], w.w5);
    w.w5 = next_word(w.w5, w.w6, w.w14, w.w3);
    s = round(s, k[row % 4 * 16 + 6], w.w6);
    w.w6 = next_word(w.w6, w.w7, w.w15, w.w4);
    s = round(s, k[row % 4 * 16 + 7], w.w7);
    w.w7 = next_word(w.w7, w.w8, w.w0, w.w5);
    Step { state: s, block: w }
}

// The eight rounds after them, likewise.
fn second_eight(mut s: State, mut w: Block, k: &[u32; 64], row: usize) -> Step
    requires { k.now ≡ K }
    ensures { Eight (row % 4 * 16 + 8) (high_words w) (low_words w) (high_words result.block) (low_words result.block) s result.state }
{
    s = round(s, k[row % 4 * 16 + 8], w.w8);
    w.w8 = next_word(w.w8, w.w9, w.w1, w.w6);
    s = round(s, k[row % 4 * 16 + 9], w.w9);
    w.w9 = next_word(w.w9, w.w10, w.w2, w.w7);
    s = round(s, k[row % 4 * 16 + 10], w.w10);
    w.w10 = next_word(w.w10, w.w11, w.w3, w.w8);
    s = round(s, k[row % 4 * 16 + 11], w.w11);
    w.w11 = next_word(w.w11, w.w12, w.w4, w.w9);
    s = round(s, k[row % 4 * 16 + 12], w.w12);
    w.w12 = next_word(w.w12, w.w13, w.w5, w.w10);
    s = round(s, k[row % 4 * 16 + 13], w.w13);
    w.w13 = next_word(w.w13, w.w14, w.w6, w.w11);
    s = round(s, k[row % 4 * 16 + 14], w.w14);
    w.w14 = next_word(w.w14, w.w15, w.w7, w.w12);
    s = round(s, k[row % 4 * 16 + 15], w.w15);
    w.w15 = next_word(w.w15, w.w0, w.w8, w.w13);
    Step { state: s, block: w }
}

// The last sixteen rounds.
fn last_sixteen(mut s: State, w: Block, k: &[u32; 64]) -> State
    requires { k.now ≡ K }
    ensures { result ≡ fips.rounds (drop 48 K) (words_in w) s }
{
    s = round(s, k[48], w.w0);
    s = round(s, k[49], w.w1);
    s = round(s, k[50], w.w2);
    s = round(s, k[51], w.w3);
    s = round(s, k[52], w.w4);
    s = round(s, k[53], w.w5);
    s = round(s, k[54], w.w6);
    s = round(s, k[55], w.w7);
    s = round(s, k[56], w.w8);
    s = round(s, k[57], w.w9);
    s = round(s, k[58], w.w10);
    s = round(s, k[59], w.w11);
    s = round(s, k[60], w.w12);
    s = round(s, k[61], w.w13);
    s = round(s, k[62], w.w14);
    s = round(s, k[63], w.w15);
    s
}

// All rounds of a block.
fn rounds(s: State, w: Block, k: &[u32; 64]) -> State
    requires { k.now ≡ K }
    ensures { result ≡ fips.rounds K (schedule (words_in w)) s }
{
    let mut state = s;
    let mut block = w;
    for row in 0..3 {
        let half = first_eight(state, block, k, row);
        let step = second_eight(half.state, half.block, k, row);
        state = step.state;
        block = step.block;
    }
    last_sixteen(state, block, k)
}

// The hash value after all whole blocks of some bytes.
fn hash_blocks(start: State, s: &[u8], k: &[u32; 64]) -> State
    requires { k.now ≡ K }
    ensures { result ≡ fips.hash_all start s.now }
{
    let mut state = start;
    for bytes in s.chunks_exact(64) {
        state = added(state, rounds(state, block_of(bytes), k));
    }
    state
}

// The same, with the constants.
pub(crate) fn hashed(start: State, s: &[u8]) -> State
    ensures { result ≡ fips.hash_all start s.now }
{
    let k = constants::K;
    hash_blocks(start, s, &k)
}
