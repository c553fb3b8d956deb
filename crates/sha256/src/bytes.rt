// Words as bytes, and bytes into a block.
ghost use Rattle.std.specs.Prelude.{◌≡◌, ◌+◌, ◌≤◌, length};
ghost use Rattle.std.proofs.Math.Seq.{paste};
ghost use Rattle.sha256.specs.Hash.{state_bytes};

use crate::state::State;

// The hash value in its 32 bytes.
pub(crate) fn state_bytes(s: State) -> [u8; 32]
    ensures { result ≡ state_bytes s }
{
    let words = [s.a, s.b, s.c, s.d, s.e, s.f, s.g, s.h];
    let mut out = [0; 32];
    for (i, w) in words.iter().enumerate() {
        out[4 * i..4 * i + 4].copy_from_slice(&w.to_be_bytes());
    }
    out
}

// A block with some bytes at a place, and the others as they were.
pub(crate) fn laid(mut block: [u8; 64], at: usize, s: &[u8]) -> [u8; 64]
    requires { at + length s.now ≤ 64 }
    ensures { result ≡ paste block at s.now (length s.now) }
{
    block[at..at + s.len()].copy_from_slice(s);
    block
}
