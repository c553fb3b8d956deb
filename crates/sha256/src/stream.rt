// SHA-256 of a message in one, or in pieces.
ghost use Rattle.std.specs.Prelude.{◌≡◌, ◌%◌, ◌++◌, length};
ghost use Rattle.sha256.specs.Hash as fips;
ghost use Rattle.sha256.specs.Stream.{begun, continued, ended};

use crate::bytes::{laid, state_bytes};
use crate::compress::hashed;
use crate::state::{State, initial};

// What is kept of the bytes so far: the hash value after the whole blocks, the bytes after them (the first size % 64 of the tail), and
// how many bytes there were.
#[derive(Clone, Copy)]
pub struct Hasher {
    pub state: State,
    pub tail: [u8; 64],
    pub size: u64,
}

// Where in the tail the next byte belongs.
fn place(size: u64) -> usize
    ensures { result ≡ size % 64 }
{
    (size % 64) as usize
}

// The final hash value of a message of so many bytes, from that after its whole blocks, and the bytes after them.
fn closed(state: State, rest: &[u8], size: u64) -> State
    requires { length rest.now ≡ size % 64 }
    ensures { result ≡ fips.hash_all state (rest.now ++ fips.padding size) }
{
    let held = rest.len();
    let bits = (size << 3).to_be_bytes();
    let mut block = laid([0; 64], 0, rest);
    block[held] = 0x80;
    if held < 56 {
        let full = laid(block, 56, &bits);
        return hashed(state, &full);
    }
    let first = hashed(state, &block);
    let last = laid([0; 64], 56, &bits);
    hashed(first, &last)
}

impl Hasher {
    // No bytes yet.
    pub fn begin() -> Hasher
        ensures { result ≡ begun }
    {
        Hasher {
            state: initial(),
            tail: [0; 64],
            size: 0,
        }
    }

    // Further bytes.
    pub fn update(self, s: &[u8]) -> Hasher
        ensures { result ≡ continued self s.now }
    {
        let held = place(self.size);
        let room = 64 - held;
        let size = self.size.wrapping_add(s.len() as u64);
        let tail = self.tail;
        let state = self.state;
        if s.len() < room {
            let before = laid([0; 64], 0, &tail[..held]);
            let longer = laid(before, held, s);
            return Hasher {
                state,
                tail: longer,
                size,
            };
        }
        let block = laid(tail, held, &s[..room]);
        let first = hashed(state, &block);
        let whole = (s.len() - room) / 64 * 64;
        let last = hashed(first, &s[room..]);
        let left = laid([0; 64], 0, &s[room + whole..]);
        Hasher {
            state: last,
            tail: left,
            size,
        }
    }

    // The final hash value of all bytes.
    pub fn value(self) -> State
        ensures { result ≡ ended self }
    {
        let held = place(self.size);
        let tail = self.tail;
        let state = self.state;
        closed(state, &tail[..held], self.size)
    }

    // The digest of all bytes.
    pub fn finish(self) -> [u8; 32]
        ensures { result ≡ fips.state_bytes (ended self) }
    {
        state_bytes(self.value())
    }
}

// The final hash value of a message.
pub fn hash_value(message: &[u8]) -> State
    ensures { result ≡ fips.hash_value message.now }
{
    let whole = message.len() / 64 * 64;
    let state = hashed(initial(), message);
    closed(state, &message[whole..], message.len() as u64)
}

// The digest of a message.
pub fn digest(message: &[u8]) -> [u8; 32]
    ensures { result ≡ fips.digest message.now }
{
    state_bytes(hash_value(message))
}
