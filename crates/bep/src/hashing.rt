// SHA-256 of bytes in one, or in pieces: what is kept between the pieces is lent as 10 words (the eight of the hash value so far, and how many
// bytes there were in two words, the high one first) and 64 bytes (those after the last whole block).
//
// Any words and bytes may be given, and every call returns 0.
ghost use Rattle.std.specs.Prelude.{◌≡◌, ◌+◌, ◌*◌, ◌^◌};
ghost use Rattle.sha256.specs.Hash as fips;
ghost use Rattle.sha256.specs.Stream.{begun, continued, ended};
ghost use Rattle.bep.specs.Hashing.{hasher_of, hasher_words, Keeps};

use sha256::{Hasher, State};

// A number of two words.
fn joined(high: u32, low: u32) -> u64
    ensures { result ≡ high * 2 ^ 32 + low }
{
    high as u64 * 4294967296 + low as u64
}

// The hasher that words and a tail are.
fn taken_up(words: &[u32; 10], tail: &[u8; 64]) -> Hasher
    ensures { result ≡ hasher_of words.now tail.now }
{
    let t = *tail;
    Hasher {
        state: State {
            a: words[0],
            b: words[1],
            c: words[2],
            d: words[3],
            e: words[4],
            f: words[5],
            g: words[6],
            h: words[7],
        },
        tail: t,
        size: joined(words[8], words[9]),
    }
}

// The words of a hasher.
fn laid_out(hasher: Hasher) -> [u32; 10]
    ensures { result ≡ hasher_words hasher }
{
    let s = hasher.state;
    let high = (hasher.size / 4294967296) as u32;
    let low = (hasher.size % 4294967296) as u32;
    [s.a, s.b, s.c, s.d, s.e, s.f, s.g, s.h, high, low]
}

// The digest of a message.
pub fn bep_sha256(message: &[u8], digest: &mut [u8; 32]) -> u32
    ensures { (result ≡ 0) × (digest.new ≡ fips.digest message.now) }
{
    *digest = sha256::digest(message);
    0
}

// No bytes yet.
pub fn bep_sha256_begin(words: &mut [u32; 10], tail: &mut [u8; 64]) -> u32
    ensures { Keeps begun result words.new tail.new }
{
    let hasher = Hasher::begin();
    *words = laid_out(hasher);
    let t = hasher.tail;
    *tail = t;
    0
}

// Further bytes.
pub fn bep_sha256_update(words: &mut [u32; 10], tail: &mut [u8; 64], bytes: &[u8]) -> u32
    ensures { Keeps (continued (hasher_of words.old tail.old) bytes.now)
        result words.new tail.new }
{
    let before = taken_up(words, tail);
    let hasher = before.update(bytes);
    *words = laid_out(hasher);
    let t = hasher.tail;
    *tail = t;
    0
}

// The digest of all bytes.
pub fn bep_sha256_finish(words: &[u32; 10], tail: &[u8; 64], digest: &mut [u8; 32]) -> u32
    ensures { (result ≡ 0)
        × (digest.new ≡ fips.state_bytes (ended (hasher_of words.now tail.now))) }
{
    let hasher = taken_up(words, tail);
    *digest = hasher.finish();
    0
}
