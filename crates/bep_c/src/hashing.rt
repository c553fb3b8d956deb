// SHA-256 of bytes in one, or in pieces: what is kept between the pieces is lent as 10 words (the eight of the hash value so far, and how many
// bytes there were in two words, the high one first) and 64 bytes (those after the last whole block).
//
// Any words and bytes may be given, and every call returns 0.
ghost use Rattle.std.specs.Prelude.{◌≡◌};
ghost use Rattle.sha256.specs.Hash as fips;
ghost use Rattle.sha256.specs.Stream.{begun, continued, ended};
ghost use Rattle.bep.specs.Hashing.{hasher_of, Keeps};

// The digest of a message.
#[unsafe(no_mangle)]
pub extern "C" fn bep_sha256(message: &[u8], digest: &mut [u8; 32]) -> u32
    ensures { (result ≡ 0) × (digest.new ≡ fips.digest message.now) }
{
    bep::hashing::bep_sha256(message, digest)
}

// No bytes yet.
#[unsafe(no_mangle)]
pub extern "C" fn bep_sha256_begin(words: &mut [u32; 10], tail: &mut [u8; 64]) -> u32
    ensures { Keeps begun result words.new tail.new }
{
    bep::hashing::bep_sha256_begin(words, tail)
}

// Further bytes.
#[unsafe(no_mangle)]
pub extern "C" fn bep_sha256_update(words: &mut [u32; 10], tail: &mut [u8; 64], bytes: &[u8]) -> u32
    ensures { Keeps (continued (hasher_of words.old tail.old) bytes.now)
        result words.new tail.new }
{
    bep::hashing::bep_sha256_update(words, tail, bytes)
}

// The digest of all bytes.
#[unsafe(no_mangle)]
pub extern "C" fn bep_sha256_finish(
    words: &[u32; 10],
    tail: &[u8; 64],
    digest: &mut [u8; 32],
) -> u32
    ensures { (result ≡ 0)
        × (digest.new ≡ fips.state_bytes (ended (hasher_of words.now tail.now))) }
{
    bep::hashing::bep_sha256_finish(words, tail, digest)
}
