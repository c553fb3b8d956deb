// NIST's published examples of SHA-256, of one block and of two: each in one, and the second in pieces too.
use lines::Hex;
use sha256::Hasher;
use std::io;

fn line(rt: &impl Print, label: &str, digest: [u8; 32]) -> io::Result<()> {
    println!(rt; "{label}: {}", Hex(&digest))
}

fn in_one(rt: &impl Print, message: &str) -> io::Result<()> {
    line(rt, message, sha256::digest(message.as_bytes()))
}

// Every byte by itself.
fn by_bytes(message: &[u8]) -> Hasher {
    let mut h = Hasher::begin();
    for byte in message.chunks(1) {
        h = h.update(byte);
    }
    h
}

pub fn examples(rt: &impl Print) -> io::Result<()> {
    println!(rt; "digests")?;
    in_one(rt, "abc")?;
    let long = "abcdbcdecdefdefgefghfghighijhijkijkljklmklmnlmnomnopnopq";
    in_one(rt, long)?;
    line(
        rt,
        "the same byte by byte",
        by_bytes(long.as_bytes()).finish(),
    )
}
