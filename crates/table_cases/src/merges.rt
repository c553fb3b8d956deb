// Merges.
use crate::{build, filling};
use std::io;

// Two tables into a buffer of so many bytes.
fn merge(rt: &impl Print, label: &str, a: &[u8], b: &[u8], room: usize) -> io::Result<()> {
    print!(rt; "merge, ")?;
    filling::show(rt, label, room, |out| merge::merge(a, b, out))
}

// Names are "aaaa" to "cccc".
pub fn small(rt: &impl Print) -> io::Result<()> {
    let a = build::two(b"aaaa", 7, 1, b"bbbb", 7);
    let b = build::two(b"bbbb", 18446744073709551615, 9, b"cccc", 0);
    good(rt, &a, &b)?;
    bad(rt, &a)
}

fn good(rt: &impl Print, a: &[u8], b: &[u8]) -> io::Result<()> {
    merge(rt, "overlapping, Modified 7 over -1", a, b, 96)?;
    merge(rt, "the other way round", b, a, 96)?;
    merge(rt, "with itself", a, a, 96)?;
    merge(rt, "a buffer that just fits", a, a, 60)?;
    merge(rt, "a buffer one byte short", a, a, 59)?;
    merge(rt, "an empty table", a, b"\x00\x00\x00\x00", 96)?;
    merge(
        rt,
        "two empty tables",
        b"\x00\x00\x00\x00",
        b"\x00\x00\x00\x00",
        4,
    )?;
    merge(rt, "no buffer", b"\x00\x00\x00\x00", b"\x00\x00\x00\x00", 0)
}

fn bad(rt: &impl Print, a: &[u8]) -> io::Result<()> {
    merge(rt, "the first no table", b"\x00\x00\x00", a, 96)?;
    merge(rt, "the second no table", a, b"", 96)?;
    merge(rt, "a byte after the table", a, b"\x00\x00\x00\x00\x00", 96)
}

// 256 records and 256 or 257 others.
pub fn records(rt: &impl Print) -> io::Result<()> {
    let mut a = [0u8; 7172];
    let mut b = [0u8; 7172];
    let mut c = [0u8; 7200];
    build::many(&mut a, 0, 256);
    build::many(&mut b, 256, 512);
    build::many(&mut c, 256, 513);
    merge(rt, "512 records", &a, &b, 14400)?;
    merge(rt, "513 records", &a, &c, 14400)
}

// 818 blocks and 818 others, by names of lengths that differ.
pub fn bytes(rt: &impl Print) -> io::Result<()> {
    let mut a = [0u8; 32752];
    let mut b = [0u8; 32788];
    let mut c = [0u8; 32792];
    build::one(&mut a, &[b'a'; 4], 818);
    build::one(&mut b, &[b'b'; 40], 818);
    build::one(&mut c, &[b'b'; 41], 818);
    merge(rt, "65,540 bytes", &a, &c, 65536)?;
    merge(rt, "65,536 bytes", &a, &b, 65536)
}
