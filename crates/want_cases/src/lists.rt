// Request lists.
use crate::build;
use lines::Hex;
use std::io;

// An entry: file number, block number, offset, Length and peer.
fn entry(rt: &impl Print, s: &[u8]) -> io::Result<()> {
    if s.len() == 24 {
        println!(rt;
            " {} {} {} {} {}",
            Hex(&s[..4]),
            Hex(&s[4..8]),
            Hex(&s[8..16]),
            Hex(&s[16..20]),
            Hex(&s[20..])
        )?;
    }
    Ok(())
}

// How many bytes it has, and its entries: of a large one the last.
fn filled(rt: &impl Print, n: usize, out: &[u8]) -> io::Result<()> {
    println!(rt; ": filled {n}")?;
    let first = if n < 100 { 0 } else { n - 24 };
    for s in order::part(out, first, n).chunks(24) {
        entry(rt, s)?;
    }
    Ok(())
}

// The list of a local table and of peers 1 to 3, in a buffer of so many bytes: the list, or the refusal and whether the buffer is as it was.
pub fn list<'a>(
    rt: &impl Print,
    label: &str,
    local: &'a [u8],
    a: &'a [u8],
    b: &'a [u8],
    c: &'a [u8],
    room: usize,
) -> io::Result<()> {
    let mut out = [0xeeu8; 65536];
    if room > out.len() {
        return Ok(());
    }
    let f = want::request_list(local, a, b, c, b"\x00\x00\x00\x00", &mut out[..room]);
    print!(rt; "request list, {label}")?;
    match f {
        Ok(n) => filled(rt, n, &out),
        Err(r) => lines::refused(rt, &out, r),
    }
}

// Peer 3 has "a" with the same block twice.
pub fn twice(rt: &impl Print) -> io::Result<()> {
    let mut t = [0u8; 112];
    build::two(&mut t, b"a", 5, 1, 5, 1);
    let none: &[u8] = b"\x00\x00\x00\x00";
    list(rt, "no table has a record", none, none, none, none, 0)?;
    list(rt, "a hash at two positions", none, none, none, &t, 96)?;
    list(rt, "a buffer that just fits", none, none, none, &t, 48)?;
    list(rt, "a buffer one byte short", none, none, none, &t, 47)?;
    list(rt, "a buffer one entry short", none, none, none, &t, 24)?;
    list(rt, "nothing missing", &t, none, none, &t, 0)
}

// The highest record, of peer 2, has blocks of 5 and 7 bytes; in peer 1's older one the block of 7 is the third.
pub fn cut_differently(rt: &impl Print) -> io::Result<()> {
    let mut a = [0u8; 152];
    let mut b = [0u8; 112];
    build::three(&mut a);
    build::two(&mut b, b"a", 5, 1, 7, 2);
    let none: &[u8] = b"\x00\x00\x00\x00";
    list(
        rt,
        "under another block number at peer 1",
        none,
        &a,
        &b,
        none,
        96,
    )?;
    list(rt, "without peer 1", none, none, &b, none, 96)?;
    list(rt, "peers 2 and 3 alike", none, none, &b, &b, 96)
}

// The local "a" has the first block of peer 2's "b".
pub fn held(rt: &impl Print) -> io::Result<()> {
    let mut a = [0u8; 72];
    build::one(&mut a, b"a", 0, 131072, 1);
    missing(rt, "a block held under another name", &a)?;
    build::one(&mut a, b"a", 8192, 131072, 1);
    missing(rt, "the same block in an invalid record", &a)
}

fn missing(rt: &impl Print, label: &str, local: &[u8]) -> io::Result<()> {
    let none: &[u8] = b"\x00\x00\x00\x00";
    let mut b = [0u8; 112];
    build::two(&mut b, b"b", 131072, 1, 5, 2);
    list(rt, label, local, none, &b, none, 96)
}

pub fn bad(rt: &impl Print) -> io::Result<()> {
    let none: &[u8] = b"\x00\x00\x00\x00";
    list(rt, "the local one no table", b"", none, none, none, 96)?;
    list(
        rt,
        "peer 3's no table",
        none,
        none,
        none,
        b"\x00\x00\x00",
        96,
    )
}

// 910 blocks each of three peers, and one more.
pub fn full(rt: &impl Print) -> io::Result<()> {
    let none: &[u8] = b"\x00\x00\x00\x00";
    let mut a = [0u8; 36432];
    let mut b = [0u8; 36432];
    build::many(&mut a, b"a", 910);
    build::many(&mut b, b"b", 910);
    let mut c = [0u8; 36472];
    build::many(&mut c, b"c", 911);
    list(rt, "2,731 entries", none, &a, &b, &c, 65536)?;
    build::many(&mut c, b"c", 910);
    list(
        rt,
        "2,730 entries",
        none,
        &a,
        &b,
        order::part(&c, 0, 36432),
        65536,
    )
}
