// Accepting an Index or an IndexUpdate.
use crate::{build, filling};
use std::io;

const OLDER: u64 = 18446744073709551615;

// Into a buffer of so many bytes.
fn accept(
    rt: &impl Print,
    label: &str,
    old: &[u8],
    message: &[u8],
    repository: &[u8],
    room: usize,
) -> io::Result<()> {
    print!(rt; "accept, ")?;
    filling::show(rt, label, room, |out| {
        accept::accept(old, message, repository, out)
    })
}

// A message of two records, whose Modified are -1 and 0. Its type is the number in the header.
fn pair(kind: u8, name: &[u8], other: &[u8]) -> [u8; 72] {
    let mut message = [0u8; 72];
    message[..12].copy_from_slice(&build::head(kind));
    message[12..].copy_from_slice(&build::two(name, OLDER, 9, other, 0));
    message
}

// Names are "aaaa" to "cccc"; the old table has the first two, with Modified 7.
pub fn small(rt: &impl Print) -> io::Result<()> {
    let old = build::two(b"aaaa", 7, 1, b"bbbb", 7);
    given(rt, &old)?;
    refused(rt, &old)?;
    rooms(rt, &old)
}

fn given(rt: &impl Print, old: &[u8]) -> io::Result<()> {
    let index = pair(1, b"bbbb", b"cccc");
    let update = pair(6, b"bbbb", b"cccc");
    let reversed = pair(6, b"cccc", b"bbbb");
    accept(
        rt,
        "an Index gives its records and no others",
        old,
        &index,
        b"r",
        96,
    )?;
    accept(
        rt,
        "an IndexUpdate, Modified -1 in place of 7",
        old,
        &update,
        b"r",
        96,
    )?;
    accept(
        rt,
        "an IndexUpdate with its names in reverse",
        old,
        &reversed,
        b"r",
        96,
    )?;
    of_no_records(rt, old)
}

fn of_no_records(rt: &impl Print, old: &[u8]) -> io::Result<()> {
    accept(
        rt,
        "an Index of no records",
        old,
        b"\x00\x00\x01\x00\x00\x00\x00\x01r\x00\x00\x00\x00\x00\x00\x00",
        b"r",
        96,
    )?;
    accept(
        rt,
        "an IndexUpdate of no records",
        old,
        b"\x00\x00\x06\x00\x00\x00\x00\x01r\x00\x00\x00\x00\x00\x00\x00",
        b"r",
        96,
    )
}

fn refused(rt: &impl Print, old: &[u8]) -> io::Result<()> {
    let index = pair(1, b"bbbb", b"cccc");
    let twice = pair(6, b"cccc", b"cccc");
    named(rt, old, &index, &twice)?;
    unread(rt, old, &index)
}

fn named(rt: &impl Print, old: &[u8], index: &[u8], twice: &[u8]) -> io::Result<()> {
    accept(rt, "a name twice", old, twice, b"r", 96)?;
    accept(rt, "another repository", old, index, b"s", 96)?;
    accept(
        rt,
        "a name twice, and another repository",
        old,
        twice,
        b"",
        96,
    )
}

fn unread(rt: &impl Print, old: &[u8], index: &[u8; 72]) -> io::Result<()> {
    accept(
        rt,
        "a Response",
        old,
        b"\x00\x02\x03\x00\x00\x00\x00\x00",
        b"r",
        96,
    )?;
    accept(rt, "a message cut short", old, &index[..71], b"r", 96)?;
    accept(rt, "a bad old table and an Index", b"", index, b"r", 96)?;
    accept(rt, "a bad old table and no message", b"\x00", b"", b"r", 96)
}

fn rooms(rt: &impl Print, old: &[u8]) -> io::Result<()> {
    let update = pair(6, b"bbbb", b"cccc");
    accept(rt, "a buffer that just fits", old, &update, b"r", 88)?;
    accept(rt, "a buffer one byte short", old, &update, b"r", 87)
}

// An IndexUpdate of the records of the numbers from first up to last.
fn update(out: &mut [u8], first: u32, last: u32) {
    if let Some((head, array)) = out.split_at_mut_checked(12) {
        head.copy_from_slice(&build::head(6));
        build::many(array, first, last);
    }
}

// 256 records and an IndexUpdate of 256 or 257 others.
pub fn records(rt: &impl Print) -> io::Result<()> {
    let mut old = [0u8; 7172];
    build::many(&mut old, 0, 256);
    let mut fits = [0u8; 7184];
    update(&mut fits, 256, 512);
    accept(rt, "512 records", &old, &fits, b"r", 14400)?;
    let mut above = [0u8; 7212];
    update(&mut above, 256, 513);
    accept(rt, "513 records", &old, &above, b"r", 14400)
}
