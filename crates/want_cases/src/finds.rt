// Searches for a block.
use crate::build;
use std::io;

// A block of so many bytes whose hash is a number.
fn find(rt: &impl Print, label: &str, table: &[u8], size: u32, number: u32) -> io::Result<()> {
    let mut hash = [0u8; 32];
    xdr::put_word(&mut hash, 0, number);
    print!(rt; "find, {label}: ")?;
    match want::find_local(table, size, &hash) {
        Ok(Some(x)) => println!(rt; "record {} block {}", x.record, x.block),
        Ok(None) => println!(rt; "nothing"),
        Err(r) => lines::refusal(rt, r),
    }
}

pub fn run(rt: &impl Print) -> io::Result<()> {
    let mut t = [0u8; 180];
    build::both(&mut t);
    find(rt, "in a valid record behind an invalid one", &t, 5, 1)?;
    find(rt, "the first block of a record", &t, 5, 2)?;
    find(rt, "another hash", &t, 5, 3)?;
    find(rt, "another Length", &t, 6, 1)?;
    find(rt, "in the empty table", b"\x00\x00\x00\x00", 5, 1)?;
    find(rt, "no table", b"", 5, 1)
}
