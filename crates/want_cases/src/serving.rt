// The ruling on messages. Ours are the Repository "r" and "b" with blocks of 5 and 7 bytes.
use crate::build;
use lines::Hex;
use serve::Serving;
use std::io;
use xdr::Refusal;

// What is served or replied and the whole buffer, or the refusal and whether the buffer is as it was.
fn answer(rt: &impl Print, s: Result<Serving, Refusal>, out: &[u8]) -> io::Result<()> {
    match s {
        Ok(Serving::Served { name, offset, size }) => {
            println!(rt;
                ": served, name {}+{}, offset {offset}, length {size}, buffer {}",
                name.start,
                name.length,
                Hex(out)
            )
        }
        Ok(Serving::Replied(n)) => println!(rt; ": replied {n}, buffer {}", Hex(out)),
        Err(r) => lines::refused(rt, out, r),
    }
}

// A message to a table, with a buffer of so many bytes.
fn rule(rt: &impl Print, label: &str, table: &[u8], message: &[u8], room: usize) -> io::Result<()> {
    let mut out = [0xeeu8; 12];
    if room > out.len() {
        return Ok(());
    }
    let s = serve::serve(table, b"r", message, &mut out[..room]);
    print!(rt; "serve, {label}")?;
    answer(rt, s, &out)
}

// A Request with these fields, to our table.
fn ask(
    rt: &impl Print,
    label: &str,
    repository: &[u8],
    name: &[u8],
    offset: u64,
    size: u32,
    hash: u32,
    room: usize,
) -> io::Result<()> {
    let mut t = [0u8; 112];
    let mut m = [0u8; 68];
    build::two(&mut t, b"b", 5, 1, 7, 2);
    build::request(&mut m, repository, name, offset, size, hash);
    rule(rt, label, &t, &m, room)
}

// One to our Repository and file.
fn near(
    rt: &impl Print,
    label: &str,
    offset: u64,
    size: u32,
    hash: u32,
    room: usize,
) -> io::Result<()> {
    ask(rt, label, b"r", b"b", offset, size, hash, room)
}

pub fn ours(rt: &impl Print) -> io::Result<()> {
    near(rt, "the first block", 0, 5, 1, 12)?;
    near(rt, "the second block", 5, 7, 2, 12)?;
    near(rt, "with no buffer", 5, 7, 2, 0)
}

pub fn others(rt: &impl Print) -> io::Result<()> {
    ask(rt, "another Repository", b"s", b"b", 5, 7, 2, 12)?;
    ask(rt, "another Name", b"r", b"c", 5, 7, 2, 12)?;
    near(rt, "an Offset above", 6, 7, 2, 12)?;
    near(rt, "an Offset below", 4, 7, 2, 12)?;
    near(rt, "a Length above", 5, 8, 2, 12)?;
    near(rt, "a Length below", 5, 6, 2, 12)
}

pub fn replies(rt: &impl Print) -> io::Result<()> {
    near(rt, "another hash", 5, 7, 3, 12)?;
    near(rt, "a buffer that just fits", 5, 7, 3, 8)?;
    near(rt, "a buffer one byte short", 5, 7, 3, 7)
}

pub fn refusals(rt: &impl Print) -> io::Result<()> {
    let mut m = [0u8; 68];
    build::request(&mut m, b"r", b"b", 5, 7, 2);
    rule(rt, "no table", b"", &m, 12)?;
    let none: &[u8] = b"\x00\x00\x00\x00";
    rule(rt, "a Ping", none, b"\x00\x00\x04\x00", 12)?;
    rule(rt, "the empty table", none, &m, 12)?;
    rule(rt, "a Request cut short", none, order::part(&m, 0, 67), 12)
}
