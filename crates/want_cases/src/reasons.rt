// Why a block isn't coming, and what a Request for it says.
use crate::build;
use reason::Reason;
use std::io;
use want::Details;
use xdr::Refusal;

fn answer(rt: &impl Print, why: Result<Reason, Refusal>) -> io::Result<()> {
    match why {
        Ok(Reason::NoSuchName) => println!(rt; "no such name"),
        Ok(Reason::Deleted) => println!(rt; "deleted"),
        Ok(Reason::Invalid) => println!(rt; "invalid"),
        Ok(Reason::NoSuchBlock) => println!(rt; "no such block"),
        Ok(Reason::Held { record, block }) => {
            println!(rt; "held by file {record} block {block}")
        }
        Ok(Reason::Wanted { peer }) => println!(rt; "wanted from peer {peer}"),
        Err(r) => lines::refusal(rt, r),
    }
}

fn say(rt: &impl Print, details: Result<Option<Details>, Refusal>) -> io::Result<()> {
    match details {
        Ok(Some(d)) => {
            println!(rt;
                "table {}, name {} to {}, offset {}, length {}, hash {}",
                d.table, d.name, d.stop, d.offset, d.size, d.hash
            )
        }
        Ok(None) => println!(rt; "nothing"),
        Err(r) => lines::refusal(rt, r),
    }
}

// By the local table and those of peers 2 and 3.
fn why<'a>(
    rt: &impl Print,
    label: &str,
    local: &'a [u8],
    b: &'a [u8],
    c: &'a [u8],
    name: &[u8],
    block: u32,
) -> io::Result<()> {
    let none: &[u8] = b"\x00\x00\x00\x00";
    print!(rt; "why, {label}: ")?;
    answer(rt, reason::why(local, none, b, c, none, name, block))
}

fn details<'a>(
    rt: &impl Print,
    label: &str,
    local: &'a [u8],
    b: &'a [u8],
    c: &'a [u8],
    file: u32,
    block: u32,
) -> io::Result<()> {
    let none: &[u8] = b"\x00\x00\x00\x00";
    print!(rt; "details, {label}: ")?;
    say(rt, want::details_of(local, none, b, c, none, file, block))
}

// The local table has "a", invalid, and "b"; peer 2 has "c", and peer 3 "d", deleted.
pub fn run(rt: &impl Print) -> io::Result<()> {
    let mut local = [0u8; 180];
    let mut b = [0u8; 112];
    let mut c = [0u8; 32];
    build::both(&mut local);
    build::two(&mut b, b"c", 5, 1, 7, 9);
    build::gone(&mut c, b"d");
    all(rt, &local, &b, &c)
}

fn all<'a>(rt: &impl Print, local: &'a [u8], b: &'a [u8], c: &'a [u8]) -> io::Result<()> {
    why(rt, "a name in no table", local, b, c, b"e", 0)?;
    why(rt, "a deleted record", local, b, c, b"d", 0)?;
    why(rt, "an invalid record", local, b, c, b"a", 0)?;
    why(rt, "a block past the last", local, b, c, b"c", 2)?;
    why(rt, "a block that another name has", local, b, c, b"c", 0)?;
    why(rt, "a local record's own block", local, b, c, b"b", 1)?;
    why(rt, "a block that is missing", local, b, c, b"c", 1)?;
    why(rt, "no table", local, b, b"", b"c", 1)?;
    details(rt, "of the block that is missing", local, b, c, 2, 1)?;
    details(rt, "of a local record", local, b, c, 1, 0)?;
    details(rt, "of a block past the last", local, b, c, 2, 2)?;
    details(rt, "of a file past the last", local, b, c, 4, 0)?;
    details(rt, "no table", local, b, b"", 2, 1)
}
