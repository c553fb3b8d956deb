// The lines.
use reason::Reason;
use std::io;

// How the program is called.
pub fn usage(rt: &impl Print) -> io::Result<()> {
    println!(rt; "usage: why NAME BLOCK")
}

// The table of a number that is not good: 0 is the local one.
pub fn bad(rt: &impl Print, table: u32) -> io::Result<()> {
    match table {
        0 => println!(rt; "bad table local"),
        _ => println!(rt; "bad table peer{table}"),
    }
}

// A reason.
pub fn reason(rt: &impl Print, why: Reason) -> io::Result<()> {
    match why {
        Reason::NoSuchName => println!(rt; "no such name"),
        Reason::Deleted => println!(rt; "deleted"),
        Reason::Invalid => println!(rt; "invalid"),
        Reason::NoSuchBlock => println!(rt; "no such block"),
        Reason::Held { record, block } => println!(rt; "held by file {record} block {block}"),
        Reason::Wanted { peer } => println!(rt; "wanted from peer {peer}"),
    }
}
