// The lines.
ghost use Rattle.std.specs.Prelude.{◌/◌, ◌≡◌};

use crate::entry::{BYTES, Entry, entry_of};
use std::io;

fn show(rt: &impl Print, e: Entry) -> io::Result<()> {
    println!(rt;
        "file {} block {} offset {} length {} peer {}",
        e.file, e.block, e.offset, e.size, e.peer
    )
}

// How many entries a list of so many bytes has.
fn count_in(bytes: usize) -> usize
    ensures { result ≡ bytes / 24 }
{
    bytes / BYTES
}

// A list of so many bytes.
pub fn list(rt: &impl Print, list: &[u8], bytes: usize) -> io::Result<()> {
    let count = count_in(bytes);
    entries(rt, list, count)?;
    println!(rt; "wanted {count}")
}

fn entries(rt: &impl Print, list: &[u8], count: usize) -> io::Result<()> {
    for i in 0..count {
        show(rt, entry_of(list, i))?;
    }
    Ok(())
}

pub fn refused(rt: &impl Print, number: u32) -> io::Result<()> {
    println!(rt; "refused {number}")
}
