// Steps over a table.
use crate::build;
use lines::Hex;
use std::io;

fn step(rt: &impl Print, label: &str, table: &[u8], at: usize) -> io::Result<()> {
    print!(rt; "step, {label}: ")?;
    match walker::step_at(table, at) {
        Ok(Some(f)) => {
            println!(rt;
                "{} up to {}",
                Hex(order::part(table, f.name, f.stop)),
                f.past
            )
        }
        Ok(None) => println!(rt; "end"),
        Err(r) => lines::refusal(rt, r),
    }
}

pub fn two(rt: &impl Print) -> io::Result<()> {
    places(rt, &build::two(b"aaaa", 7, 1, b"bbbb", 7))
}

fn places(rt: &impl Print, t: &[u8; 60]) -> io::Result<()> {
    step(rt, "the first record", t, 4)?;
    step(rt, "the second record", t, 32)?;
    step(rt, "the end", t, 60)?;
    step(rt, "inside a record", t, 8)?;
    step(rt, "before the first record", t, 0)?;
    step(rt, "past the end", t, 61)?;
    step(rt, "far past the end", t, 18446744073709551615)?;
    step(rt, "the end of the empty table", b"\x00\x00\x00\x00", 4)?;
    step(rt, "no table", b"", 4)?;
    step(rt, "a table cut short", &t[..59], 4)
}
