// Prints the records of the table in the file `table`, a line each, or only `refused` and the number.
#![tactic(auto)]

mod line;

use std::io;
use walker::Walker;

// A line for each record from the first on. A good table has at most 512, and the last turn meets the end.
fn list(rt: &impl Print, table: &[u8]) -> io::Result<()> {
    let mut walker = Walker::open(table);
    for number in 0..=512 {
        let step = walker.step();
        if !line::show(rt, table, number, step)? {
            return Ok(());
        }
    }
    Ok(())
}

fn main(rt: HostRuntime) -> io::Result<()> {
    let Ok(mut file) = files::open(&rt, b"table") else {
        return files::told(&rt, line::refused(&rt, 15));
    };
    // one byte more than a table may have
    let mut buffer = [0u8; 65537];
    let n = files::read_full(&mut file, &mut buffer);
    files::told(&rt, list(&rt, &buffer[..n]))
}
