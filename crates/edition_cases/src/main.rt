// Messages of the old edition, read, written and turned, one case after another: what was given, and what came out.
#![tactic(auto)]

mod reading;
mod turning;
mod writing;

use std::io;

fn main(rt: HostRuntime) -> io::Result<()> {
    reading::vectors(&rt)?;
    reading::types(&rt)?;
    reading::bodies(&rt)?;
    writing::run(&rt)?;
    turning::up(&rt)?;
    turning::down(&rt)?;
    turning::back(&rt)
}
