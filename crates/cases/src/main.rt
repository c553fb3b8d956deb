// Runs worked bytes through the proved functions and prints one line a case: what was given, and what came out.
#![tactic(auto)]

mod leaves;
mod messages;
mod names;
mod records;

use std::io;

fn main(rt: HostRuntime) -> io::Result<()> {
    leaves::words(&rt)?;
    leaves::opaques(&rt)?;
    leaves::texts(&rt)?;
    leaves::puts(&rt)?;
    records::run(&rt)?;
    names::run(&rt)?;
    messages::vectors(&rt)?;
    messages::writers(&rt)?;
    messages::names(&rt)
}
