// Runs tables through the proved functions and prints one line a case: what was given, and what came out.
#![tactic(auto)]

mod accepts;
mod build;
mod filling;
mod merges;
mod steps;

use std::io;

fn main(rt: HostRuntime) -> io::Result<()> {
    merges::small(&rt)?;
    merges::records(&rt)?;
    merges::bytes(&rt)?;
    accepts::small(&rt)?;
    accepts::records(&rt)?;
    steps::two(&rt)
}
