// Runs tables and Requests through the proved functions and prints one case after another: what was given, and what came out.
#![tactic(auto)]

mod arrived;
mod build;
mod finds;
mod lists;
mod reasons;
mod serving;

use std::io;

fn main(rt: HostRuntime) -> io::Result<()> {
    lists::twice(&rt)?;
    lists::cut_differently(&rt)?;
    lists::held(&rt)?;
    lists::bad(&rt)?;
    lists::full(&rt)?;
    arrived::run(&rt)?;
    finds::run(&rt)?;
    reasons::run(&rt)?;
    serving::ours(&rt)?;
    serving::others(&rt)?;
    serving::replies(&rt)?;
    serving::refusals(&rt)
}
