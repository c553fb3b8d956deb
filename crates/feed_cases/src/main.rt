// Messages read run by run, one case after another: each run, what was said after it, how many of its bytes were taken, and the header.
#![tactic(auto)]

mod bodies;
mod ends;
mod forged;
mod line;
mod strings;
mod whole;

use std::io;

fn main(rt: HostRuntime) -> io::Result<()> {
    whole::vectors(&rt)?;
    whole::bytewise(&rt)?;
    whole::empty_runs(&rt)?;
    ends::after_the_end(&rt)?;
    ends::after_a_refusal(&rt)?;
    ends::types(&rt)?;
    strings::pads(&rt)?;
    strings::texts(&rt)?;
    strings::names(&rt)?;
    bodies::indexes(&rt)?;
    bodies::types(&rt)?;
    bodies::faults(&rt)?;
    bodies::long_response(&rt)?;
    forged::run(&rt)
}
