// Runs queues of outstanding requests through the proved functions and prints one line a call: the peer, what was asked, what came out, and
// what is outstanding then, for that peer and in all. Then the digests of NIST's examples.
#![tactic(auto)]

mod calls;
mod digests;
mod four_peers;
mod line;
mod one_peer;
mod refusals;

use std::io;

fn main(rt: HostRuntime) -> io::Result<()> {
    one_peer::run(&rt)?;
    four_peers::run(&rt)?;
    refusals::run(&rt)?;
    digests::examples(&rt)
}
