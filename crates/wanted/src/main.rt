// Prints which blocks to request and from whom, by the tables in the files `local` and `peer1` to `peer4`: a line a block and a closing
// line, or only `refused` and the number.
#![tactic(auto)]

mod entry;
mod print;
mod request;

use files::Sizes;
use std::io;

fn main(rt: HostRuntime) -> io::Result<()> {
    // one byte more than a table may have
    let mut local = [0u8; 65537];
    let mut peer1 = [0u8; 65537];
    let mut peer2 = [0u8; 65537];
    let mut peer3 = [0u8; 65537];
    let mut peer4 = [0u8; 65537];
    let sizes = Sizes {
        local: files::load(&rt, b"local", &mut local),
        peer1: files::load(&rt, b"peer1", &mut peer1),
        peer2: files::load(&rt, b"peer2", &mut peer2),
        peer3: files::load(&rt, b"peer3", &mut peer3),
        peer4: files::load(&rt, b"peer4", &mut peer4),
    };
    let mut out = [0u8; 65536];
    let answer = request::list(&local, &peer1, &peer2, &peer3, &peer4, sizes, &mut out);
    let written = match answer {
        Ok(n) => print::list(&rt, &out, n),
        Err(r) => print::refused(&rt, r.number),
    };
    files::told(&rt, written)
}
