// Says why a block isn't coming, by the tables in the files `local` and `peer1` to `peer4`: `why NAME BLOCK` prints one line.
#![tactic(auto)]

ghost use Rattle.std.specs.Prelude.{◌≤◌, length};

mod asked;
mod number;
mod print;

use files::Sizes;
use std::env::FillError;
use std::io;
use std::rt::{Env, Files};

// The line for a block of a name.
fn told(
    rt: &(impl AllocGlobal + Eprint + Files + Print),
    name: &[u8],
    block: u32,
) -> io::Result<()> {
    // one byte more than a table may have
    let mut local = [0u8; 65537];
    let mut peer1 = [0u8; 65537];
    let mut peer2 = [0u8; 65537];
    let mut peer3 = [0u8; 65537];
    let mut peer4 = [0u8; 65537];
    let sizes = Sizes {
        local: files::load(rt, b"local", &mut local),
        peer1: files::load(rt, b"peer1", &mut peer1),
        peer2: files::load(rt, b"peer2", &mut peer2),
        peer3: files::load(rt, b"peer3", &mut peer3),
        peer4: files::load(rt, b"peer4", &mut peer4),
    };
    let why = asked::why(&local, &peer1, &peer2, &peer3, &peer4, sizes, name, block);
    let written = match why {
        Ok(reason) => print::reason(rt, reason),
        Err(_) => {
            let a = files::first(&local, sizes.local);
            let b = files::first(&peer1, sizes.peer1);
            let c = files::first(&peer2, sizes.peer2);
            let d = files::first(&peer3, sizes.peer3);
            let e = files::first(&peer4, sizes.peer4);
            print::bad(rt, asked::first_bad(a, b, c, d, e))
        }
    };
    files::told(rt, written)
}

// Puts an argument into a buffer, and gives how many bytes it has: none where it is missing or does not fit.
fn argument(rt: &impl Env, i: usize, buf: &mut [u8]) -> usize
    ensures { result ≤ length buf.new }
{
    rt.arg(i, buf).unwrap_or(0)
}

// Whether there is an argument of a number.
fn is_given(rt: &impl Env, i: usize) -> bool {
    match rt.arg(i, &mut []) {
        Ok(_) | Err(FillError::TooLong) => true,
        Err(FillError::NotPresent) => false,
    }
}

// By the arguments: a name and a block number.
fn answered(rt: &(impl AllocGlobal + Env + Eprint + Files + Print)) -> io::Result<()> {
    // A longer name than fits is in no table, and neither is the empty one that then stands there.
    let mut name = [0u8; 255];
    let size = argument(rt, 1, &mut name);
    let mut digits = [0u8; 10];
    let count = argument(rt, 2, &mut digits);
    if !is_given(rt, 2) || is_given(rt, 3) {
        return files::told(rt, print::usage(rt));
    }
    match number::read(&digits[..count]) {
        Some(block) => told(rt, &name[..size], block),
        None => files::told(rt, print::usage(rt)),
    }
}

fn main(rt: HostRuntime) -> io::Result<()> {
    answered(&rt)
}
