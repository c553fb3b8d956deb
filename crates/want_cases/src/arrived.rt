// When everything has arrived: nothing is asked for, and merging again changes no byte.
use crate::{build, lists};
use std::io;

// Merges two tables into a buffer, and gives how many bytes it filled: none where it is refused.
fn merged(rt: &impl Print, label: &str, a: &[u8], b: &[u8], out: &mut [u8]) -> io::Result<usize> {
    print!(rt; "merge, {label}")?;
    match merge::merge(a, b, out) {
        Ok(n) => {
            println!(rt; ": filled {n}")?;
            Ok(n)
        }
        Err(r) => {
            lines::refused(rt, out, r)?;
            Ok(0)
        }
    }
}

// The same table comes back.
fn again(rt: &impl Print, label: &str, all: &[u8], other: &[u8]) -> io::Result<()> {
    let mut out = [0xeeu8; 140];
    let n = merged(rt, label, all, other, &mut out)?;
    if order::compare_bytes(order::part(&out, 0, n), all).is_eq() {
        println!(rt; " the same bytes")
    } else {
        println!(rt; " OTHER bytes")
    }
}

// The local "a" is older than peer 1's, which has a block of 5 bytes; peers 2 and 3 have "b" with another; peer 4 has nothing.
pub fn run(rt: &impl Print) -> io::Result<()> {
    let mut local = [0u8; 32];
    let mut a = [0u8; 72];
    let mut b = [0u8; 72];
    build::old(&mut local, b"a");
    build::one(&mut a, b"a", 0, 5, 1);
    build::one(&mut b, b"b", 0, 5, 2);
    lists::list(rt, "nothing has arrived", &local, &a, &b, &b, 96)?;
    fetched(rt, &local, &a, &b)
}

fn fetched<'a>(rt: &impl Print, local: &'a [u8], a: &'a [u8], b: &'a [u8]) -> io::Result<()> {
    let mut left = [0u8; 140];
    let mut right = [0u8; 140];
    let mut both = [0u8; 140];
    let n = merged(rt, "the local table with peer 1's", local, a, &mut left)?;
    let m = merged(rt, "peer 2's with peer 3's", b, b, &mut right)?;
    let k = merged(
        rt,
        "these two",
        order::part(&left, 0, n),
        order::part(&right, 0, m),
        &mut both,
    )?;
    last(rt, order::part(&both, 0, k), local, a, b)
}

fn last<'a>(
    rt: &impl Print,
    both: &'a [u8],
    local: &'a [u8],
    a: &'a [u8],
    b: &'a [u8],
) -> io::Result<()> {
    let mut all = [0u8; 140];
    let n = merged(rt, "with peer 4's", both, b"\x00\x00\x00\x00", &mut all)?;
    arrived(rt, order::part(&all, 0, n), local, a, b)
}

fn arrived<'a>(
    rt: &impl Print,
    all: &'a [u8],
    local: &'a [u8],
    a: &'a [u8],
    b: &'a [u8],
) -> io::Result<()> {
    lists::list(rt, "everything has arrived", all, a, b, b, 0)?;
    again(rt, "again with the local table", all, local)?;
    again(rt, "again with peer 1's", all, a)?;
    again(rt, "again with itself", all, all)
}
