// The requests of four peers under one byte allowance.
use crate::calls;
use queue::RequestQueue;
use std::io;

pub fn run(rt: &impl Print) -> io::Result<()> {
    allowance(rt)?;
    both_full(rt)?;
    windows(rt)?;
    own(rt)?;
    drops(rt)?;
    all_dropped(rt)?;
    openings(rt)
}

// The default for all four.
pub fn open(rt: &impl Print) -> io::Result<RequestQueue> {
    calls::open(rt, [None; 4])
}

// A request of one Length for each.
fn each(rt: &impl Print, q: RequestQueue, size: u32) -> io::Result<RequestQueue> {
    let q = calls::issue(rt, q, 1, size)?;
    let q = calls::issue(rt, q, 2, size)?;
    let q = calls::issue(rt, q, 3, size)?;
    calls::issue(rt, q, 4, size)
}

// Four hold all of it, and no window is full. What an answer to one of them frees, another takes.
fn allowance(rt: &impl Print) -> io::Result<()> {
    println!(rt; "common allowance")?;
    let q = each(rt, each(rt, open(rt)?, 131072)?, 1)?;
    let q = calls::answer(rt, q, 2, 0, 0)?;
    let q = calls::issue(rt, q, 3, 131072)?;
    calls::issue(rt, q, 2, 1)?;
    Ok(())
}

// One peer holds all of it, with a full window: 16 comes for that one, and 17 for another.
fn both_full(rt: &impl Print) -> io::Result<()> {
    println!(rt; "window and allowance full")?;
    let q = calls::twice(rt, open(rt)?, 1, 131072)?;
    let q = calls::twice(rt, q, 1, 131072)?;
    let q = calls::issue(rt, q, 1, 1)?;
    calls::issue(rt, q, 2, 1)?;
    Ok(())
}

fn windows(rt: &impl Print) -> io::Result<()> {
    println!(rt; "own windows")?;
    let q = calls::open(rt, [Some(1), Some(2), None, Some(16)])?;
    let q = calls::twice(rt, q, 1, 5)?;
    let q = calls::issue(rt, calls::twice(rt, q, 2, 5)?, 2, 5)?;
    let q = calls::twice(rt, calls::twice(rt, q, 3, 5)?, 3, 5)?;
    let q = calls::issue(rt, q, 3, 5)?;
    let q = calls::twice(rt, calls::twice(rt, q, 4, 5)?, 4, 5)?;
    calls::issue(rt, q, 4, 5)?;
    Ok(())
}

// An answer goes by the oldest request of the peer that it comes from, with its ID, Length and hash.
fn own(rt: &impl Print) -> io::Result<()> {
    println!(rt; "own IDs and oldest requests")?;
    let q = calls::issue(rt, open(rt)?, 1, 5)?;
    let q = calls::issue(rt, q, 1, 7)?;
    let q = calls::issue(rt, q, 2, 7)?;
    let q = calls::answer(rt, q, 3, 0, 5)?;
    let q = calls::answer(rt, q, 1, 1, 7)?;
    let q = calls::answer_otherwise(rt, q, 1, 0, 5)?;
    let q = calls::answer(rt, q, 2, 1, 7)?;
    let q = calls::answer(rt, q, 2, 0, 7)?;
    calls::answer(rt, q, 1, 1, 7)?;
    Ok(())
}

// Frees the requests of one and no others; its next ID goes on.
fn drops(rt: &impl Print) -> io::Result<()> {
    println!(rt; "one peer dropped")?;
    let q = calls::issue(rt, open(rt)?, 1, 5)?;
    let q = calls::issue(rt, q, 2, 7)?;
    let q = calls::issue(rt, q, 2, 131072)?;
    let q = calls::issue(rt, q, 3, 9)?;
    let q = calls::drop_link(rt, q, 2)?;
    let q = calls::answer(rt, q, 2, 0, 7)?;
    let q = calls::issue(rt, q, 2, 7)?;
    let q = calls::answer(rt, q, 1, 0, 5)?;
    let q = calls::answer(rt, q, 3, 0, 9)?;
    calls::answer(rt, q, 2, 2, 7)?;
    Ok(())
}

// Then the whole allowance is free.
fn all_dropped(rt: &impl Print) -> io::Result<()> {
    println!(rt; "all four dropped")?;
    let q = each(rt, open(rt)?, 131072)?;
    let q = calls::drop_link(rt, q, 1)?;
    let q = calls::drop_link(rt, q, 2)?;
    let q = calls::drop_link(rt, q, 3)?;
    let q = calls::drop_link(rt, q, 4)?;
    let q = each(rt, q, 131072)?;
    calls::issue(rt, q, 1, 1)?;
    Ok(())
}

// One window that is not 1 to 16 refuses them all.
fn openings(rt: &impl Print) -> io::Result<()> {
    println!(rt; "openings for four")?;
    calls::open(rt, [Some(16), Some(1), None, None])?;
    calls::open(rt, [None, Some(17), None, Some(16)])?;
    calls::open(rt, [None, None, Some(0), None])?;
    let q = calls::open(rt, [Some(16), None, None, Some(17)])?;
    calls::issue(rt, q, 1, 5)?;
    Ok(())
}
