// The requests of one peer, while the others have none.
use crate::calls;
use queue::RequestQueue;
use std::io;

// The window of peer 1 stated, and no other.
fn open_with(rt: &impl Print, window: u32) -> io::Result<RequestQueue> {
    calls::open(rt, [Some(window), None, None, None])
}

pub fn run(rt: &impl Print) -> io::Result<()> {
    println!(rt; "no window stated")?;
    allowance(rt, calls::open(rt, [None; 4])?)?;
    println!(rt; "window 16")?;
    allowance(rt, open_with(rt, 16)?)?;
    println!(rt; "window 4")?;
    allowance(rt, open_with(rt, 4)?)?;
    ids(rt)?;
    outcomes(rt)?;
    contents(rt)?;
    drops(rt)?;
    refused_issues(rt)?;
    openings(rt)
}

// Four requests of 131,072 bytes, and a fifth of as many and of one.
fn allowance(rt: &impl Print, q: RequestQueue) -> io::Result<()> {
    let q = calls::twice(rt, calls::twice(rt, q, 1, 131072)?, 1, 131072)?;
    let q = calls::issue(rt, q, 1, 131072)?;
    let q = calls::issue(rt, q, 1, 1)?;
    again(rt, q, 0, 0, 1)?;
    Ok(())
}

// An answer, and another request in the freed room.
fn again(
    rt: &impl Print,
    q: RequestQueue,
    id: u32,
    n: usize,
    size: u32,
) -> io::Result<RequestQueue> {
    let q = calls::answer(rt, q, 1, id, n)?;
    calls::issue(rt, q, 1, size)
}

// 4,096 issues and answers use every ID.
fn ids(rt: &impl Print) -> io::Result<()> {
    println!(rt; "IDs")?;
    let q = calls::pairs(open_with(rt, 16)?, 1, 4095);
    let q = calls::twice(rt, q, 1, 5)?;
    let q = calls::answer(rt, q, 1, 0, 5)?;
    let q = calls::answer(rt, q, 1, 4095, 5)?;
    calls::answer(rt, q, 1, 0, 5)?;
    Ok(())
}

// Data, none, or too little: each frees the room.
fn outcomes(rt: &impl Print) -> io::Result<()> {
    println!(rt; "outcomes")?;
    let q = calls::twice(rt, open_with(rt, 1)?, 1, 5)?;
    let q = again(rt, q, 0, 5, 5)?;
    let q = again(rt, q, 1, 0, 5)?;
    let q = again(rt, q, 2, 4, 5)?;
    others(rt, q)
}

// Messages that answer nothing, and too much data.
fn others(rt: &impl Print, q: RequestQueue) -> io::Result<()> {
    let q = calls::message(rt, q, 1, b"\x00\x03\x05\x00")?;
    let q = calls::message(rt, q, 1, b"\x00\x03\x03\x00\x00\x00\x00")?;
    calls::answer(rt, q, 1, 3, 6)?;
    Ok(())
}

// Data of the right length with another hash, which frees the room too. Each answer is held to the hash of its own request.
fn contents(rt: &impl Print) -> io::Result<()> {
    println!(rt; "contents")?;
    let q = calls::twice(rt, open_with(rt, 1)?, 1, 5)?;
    let q = calls::answer_otherwise(rt, q, 1, 0, 5)?;
    let q = calls::issue(rt, q, 1, 5)?;
    calls::answer(rt, q, 1, 1, 5)?;
    let q = calls::issue(rt, open_with(rt, 3)?, 1, 5)?;
    let q = calls::twice(rt, q, 1, 7)?;
    each(rt, q)
}

// The first as asked, the second with other bytes, the third with too few of these, and the fourth with none.
fn each(rt: &impl Print, q: RequestQueue) -> io::Result<()> {
    let q = calls::answer(rt, q, 1, 0, 5)?;
    let q = calls::answer_otherwise(rt, q, 1, 1, 7)?;
    let q = calls::issue(rt, q, 1, 9)?;
    let q = calls::answer_otherwise(rt, q, 1, 2, 5)?;
    let q = calls::answer_otherwise(rt, q, 1, 3, 0)?;
    calls::issue(rt, q, 1, 9)?;
    Ok(())
}

fn drops(rt: &impl Print) -> io::Result<()> {
    println!(rt; "drops")?;
    let q = calls::issue(rt, open_with(rt, 2)?, 1, 131072)?;
    let q = calls::issue(rt, q, 1, 7)?;
    let q = calls::drop_link(rt, q, 1)?;
    let q = again(rt, q, 0, 0, 9)?;
    calls::answer(rt, q, 1, 2, 9)?;
    Ok(())
}

// A refused issue uses no ID.
fn refused_issues(rt: &impl Print) -> io::Result<()> {
    println!(rt; "refused issues")?;
    let q = open_with(rt, 16)?;
    let q = calls::issue_into(rt, q, 1, 5, 67)?;
    let q = calls::issue(rt, q, 1, 0)?;
    let q = calls::issue_into(rt, q, 1, 131073, 0)?;
    calls::issue(rt, q, 1, 5)?;
    Ok(())
}

// A window that is not 1 to 16.
fn openings(rt: &impl Print) -> io::Result<()> {
    println!(rt; "openings")?;
    let q = open_with(rt, 0)?;
    let q = calls::issue(rt, q, 1, 5)?;
    let q = calls::answer(rt, q, 1, 0, 0)?;
    calls::drop_link(rt, q, 1)?;
    open_with(rt, 17)?;
    Ok(())
}
