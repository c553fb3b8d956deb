// Calls for a peer that there is not, and queues that no calls give: 23, then 22, before anything else.
use crate::{calls, four_peers};
use link::{Link, Request};
use queue::RequestQueue;
use std::io;

pub fn run(rt: &impl Print) -> io::Result<()> {
    println!(rt; "peers 0 and 5")?;
    strangers(rt, calls::issue(rt, four_peers::open(rt)?, 1, 5)?)?;
    strangers(rt, calls::open(rt, [Some(0); 4])?)?;
    unsound_peer(rt)?;
    totals(rt)
}

// Whether the queue is sound or not.
fn strangers(rt: &impl Print, q: RequestQueue) -> io::Result<()> {
    stranger(rt, stranger(rt, q, 0)?, 5)?;
    Ok(())
}

// The Length and the message would be refused too.
fn stranger(rt: &impl Print, q: RequestQueue, peer: u32) -> io::Result<RequestQueue> {
    let q = calls::issue(rt, q, peer, 0)?;
    let q = calls::message(rt, q, peer, b"\x00\x00\x05\x00")?;
    calls::drop_link(rt, q, peer)
}

fn queue_of(links: [Link; 4]) -> RequestQueue {
    RequestQueue {
        links,
        hashes: [0u8; 2048],
    }
}

// The call is for a peer whose own list is sound, or for the one whose isn't, or for none.
fn unsound_peer(rt: &impl Print) -> io::Result<()> {
    println!(rt; "given: ID 3 before the next ID 5 for peer 2")?;
    let sound = Link::empty(4);
    let unsound = Link {
        window: 16,
        next: 5,
        count: 1,
        entries: [Request { id: 3, size: 5 }; 16],
    };
    let q = queue_of([sound, unsound, sound, sound]);
    let q = calls::issue(rt, q, 1, 5)?;
    let q = calls::answer(rt, q, 3, 0, 0)?;
    let q = calls::drop_link(rt, q, 4)?;
    let q = calls::drop_link(rt, q, 2)?;
    calls::drop_link(rt, q, 5)?;
    Ok(())
}

// Two requests.
fn holding(first: u32, second: u32) -> Link {
    let mut l = Link::empty(4);
    l.entries[0] = Request { id: 0, size: first };
    l.entries[1] = Request {
        id: 1,
        size: second,
    };
    l.count = 2;
    l.next = 2;
    l
}

// Four lists that are sound each by itself, with as many bytes together as are allowed, and with one more.
fn totals(rt: &impl Print) -> io::Result<()> {
    println!(rt; "given: 131072 bytes for each")?;
    let l = holding(65536, 65536);
    let q = calls::issue(rt, queue_of([l; 4]), 1, 1)?;
    calls::drop_link(rt, q, 4)?;
    println!(rt; "given: 131073 bytes for peer 4, and 131072 for each other")?;
    let q = queue_of([l, l, l, holding(65536, 65537)]);
    let q = calls::issue(rt, q, 1, 1)?;
    let q = calls::answer(rt, q, 2, 0, 0)?;
    calls::drop_link(rt, q, 4)?;
    Ok(())
}
