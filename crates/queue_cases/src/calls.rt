// The calls, each with its line.
use crate::line;
use lines::Hex;
use queue::{Answered, Emptied, Issued, RequestQueue};
use std::io;

pub fn open(rt: &impl Print, windows: [Option<u32>; 4]) -> io::Result<RequestQueue> {
    line::opening(rt, windows)?;
    let Emptied { queue, verdict } = RequestQueue::open(windows);
    line::verdict(rt, verdict)?;
    line::opened(rt, queue)?;
    Ok(queue)
}

pub fn drop_link(rt: &impl Print, q: RequestQueue, peer: u32) -> io::Result<RequestQueue> {
    print!(rt; "peer {peer} drop: ")?;
    let Emptied { queue, verdict } = q.drop_link(peer);
    line::verdict(rt, verdict)?;
    line::outstanding(rt, queue, peer)?;
    Ok(queue)
}

// The hash of so many bytes 0xd7, which `answer` brings. More than 16 are never answered with data: for those it is any hash.
fn asked(size: u32) -> [u8; 32] {
    if 16 < size {
        return [0xa7u8; 32];
    }
    sha256::digest(&[0xd7u8; 16][..size as usize])
}

// Asks for the first bytes of the file "a" in the repository "r".
pub fn issue(rt: &impl Print, q: RequestQueue, peer: u32, size: u32) -> io::Result<RequestQueue> {
    issue_into(rt, q, peer, size, 68)
}

// The same with so much room for the Request, which is 68 bytes long.
pub fn issue_into(
    rt: &impl Print,
    q: RequestQueue,
    peer: u32,
    size: u32,
    room: usize,
) -> io::Result<RequestQueue> {
    print!(rt; "peer {peer} issue {size} bytes: ")?;
    let mut out = [0u8; 68];
    if 68 < room {
        return Ok(q);
    }
    let hash = asked(size);
    let Issued { queue, id, filling } = q.issue(peer, b"r", b"a", 0, size, &hash, &mut out[..room]);
    line::issued(rt, id, filling)?;
    line::outstanding(rt, queue, peer)?;
    Ok(queue)
}

// Two requests of one Length.
pub fn twice(rt: &impl Print, q: RequestQueue, peer: u32, size: u32) -> io::Result<RequestQueue> {
    let q = issue(rt, q, peer, size)?;
    issue(rt, q, peer, size)
}

pub fn message(rt: &impl Print, q: RequestQueue, peer: u32, s: &[u8]) -> io::Result<RequestQueue> {
    print!(rt; "peer {peer} answer {}: ", Hex(s))?;
    let Answered { queue, arrival } = q.answer(peer, s);
    line::arrival(rt, arrival)?;
    line::outstanding(rt, queue, peer)?;
    Ok(queue)
}

// A Response with so many bytes of data, up to 16.
fn response(
    rt: &impl Print,
    q: RequestQueue,
    peer: u32,
    id: u32,
    n: usize,
    byte: u8,
) -> io::Result<RequestQueue> {
    if 16 < n {
        return Ok(q);
    }
    let mut out = [0u8; 24];
    let data = [byte; 16];
    let Ok(m) = message_write::write_response(&mut out, id, &data[..n]) else {
        return Ok(q);
    };
    if 24 < m {
        return Ok(q);
    }
    message(rt, q, peer, &out[..m])
}

// The bytes that were asked for, where they are as many.
pub fn answer(
    rt: &impl Print,
    q: RequestQueue,
    peer: u32,
    id: u32,
    n: usize,
) -> io::Result<RequestQueue> {
    response(rt, q, peer, id, n, 0xd7)
}

// Other bytes.
pub fn answer_otherwise(
    rt: &impl Print,
    q: RequestQueue,
    peer: u32,
    id: u32,
    n: usize,
) -> io::Result<RequestQueue> {
    response(rt, q, peer, id, n, 0xd6)
}

// Issues and answers, without lines.
pub fn pairs(q: RequestQueue, peer: u32, times: u32) -> RequestQueue {
    let mut queue = q;
    for _ in 0..times {
        queue = pair(queue, peer);
    }
    queue
}

fn pair(q: RequestQueue, peer: u32) -> RequestQueue {
    let mut out = [0u8; 68];
    let Issued { queue, id, filling } = q.issue(peer, b"r", b"a", 0, 5, &[0xa7u8; 32], &mut out);
    let mut reply = [0u8; 8];
    if filling.is_err() || message_write::write_response(&mut reply, id, b"").is_err() {
        return queue;
    }
    queue.answer(peer, &reply).queue
}
