// What a line is made of.
use link::Arrival;
use queue::RequestQueue;
use std::{fmt, io};
use xdr::Refusal;

// What is outstanding for a peer, where there is such a one.
fn own(rt: &impl Print, q: RequestQueue, peer: u32) -> io::Result<()> {
    if !queue::is_peer(peer) {
        return print!(rt; "no such peer");
    }
    let l = q.links[(peer - 1) as usize];
    print!(rt;
        "outstanding {} of {} bytes",
        l.outstanding(),
        l.outstanding_bytes()
    )
}

// The same, the bytes of all four, and the end of the line. A queue that is not sound has no common total.
pub fn outstanding(rt: &impl Print, q: RequestQueue, peer: u32) -> io::Result<()> {
    print!(rt; "; ")?;
    own(rt, q, peer)?;
    match q.sound_bytes() {
        Some(n) => println!(rt; ", {n} in all"),
        None => println!(rt; ", queue not sound"),
    }
}

// A window, stated or not.
#[derive(Clone, Copy)]
struct Window(Option<u32>);

impl fmt::Display for Window {
    fn fmt<W: fmt::Write>(&self, f: &mut fmt::Formatter<W>) -> fmt::Result {
        match self.0 {
            Some(n) => write!(f, "{n}"),
            None => write!(f, "default"),
        }
    }
}

// The windows that an opening is given.
pub fn opening(rt: &impl Print, windows: [Option<u32>; 4]) -> io::Result<()> {
    let [a, b, c, d] = windows;
    print!(rt;
        "open with windows {}, {}, {}, {}: ",
        Window(a),
        Window(b),
        Window(c),
        Window(d)
    )
}

// The windows after an opening, and the end of the line.
pub fn opened(rt: &impl Print, q: RequestQueue) -> io::Result<()> {
    let [a, b, c, d] = q.links;
    println!(rt;
        "; windows now {}, {}, {}, {}",
        a.window, b.window, c.window, d.window
    )
}

fn refused(rt: &impl Print, r: Refusal) -> io::Result<()> {
    print!(rt; "refused {} at {}", r.number, r.place)
}

pub fn verdict(rt: &impl Print, o: Result<(), Refusal>) -> io::Result<()> {
    match o {
        Ok(()) => print!(rt; "made"),
        Err(r) => refused(rt, r),
    }
}

pub fn issued(rt: &impl Print, id: u32, w: Result<usize, Refusal>) -> io::Result<()> {
    match w {
        Ok(n) => print!(rt; "ID {id} in {n} bytes"),
        Err(r) => refused(rt, r),
    }
}

pub fn arrival(rt: &impl Print, o: Result<Arrival, Refusal>) -> io::Result<()> {
    match o {
        Ok(Arrival::Data { id, size, data: d }) => {
            request(rt, "data", id, size)?;
            print!(rt; " at {}", d.start)
        }
        Ok(Arrival::NotAvailable { id, size }) => request(rt, "not available", id, size),
        Ok(Arrival::WrongSize { id, size }) => request(rt, "wrong size", id, size),
        Ok(Arrival::WrongContent { id, size }) => request(rt, "wrong content", id, size),
        Err(r) => refused(rt, r),
    }
}

fn request(rt: &impl Print, outcome: &str, id: u32, size: u32) -> io::Result<()> {
    print!(rt; "{outcome} for ID {id} of {size} bytes")
}
