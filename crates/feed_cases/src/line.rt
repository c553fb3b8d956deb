// What a line is made of.
use feed::Feed;
use lines::Hex;
use message::Edition;
use std::io;

// The edition and what the case is about, and a state for it.
fn open(rt: &impl Print, edition: Edition, label: &str) -> io::Result<Feed> {
    let link = match edition {
        Edition::Old => "old",
        Edition::New => "new",
    };
    print!(rt; "{link}, {label}:")?;
    Ok(Feed::open(edition))
}

// The bytes of a run, or how many a long one has.
fn shown(rt: &impl Print, run: &[u8]) -> io::Result<()> {
    if run.len() <= 64 {
        print!(rt; " [{}] ", Hex(run))
    } else {
        print!(rt; " [{} bytes] ", run.len())
    }
}

// A run, fed to a state: what was said, while it waits how many bytes are missing, and how many were taken.
fn fed(rt: &impl Print, state: Feed, run: &[u8]) -> io::Result<Feed> {
    shown(rt, run)?;
    let led = state.feed(run);
    match led.answer {
        Ok(None) => print!(rt; "waiting for {}", led.state.missing())?,
        Ok(Some(end)) => print!(rt; "ended at {end}")?,
        Err(r) => print!(rt; "refused {} at {}", r.number, r.place)?,
    }
    print!(rt; ", taken {};", led.taken)?;
    Ok(led.state)
}

// The header, and the end of the line.
fn close(rt: &impl Print, state: Feed) -> io::Result<()> {
    match state.header() {
        Some(header) => println!(rt; " type {}, ID {}", header.kind, header.id),
        None => println!(rt; " no header yet"),
    }
}

// Some runs, fed to a state one after another, and the end of the line.
pub fn all(rt: &impl Print, mut state: Feed, runs: &[&[u8]]) -> io::Result<()> {
    for run in runs {
        state = fed(rt, state, run)?;
    }
    close(rt, state)
}

// A line of some runs.
pub fn line(rt: &impl Print, edition: Edition, label: &str, runs: &[&[u8]]) -> io::Result<()> {
    let state = open(rt, edition, label)?;
    all(rt, state, runs)
}

// A line of bytes that come one by one.
pub fn each(rt: &impl Print, edition: Edition, label: &str, bytes: &[u8]) -> io::Result<()> {
    let mut state = open(rt, edition, label)?;
    for b in bytes {
        state = fed(rt, state, &[*b])?;
    }
    close(rt, state)
}
