// What comes after an end or a refusal, and what the edition decides.
use crate::line::line;
use message::Edition;
use std::io;

// Bytes after the end stay with the caller, in that run and in later ones.
pub fn after_the_end(rt: &impl Print) -> io::Result<()> {
    line(
        rt,
        Edition::New,
        "a Ping and a Pong",
        &[b"\x00\x00\x04\x00\x00\x01\x05\x00"],
    )?;
    line(
        rt,
        Edition::New,
        "runs after the end",
        &[b"\x00\x00\x04", b"\x00\xff", b"\xff", b"\x00\x01\x05\x00"],
    )
}

// The run that a refusal comes in is taken whole, and no later one is.
pub fn after_a_refusal(rt: &impl Print) -> io::Result<()> {
    line(
        rt,
        Edition::New,
        "runs after a refusal",
        &[b"\x00\x00\x08\x00\x01\x02\x03", b"\x01\x02", b""],
    )?;
    line(
        rt,
        Edition::New,
        "refused in the second run",
        &[b"\x00\x00\x04", b"\x01\x09\x09", b"\x00\x00\x04\x00"],
    )
}

// Nothing is refused before the fourth byte. Type 7 is of the new edition alone, and an old Index has no Repository.
pub fn types(rt: &impl Print) -> io::Result<()> {
    line(
        rt,
        Edition::New,
        "version 1 is told with the header",
        &[b"\x1f\xff\xff", b"\xff"],
    )?;
    line(
        rt,
        Edition::Old,
        "type 7 on an old link",
        &[b"\x00\x00\x07", b"\x00"],
    )?;
    line(
        rt,
        Edition::New,
        "type 7 on a new link",
        &[b"\x00\x00\x07\x00", b"\x00\x00\x00\x00"],
    )?;
    line(
        rt,
        Edition::Old,
        "an Index",
        &[b"\x00\x01\x01\x00\x00\x00", b"\x00\x00\x00\x00\x00\x00"],
    )?;
    line(
        rt,
        Edition::New,
        "the same bytes",
        &[b"\x00\x01\x01\x00\x00\x00", b"\x00\x00\x00\x00\x00\x00"],
    )
}
