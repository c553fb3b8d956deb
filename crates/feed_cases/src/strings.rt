// Faults of a string are told once it and its pad are wholly there, and the bad byte may be in an earlier run.
use crate::line::line;
use message::Edition;
use std::io;

// A pad byte that isn't zero, told before the text.
pub fn pads(rt: &impl Print) -> io::Result<()> {
    line(
        rt,
        Edition::New,
        "a bad pad byte",
        &[
            b"\x00\x00\x03\x00\x00\x00\x00\x05abcde\x01",
            b"\x00",
            b"\x00",
        ],
    )?;
    line(
        rt,
        Edition::New,
        "a bad text and a bad pad byte",
        &[
            b"\x00\x00\x01\x00\x00\x00\x00\x02\xff",
            b"\xff",
            b"\x01",
            b"\x00",
        ],
    )
}

// A byte that can't lead, a follower that its lead narrows, and sequences that are only cut.
pub fn texts(rt: &impl Print) -> io::Result<()> {
    line(
        rt,
        Edition::New,
        "a byte that can't lead",
        &[
            b"\x00\x00\x01\x00\x00\x00\x00\x02\xff",
            b"\xff",
            b"\x00",
            b"\x00",
        ],
    )?;
    line(
        rt,
        Edition::New,
        "a follower out of range",
        &[
            b"\x00\x00\x01\x00\x00\x00\x00\x03\xe0",
            b"\x9f",
            b"\x80\x00\x00\x00\x00\x00",
        ],
    )?;
    line(
        rt,
        Edition::New,
        "good sequences, cut",
        &[
            b"\x00\x00\x01\x00\x00\x00\x00\x09\xc3",
            b"\xa4\xe2",
            b"\x82",
            b"\xac\xf0",
            b"\x90\x8d",
            b"\x88\x00\x00\x00\x00\x00\x00\x00",
        ],
    )
}

// Slashes and dots in different runs.
pub fn names(rt: &impl Print) -> io::Result<()> {
    line(
        rt,
        Edition::Old,
        "two dots",
        &[
            b"\x00\x00\x02\x00\x00\x00\x00\x04a",
            b"/",
            b".",
            b".\x00\x00",
        ],
    )?;
    line(
        rt,
        Edition::Old,
        "three dots",
        &[b"\x00\x00\x02\x00\x00\x00\x00\x03.", b".", b".\x00"],
    )
}
