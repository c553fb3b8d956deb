// Messages in one run, byte by byte, and with empty runs.
use crate::line::{each, line};
use message::Edition;
use std::io;

// K1 to K9 in one run. K6 has three bytes, and waits where reading at once gives 1.
pub fn vectors(rt: &impl Print) -> io::Result<()> {
    line(rt, Edition::New, "K1", &[b"\x00\x00\x04\x00"])?;
    line(rt, Edition::New, "K2", &[b"\x0f\xff\x05\x00"])?;
    line(rt, Edition::New, "K3", &[b"\x10\x00\x08\x01"])?;
    line(rt, Edition::New, "K4", &[b"\x00\x00\x08\x00"])?;
    line(rt, Edition::New, "K5", &[b"\x00\x00\x04\x01"])?;
    line(rt, Edition::New, "K6", &[b"\x00\x00\x04"])?;
    line(
        rt,
        Edition::New,
        "K7",
        &[b"\x00\x01\x01\x00\x00\x00\x00\x00\x00\x00\x00\x00"],
    )?;
    line(
        rt,
        Edition::New,
        "K8",
        &[b"\x00\x01\x01\x00\x00\x00\x00\x01\x61\x00\x00\x01"],
    )?;
    line(
        rt,
        Edition::New,
        "K9",
        &[b"\x00\x02\x03\x00\x00\x00\x00\x00"],
    )
}

// K1 and K8 again.
pub fn bytewise(rt: &impl Print) -> io::Result<()> {
    each(rt, Edition::New, "K1 byte by byte", b"\x00\x00\x04\x00")?;
    each(
        rt,
        Edition::New,
        "K8 byte by byte",
        b"\x00\x01\x01\x00\x00\x00\x00\x01\x61\x00\x00\x01",
    )
}

// An empty run brings nothing new, wherever it comes.
pub fn empty_runs(rt: &impl Print) -> io::Result<()> {
    line(rt, Edition::New, "no bytes", &[b""])?;
    line(
        rt,
        Edition::New,
        "empty runs",
        &[b"", b"\x00\x00", b"", b"\x04\x00", b""],
    )
}
