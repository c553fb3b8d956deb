// Messages as a link reads them that is marked as old.
use lines::Hex;
use message::{Edition, Message};
use std::io;

// The kind of a message, its ID and its end.
fn told(m: Message) -> (&'static str, u32, usize) {
    match m {
        Message::Index(id, x) => ("Index", id, x.end),
        Message::Request(id, x) => ("Request", id, x.end),
        Message::Response(id, x) => ("Response", id, x.end),
        Message::Ping(id, end) => ("Ping", id, end),
        Message::Pong(id, end) => ("Pong", id, end),
        Message::IndexUpdate(id, x) => ("IndexUpdate", id, x.end),
        Message::Options(id, x) => ("Options", id, x.end),
    }
}

fn read(rt: &impl Print, label: &str, s: &[u8]) -> io::Result<()> {
    print!(rt; "read as old, {label} {}: ", Hex(s))?;
    match message::read(Edition::Old, s) {
        Ok(m) => {
            let (kind, id, end) = told(m);
            println!(rt; "{kind} ID {id}, end {end}")
        }
        Err(r) => lines::refusal(rt, r),
    }
}

// K1 to K9: K7 and K8 have a Repository, which is no part of an old Index.
pub fn vectors(rt: &impl Print) -> io::Result<()> {
    read(rt, "K1", b"\x00\x00\x04\x00")?;
    read(rt, "K2", b"\x0f\xff\x05\x00")?;
    read(rt, "K3", b"\x10\x00\x08\x01")?;
    read(rt, "K4", b"\x00\x00\x08\x00")?;
    read(rt, "K5", b"\x00\x00\x04\x01")?;
    read(rt, "K6", b"\x00\x00\x04")?;
    read(
        rt,
        "K7",
        b"\x00\x01\x01\x00\x00\x00\x00\x00\x00\x00\x00\x00",
    )?;
    read(
        rt,
        "K8",
        b"\x00\x01\x01\x00\x00\x00\x00\x01\x61\x00\x00\x01",
    )?;
    read(rt, "K9", b"\x00\x02\x03\x00\x00\x00\x00\x00")
}

// Options are of no type there, before the reserved bits are looked at and after the version.
pub fn types(rt: &impl Print) -> io::Result<()> {
    read(rt, "Options", b"\x00\x00\x07\x00\x00\x00\x00\x00")?;
    read(rt, "type 7, reserved bits", b"\x00\x00\x07\x01")?;
    read(rt, "type 7, version 1", b"\x10\x00\x07\x00")?;
    read(rt, "type 6, reserved bits", b"\x00\x00\x06\x01")
}

// A Request, whole, with a bad byte in its Name, with a Name that climbs out, and one that ends too soon.
pub fn bodies(rt: &impl Print) -> io::Result<()> {
    read(
        rt,
        "a Request",
        b"\x0f\xff\x02\x00\x00\x00\x00\x01n\x00\x00\x00\x00\x00\x00\x00\x00\x00\x00\x07\x00\x00\x00\x05\x00\x00\x00\x20abababababababababababababababab",
    )?;
    read(
        rt,
        "a Request",
        b"\x00\x00\x02\x00\x00\x00\x00\x03ab\xff\x00",
    )?;
    read(
        rt,
        "a Request",
        b"\x00\x00\x02\x00\x00\x00\x00\x02..\x00\x00",
    )?;
    read(
        rt,
        "a Request",
        b"\x00\x00\x02\x00\x00\x00\x00\x01n\x00\x00",
    )
}
