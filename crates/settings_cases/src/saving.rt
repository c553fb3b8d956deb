// Settings that are saved.
use crate::line::{self, Hex};
use std::io;

// The window and the byte allowance with carried fields.
fn numbers(
    rt: &impl Print,
    window: Option<u32>,
    allowance: Option<u32>,
    carried: &[u8],
    room: usize,
) -> io::Result<()> {
    save(rt, window, allowance, None, None, carried, room)
}

// The Repository and the note with carried fields.
fn texts(
    rt: &impl Print,
    repository: Option<&[u8]>,
    note: Option<&[u8]>,
    carried: &[u8],
    room: usize,
) -> io::Result<()> {
    save(rt, None, None, repository, note, carried, room)
}

// All four with carried fields.
fn all(rt: &impl Print, carried: &[u8], room: usize) -> io::Result<()> {
    save(
        rt,
        Some(4),
        Some(131072),
        Some(b"r"),
        Some(b"hi"),
        carried,
        room,
    )
}

// What a call left in a new buffer: the bytes, or the refusal and whether the buffer is as it was.
fn save(
    rt: &impl Print,
    window: Option<u32>,
    allowance: Option<u32>,
    repository: Option<&[u8]>,
    note: Option<&[u8]>,
    carried: &[u8],
    room: usize,
) -> io::Result<()> {
    print!(rt; "save")?;
    line::number(rt, "window", window)?;
    line::number(rt, "allowance", allowance)?;
    line::bytes(rt, "Repository", repository)?;
    line::bytes(rt, "note", note)?;
    print!(rt; " carried {} in {room}", Hex(carried))?;
    let mut out = [0xeeu8; 32];
    if room > out.len() {
        return Ok(());
    }
    match settings::save(
        window,
        allowance,
        repository,
        note,
        carried,
        &mut out[..room],
    ) {
        Ok(n) => println!(rt; ": {}", Hex(out.get(..n).unwrap_or(b""))),
        Err(r) => lines::refused(rt, &out, r),
    }
}

// What is there, each alone.
pub fn each(rt: &impl Print) -> io::Result<()> {
    numbers(rt, None, None, b"", 0)?;
    numbers(rt, Some(1), None, b"", 4)?;
    numbers(rt, None, Some(524288), b"", 7)?;
    texts(rt, Some(b""), None, b"", 3)?;
    texts(rt, None, Some(b""), b"", 3)
}

// With carried fields behind it.
pub fn several(rt: &impl Print) -> io::Result<()> {
    numbers(rt, None, None, b"\x81\x00\x01x", 4)?;
    texts(rt, Some(b".."), None, b"", 32)?;
    all(rt, b"", 20)?;
    all(rt, b"\x81\x00\x01x\xc8\x00\x00\xff\x00\x02\xff\xff", 32)
}

// The room comes last.
pub fn no_room(rt: &impl Print) -> io::Result<()> {
    numbers(rt, Some(16), None, b"", 3)?;
    all(rt, b"", 19)?;
    all(rt, b"\x81\x00\x01x\xc8\x00\x00\xff\x00\x02\xff\xff", 31)
}

// Windows that are wrong, at the place of their tag: one above 255 too.
pub fn wrong_windows(rt: &impl Print) -> io::Result<()> {
    numbers(rt, Some(0), None, b"", 0)?;
    numbers(rt, Some(17), None, b"", 0)?;
    numbers(rt, Some(256), None, b"", 0)?;
    numbers(rt, Some(260), None, b"", 32)
}

// Byte allowances, likewise.
pub fn wrong_allowances(rt: &impl Print) -> io::Result<()> {
    numbers(rt, Some(4), Some(131071), b"", 0)?;
    numbers(rt, Some(4), Some(524289), b"", 0)?;
    numbers(rt, Some(4), Some(4294967295), b"", 0)
}

// A Repository and a note.
pub fn wrong_texts(rt: &impl Print) -> io::Result<()> {
    texts(rt, Some(b"a\xff"), None, b"", 32)?;
    let note = [b'n'; 256];
    texts(rt, Some(b"r"), Some(&note), b"", 32)
}

// Carried fields that are wrong: a tag up to 128 is 26, whatever it is.
pub fn low_carried(rt: &impl Print) -> io::Result<()> {
    numbers(rt, None, None, b"\x00\x00\x01\x04", 32)?;
    numbers(rt, None, None, b"\x80\x00\x01\x04", 32)?;
    numbers(rt, Some(17), None, b"\x05\x00\x01?", 0)?;
    all(rt, b"\x05\x00\x01?", 32)
}

// And those that are out of order or cut short.
pub fn wrong_carried(rt: &impl Print) -> io::Result<()> {
    all(rt, b"\x81\x00\x01x\x80\x00\x00", 32)?;
    all(rt, b"\xff\x00\x02\xff\xff\xc8\x00\x00", 32)?;
    all(rt, b"\x81\x00", 0)
}
