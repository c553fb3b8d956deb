// Messages, read and written.
use lines::Hex;
use message::{Edition, IndexSpan, Message, OptionsSpan, RequestSpan, ResponseSpan, Span};
use std::{fmt, io};
use xdr::Refusal;

// Where a part of a message begins and how long it is.
#[derive(Clone, Copy)]
struct Part(Span);

impl fmt::Display for Part {
    fn fmt<W: fmt::Write>(&self, f: &mut fmt::Formatter<W>) -> fmt::Result {
        write!(f, "{}+{}", self.0.start, self.0.length)
    }
}

fn index(rt: &impl Print, kind: &str, id: u32, x: IndexSpan) -> io::Result<()> {
    println!(rt;
        "{kind} ID {id}, repository {}, files {}, count {}, end {}",
        Part(x.repository),
        Part(x.files),
        x.count,
        x.end
    )
}

fn bare(rt: &impl Print, kind: &str, id: u32, end: usize) -> io::Result<()> {
    println!(rt; "{kind} ID {id}, end {end}")
}

fn request(rt: &impl Print, id: u32, x: RequestSpan) -> io::Result<()> {
    println!(rt;
        "Request ID {id}, repository {}, name {}, offset {}, length {}, hash {}, end {}",
        Part(x.repository),
        Part(x.name),
        x.offset,
        x.size,
        Part(x.hash),
        x.end
    )
}

fn response(rt: &impl Print, id: u32, x: ResponseSpan) -> io::Result<()> {
    println!(rt; "Response ID {id}, data {}, end {}", Part(x.data), x.end)
}

fn options(rt: &impl Print, id: u32, x: OptionsSpan) -> io::Result<()> {
    println!(rt;
        "Options ID {id}, options {}, count {}, end {}",
        Part(x.options),
        x.count,
        x.end
    )
}

fn answer(rt: &impl Print, m: Message) -> io::Result<()> {
    match m {
        Message::Index(id, x) => index(rt, "Index", id, x),
        Message::Request(id, x) => request(rt, id, x),
        Message::Response(id, x) => response(rt, id, x),
        Message::Ping(id, end) => bare(rt, "Ping", id, end),
        Message::Pong(id, end) => bare(rt, "Pong", id, end),
        Message::IndexUpdate(id, x) => index(rt, "IndexUpdate", id, x),
        Message::Options(id, x) => options(rt, id, x),
    }
}

fn read(rt: &impl Print, label: &str, s: &[u8]) -> io::Result<()> {
    print!(rt; "read {label} {}: ", Hex(s))?;
    match message::read(Edition::New, s) {
        Ok(m) => answer(rt, m),
        Err(r) => lines::refusal(rt, r),
    }
}

// K1 to K9, and a message with bytes after its end.
pub fn vectors(rt: &impl Print) -> io::Result<()> {
    read(rt, "K1", b"\x00\x00\x04\x00")?;
    read(rt, "K2", b"\x0f\xff\x05\x00")?;
    read(rt, "K3", b"\x10\x00\x08\x01")?;
    read(rt, "K4", b"\x00\x00\x08\x00")?;
    read(rt, "K5", b"\x00\x00\x04\x01")?;
    read(rt, "K6", b"\x00\x00\x04")?;
    read(
        rt,
        "K7",
        b"\x00\x01\x01\x00\x00\x00\x00\x00\x00\x00\x00\x00",
    )?;
    read(
        rt,
        "K8",
        b"\x00\x01\x01\x00\x00\x00\x00\x01\x61\x00\x00\x01",
    )?;
    read(rt, "K9", b"\x00\x02\x03\x00\x00\x00\x00\x00")?;
    read(
        rt,
        "K9 and more",
        b"\x00\x02\x03\x00\x00\x00\x00\x00\xff\xff",
    )?;
    read(
        rt,
        "an Index that ends after its header",
        b"\x00\x00\x01\x00",
    )
}

// What a writer answers with room for so many bytes in a new buffer: the bytes written and what reading gives of them, or the refusal and whether
// the buffer is as it was.
fn written<F: FnOnce(&mut [u8]) -> Result<usize, Refusal>>(
    rt: &impl Print,
    label: &str,
    room: usize,
    write: F,
) -> io::Result<()>
    requires { F.IsAlwaysCallable write }
{
    let mut out = [0xeeu8; 160];
    if room > out.len() {
        return Ok(());
    }
    let answer = write(&mut out[..room]);
    print!(rt; "{label}")?;
    match answer {
        Ok(n) => {
            print!(rt; ": filled {n}, ")?;
            if n <= out.len() {
                read(rt, "back", &out[..n])?;
            }
            Ok(())
        }
        Err(r) => lines::refused(rt, &out, r),
    }
}

fn write_ping(rt: &impl Print, room: usize, id: u32) -> io::Result<()> {
    written(rt, "write_ping", room, |out| {
        message_write::write_ping(out, id)
    })
}

fn write_pong(rt: &impl Print, room: usize, id: u32) -> io::Result<()> {
    written(rt, "write_pong", room, |out| {
        message_write::write_pong(out, id)
    })
}

fn write_index(rt: &impl Print, room: usize, repository: &[u8], files: &[u8]) -> io::Result<()> {
    written(rt, "write_index", room, |out| {
        message_write::write_index(out, 1, repository, files)
    })
}

fn write_update(rt: &impl Print, repository: &[u8], files: &[u8]) -> io::Result<()> {
    written(rt, "write_index_update", 48, |out| {
        message_write::write_index_update(out, 4095, repository, files)
    })
}

fn write_request(
    rt: &impl Print,
    room: usize,
    name: &[u8],
    size: u32,
    hash: &[u8],
) -> io::Result<()> {
    written(rt, "write_request", room, |out| {
        message_write::write_request(out, 2, b"r", name, 131072, size, hash)
    })
}

fn write_response(rt: &impl Print, data: &[u8]) -> io::Result<()> {
    written(rt, "write_response", 20, |out| {
        message_write::write_response(out, 3, data)
    })
}

fn write_options(rt: &impl Print, options: &[u8]) -> io::Result<()> {
    written(rt, "write_options", 48, |out| {
        message_write::write_options(out, 7, options)
    })
}

// A file array with one file of no blocks, cut to each length.
fn array_cuts(rt: &impl Print) -> io::Result<()> {
    let files =
        b"\x00\x00\x00\x01\x00\x00\x00\x01b\x00\x00\x00\x00\x00\x01\xa4\x00\x00\x00\x00\x00\x00\x00\x09\x00\x00\x00\x02\x00\x00\x00\x00";
    for n in 0..files.len() {
        print!(rt; "cut to {n}, ")?;
        write_index(rt, 48, b"r", &files[..n])?;
    }
    Ok(())
}

fn bare_writers(rt: &impl Print) -> io::Result<()> {
    write_ping(rt, 8, 0)?;
    write_ping(rt, 8, 4095)?;
    write_ping(rt, 8, 4096)?;
    write_ping(rt, 4, 1)?;
    write_ping(rt, 3, 1)?;
    write_ping(rt, 0, 4096)?;
    write_pong(rt, 8, 2)
}

fn index_writers(rt: &impl Print) -> io::Result<()> {
    let one =
        b"\x00\x00\x00\x01\x00\x00\x00\x01b\x00\x00\x00\x00\x00\x01\xa4\x00\x00\x00\x00\x00\x00\x00\x09\x00\x00\x00\x02\x00\x00\x00\x00and more";
    write_index(rt, 160, b"r", one)?;
    write_index(rt, 44, b"r", one)?;
    write_index(rt, 43, b"r", one)?;
    write_update(rt, b"", one)
}

fn repository_writers(rt: &impl Print) -> io::Result<()> {
    let long = [b'a'; 65];
    write_index(rt, 160, &long[..64], b"\x00\x00\x00\x00")?;
    write_index(rt, 160, &long, b"\x00\x00\x00\x00")?;
    write_index(rt, 160, b"\x80", b"\x00\x00\x00\x00")?;
    write_index(rt, 160, b"r", b"")
}

fn request_writers(rt: &impl Print) -> io::Result<()> {
    let hash = [0xabu8; 33];
    write_request(rt, 80, b"n", 5, &hash[..32])?;
    write_request(rt, 80, b"n", 5, &hash[..31])?;
    write_request(rt, 80, b"n", 5, &hash)?;
    write_request(rt, 67, b"n", 5, &hash[..32])
}

fn request_fields(rt: &impl Print) -> io::Result<()> {
    let hash = [0xabu8; 32];
    write_request(rt, 80, b"", 5, &hash)?;
    write_request(rt, 80, b"n", 0, &hash)?;
    write_request(rt, 80, b"n", 131073, &hash)
}

fn other_writers(rt: &impl Print) -> io::Result<()> {
    write_response(rt, b"")?;
    write_response(rt, b"abcde")?;
    write_response(rt, b"abcdefghijklm")?;
    write_options(rt, b"\x00\x00\x00\x00")?;
    write_options(
        rt,
        b"\x00\x00\x00\x01\x00\x00\x00\x01k\x00\x00\x00\x00\x00\x00\x02vv\x00\x00",
    )?;
    write_options(rt, b"\x00\x00\x00\x41")
}

pub fn writers(rt: &impl Print) -> io::Result<()> {
    bare_writers(rt)?;
    index_writers(rt)?;
    repository_writers(rt)?;
    request_writers(rt)?;
    request_fields(rt)?;
    other_writers(rt)?;
    array_cuts(rt)
}

// Names that climb out, at the place of their length word.
pub fn names(rt: &impl Print) -> io::Result<()> {
    read(
        rt,
        "an Index with ../show.mov",
        b"\x00\x01\x01\x00\x00\x00\x00\x00\x00\x00\x00\x01\x00\x00\x00\x0b../show.mov\x00\x00\x00\x00\x00\x00\x00\x00\x00\x00\x00\x00\x00\x00\x00\x00\x00\x00\x00\x00\x00",
    )?;
    read(
        rt,
        "a Request of a//b",
        b"\x00\x02\x02\x00\x00\x00\x00\x01r\x00\x00\x00\x00\x00\x00\x04a//b\x00\x00\x00\x00\x00\x00\x00\x00\x00\x00\x00\x05\x00\x00\x00\x20abcdefghijklmnopabcdefghijklmnop",
    )?;
    write_index(
        rt,
        160,
        b"../r",
        b"\x00\x00\x00\x01\x00\x00\x00\x02a/\x00\x00\x00\x00\x00\x00\x00\x00\x00\x00\x00\x00\x00\x00\x00\x00\x00\x00\x00\x00\x00\x00",
    )?;
    write_index(
        rt,
        160,
        b"../r",
        b"\x00\x00\x00\x01\x00\x00\x00\x03a/b\x00\x00\x00\x00\x00\x00\x00\x00\x00\x00\x00\x00\x00\x00\x00\x00\x00\x00\x00\x00\x00",
    )
}
