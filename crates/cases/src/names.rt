// Names: those that lead down from a folder and those that don't, read in a record and written in a Request.
use crate::records;
use std::io;

fn shown_as(rt: &impl Print, shown: &str, contents: &[u8]) -> io::Result<()> {
    read(rt, shown, contents)?;
    write(rt, shown, contents)
}

fn name(rt: &impl Print, contents: &str) -> io::Result<()> {
    shown_as(rt, contents, contents.as_bytes())
}

// A record of this name and of zeros.
fn read(rt: &impl Print, shown: &str, contents: &[u8]) -> io::Result<()> {
    let mut out = [0u8; 320];
    xdr::put_bytes(&mut out, 0, contents);
    print!(rt; "read_file, name {shown}: ")?;
    records::answer(rt, record::read_file(&out))
}

// A Request of this name.
fn write(rt: &impl Print, shown: &str, contents: &[u8]) -> io::Result<()> {
    let hash = [0xabu8; 32];
    let mut out = [0xeeu8; 360];
    let w = message_write::write_request(&mut out, 2, b"r", contents, 0, 5, &hash);
    print!(rt; "write_request, name {shown}")?;
    match w {
        Ok(n) => println!(rt; ": filled {n}"),
        Err(r) => lines::refused(rt, &out, r),
    }
}

fn slashes(rt: &impl Print) -> io::Result<()> {
    name(rt, "/")?;
    name(rt, "/a")?;
    name(rt, "a/")?;
    name(rt, "a//b")?;
    name(rt, "a/b/c")
}

fn dots(rt: &impl Print) -> io::Result<()> {
    name(rt, "../show.mov")?;
    name(rt, ".")?;
    name(rt, "..")?;
    name(rt, "a/.")?;
    name(rt, "a/..")?;
    name(rt, "a/./b")?;
    name(rt, "a/../b")
}

fn like_dots(rt: &impl Print) -> io::Result<()> {
    name(rt, "...")?;
    name(rt, "a/.../b")?;
    name(rt, ".a/a./..b")?;
    name(rt, "..\\a")
}

fn zeros(rt: &impl Print) -> io::Result<()> {
    shown_as(rt, "of one zero byte", b"\x00")?;
    shown_as(rt, "a and a zero byte", b"a\x00")?;
    shown_as(rt, "a, a zero byte and b", b"a\x00b")
}

// 5 comes before 7, 7 before 8, and 8 before 24.
fn order(rt: &impl Print) -> io::Result<()> {
    let mut long = [b'a'; 256];
    long[0] = b'/';
    shown_as(rt, "of a slash and 254 letters", &long[..255])?;
    shown_as(rt, "of a slash and 255 letters", &long)?;
    shown_as(rt, "../ and C0 AF", b"../\xc0\xaf")?;
    shown_as(rt, "of no bytes", b"")
}

pub fn run(rt: &impl Print) -> io::Result<()> {
    slashes(rt)?;
    dots(rt)?;
    like_dots(rt)?;
    zeros(rt)?;
    order(rt)
}
