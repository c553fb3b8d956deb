// Words, hypers, opaques and strings.
use lines::Hex;
use std::{fmt, io};
use xdr::Refusal;

// A line: the function, the bytes and the place, and the value with the place after it, or the refusal.
fn told<T: fmt::Display + Drop>(
    rt: &impl Print,
    function: &str,
    s: &[u8],
    at: usize,
    answer: Result<(T, usize), Refusal>,
) -> io::Result<()> {
    print!(rt; "{function} {} at {at}: ", Hex(s))?;
    match answer {
        Ok((value, next)) => println!(rt; "{value}, next {next}"),
        Err(r) => lines::refusal(rt, r),
    }
}

fn word(rt: &impl Print, s: &[u8], at: usize) -> io::Result<()> {
    told(rt, "read_word", s, at, xdr::read_word(s, at))
}

fn hyper(rt: &impl Print, s: &[u8], at: usize) -> io::Result<()> {
    told(rt, "read_hyper", s, at, xdr::read_hyper(s, at))
}

fn opaque(rt: &impl Print, s: &[u8], at: usize, limit: u32) -> io::Result<()> {
    print!(rt; "limit {limit}, ")?;
    told(rt, "read_bytes", s, at, xdr::read_bytes(s, at, limit))
}

fn string(rt: &impl Print, s: &[u8]) -> io::Result<()> {
    told(rt, "read_text", s, 0, xdr::read_text(s, 0, 255))
}

pub fn words(rt: &impl Print) -> io::Result<()> {
    let s = b"\x00\x00\x04\x00\xff\xff\xff\xff\x80";
    let last: usize = 18446744073709551615;
    word(rt, s, 0)?;
    word(rt, s, 4)?;
    word(rt, s, 5)?;
    word(rt, s, 6)?;
    word(rt, s, 9)?;
    word(rt, s, last)?;
    word(rt, b"", 0)?;
    word(rt, b"\x00\x00\x04", 0)?;
    hyper(rt, s, 0)?;
    hyper(rt, s, 1)?;
    hyper(rt, s, 2)?;
    hyper(rt, s, last)?;
    hyper(rt, b"", 0)
}

pub fn opaques(rt: &impl Print) -> io::Result<()> {
    let s = b"\x00\x00\x00\x03abc\x00\x00\x00\x00\x00";
    opaque(rt, s, 0, 3)?;
    opaque(rt, s, 0, 2)?;
    opaque(rt, s, 0, 4294967295)?;
    opaque(rt, s, 8, 0)?;
    opaque(rt, s, 12, 0)?;
    opaque(rt, s, 18446744073709551615, 0)?;
    opaque(rt, b"\x00\x00\x00\x01\x61\x00\x00\x01", 0, 64)?;
    opaque(rt, b"\x00\x00\x00\x01\x61\x00\x00", 0, 64)?;
    opaque(rt, b"\x00\x00\x00\x04\x61\x62\x63", 0, 64)?;
    opaque(rt, b"\xff\xff\xff\xff", 0, 64)?;
    opaque(rt, b"\xff\xff\xff\xff", 0, 4294967295)?;
    opaque(rt, b"\x00\x00\x00", 0, 64)
}

pub fn texts(rt: &impl Print) -> io::Result<()> {
    string(rt, b"\x00\x00\x00\x00")?;
    string(rt, b"\x00\x00\x00\x04\x00\x7f\x01\x61")?;
    lengths(rt)?;
    surrogates(rt)?;
    broken(rt)
}

// A slash in two bytes, and the least and the most of each number of bytes.
fn lengths(rt: &impl Print) -> io::Result<()> {
    string(rt, b"\x00\x00\x00\x02\xc0\xaf\x00\x00")?;
    string(rt, b"\x00\x00\x00\x02\xc1\xbf\x00\x00")?;
    string(rt, b"\x00\x00\x00\x04\xc2\x80\xdf\xbf")?;
    string(rt, b"\x00\x00\x00\x03\xe0\x9f\xbf\x00")?;
    string(rt, b"\x00\x00\x00\x03\xe0\xa0\x80\x00")?;
    string(rt, b"\x00\x00\x00\x03\xef\xbf\xbf\x00")?;
    string(rt, b"\x00\x00\x00\x04\xf0\x8f\xbf\xbf")?;
    string(rt, b"\x00\x00\x00\x04\xf0\x90\x80\x80")?;
    string(rt, b"\x00\x00\x00\x04\xf4\x8f\xbf\xbf")?;
    string(rt, b"\x00\x00\x00\x04\xf4\x90\x80\x80")?;
    string(rt, b"\x00\x00\x00\x04\xf5\x80\x80\x80")
}

// On both sides of the surrogates, and the first of them.
fn surrogates(rt: &impl Print) -> io::Result<()> {
    string(rt, b"\x00\x00\x00\x03\xed\x9f\xbf\x00")?;
    string(rt, b"\x00\x00\x00\x03\xed\xa0\x80\x00")?;
    string(rt, b"\x00\x00\x00\x03\xee\x80\x80\x00")
}

// Bytes that lead nothing, or whose followers aren't there.
fn broken(rt: &impl Print) -> io::Result<()> {
    string(rt, b"\x00\x00\x00\x01\x80\x00\x00\x00")?;
    string(rt, b"\x00\x00\x00\x01\xbf\x00\x00\x00")?;
    string(rt, b"\x00\x00\x00\x01\xf8\x00\x00\x00")?;
    string(rt, b"\x00\x00\x00\x01\xdf\x00\x00\x00")?;
    string(rt, b"\x00\x00\x00\x02\xc3\x7f\x00\x00")?;
    string(rt, b"\x00\x00\x00\x02\xc3\xc0\x00\x00")?;
    string(rt, b"\x00\x00\x00\x03\x61\xe2\x82\x00")?;
    string(rt, b"\x00\x00\x00\x01\xff\x00\x00\x01")
}

// A line of a put into the first bytes of a new buffer, as many as there is to be room for: the place, the room, how many bytes were put, and the
// buffer.
fn put<F: FnOnce(&mut [u8]) -> usize>(
    rt: &impl Print,
    function: &str,
    room: usize,
    at: usize,
    store: F,
) -> io::Result<()>
    requires { F.IsAlwaysCallable store }
{
    let mut out = [0xeeu8; 16];
    if room <= out.len() {
        let count = store(&mut out[..room]);
        println!(rt;
            "{function} at {at} of {room}: put {count}, buffer {}",
            Hex(&out)
        )?;
    }
    Ok(())
}

fn put_word(rt: &impl Print, room: usize, at: usize) -> io::Result<()> {
    put(rt, "put_word", room, at, |out| {
        xdr::put_word(out, at, 0x01020304)
    })
}

fn put_hyper(rt: &impl Print, room: usize, at: usize) -> io::Result<()> {
    put(rt, "put_hyper", room, at, |out| {
        xdr::put_hyper(out, at, 0x0102030405060708)
    })
}

fn put_opaque(rt: &impl Print, room: usize, at: usize, src: &[u8]) -> io::Result<()> {
    put(rt, "put_bytes", room, at, |out| {
        xdr::put_bytes(out, at, src)
    })
}

pub fn puts(rt: &impl Print) -> io::Result<()> {
    put_word(rt, 4, 0)?;
    put_word(rt, 16, 5)?;
    put_word(rt, 16, 12)?;
    put_word(rt, 16, 13)?;
    put_word(rt, 3, 0)?;
    put_word(rt, 16, 18446744073709551615)?;
    put_hyper(rt, 8, 0)?;
    put_hyper(rt, 16, 8)?;
    put_hyper(rt, 16, 9)?;
    put_hyper(rt, 7, 0)?;
    put_opaque(rt, 16, 0, b"")?;
    put_opaque(rt, 16, 4, b"a")?;
    put_opaque(rt, 16, 8, b"abcd")?;
    put_opaque(rt, 16, 8, b"abcde")?;
    put_opaque(rt, 12, 0, b"abcde")?;
    put_opaque(rt, 11, 0, b"abcde")?;
    put_opaque(rt, 16, 18446744073709551615, b"")
}
