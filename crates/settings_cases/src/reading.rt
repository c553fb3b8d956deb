// Settings that are read.
use crate::line;
use settings::Settings;
use std::io;

fn told(rt: &impl Print, s: &[u8], found: Settings) -> io::Result<()> {
    line::number(rt, "window", found.window)?;
    line::number(rt, "allowance", found.allowance)?;
    line::bytes(rt, "Repository", line::span(s, found.repository))?;
    line::bytes(rt, "note", line::span(s, found.note))?;
    line::bytes(rt, "carried", s.get(found.carried..))?;
    println!(rt; "")
}

fn read(rt: &impl Print, s: &[u8]) -> io::Result<()> {
    print!(rt; "read {}:", line::Hex(s))?;
    match settings::read(s) {
        Ok(found) => told(rt, s, found),
        Err(r) => {
            print!(rt; " ")?;
            lines::refusal(rt, r)
        }
    }
}

// The window at its limits, and with a byte too few and too many.
pub fn windows(rt: &impl Print) -> io::Result<()> {
    read(rt, b"")?;
    read(rt, b"\x01\x00\x01\x00")?;
    read(rt, b"\x01\x00\x01\x01")?;
    read(rt, b"\x01\x00\x01\x10")?;
    read(rt, b"\x01\x00\x01\x11")?;
    read(rt, b"\x01\x00\x00")?;
    read(rt, b"\x01\x00\x02\x00\x04")
}

// The byte allowance, likewise.
pub fn allowances(rt: &impl Print) -> io::Result<()> {
    read(rt, b"\x02\x00\x04\x00\x01\xff\xff")?;
    read(rt, b"\x02\x00\x04\x00\x02\x00\x00")?;
    read(rt, b"\x02\x00\x04\x00\x08\x00\x00")?;
    read(rt, b"\x02\x00\x04\x00\x08\x00\x01")?;
    read(rt, b"\x02\x00\x03\x02\x00\x00")
}

// The Repository by the text rule.
pub fn repositories(rt: &impl Print) -> io::Result<()> {
    read(rt, b"\x03\x00\x00")?;
    read(rt, b"\x03\x00\x02\xc3\xa4")?;
    read(rt, b"\x03\x00\x03\x61\xc0\xaf")?;
    read(rt, b"\x03\x00\x03\xed\xa0\x80")?;
    read(
        rt,
        b"\x03\x00\x41rrrrrrrrrrrrrrrrrrrrrrrrrrrrrrrrrrrrrrrrrrrrrrrrrrrrrrrrrrrrrrrrr",
    )
}

// The note, which may be any bytes.
pub fn notes(rt: &impl Print) -> io::Result<()> {
    read(rt, b"\x80\x00\x00")?;
    read(rt, b"\x80\x00\x03\xff\x00\x80")
}

// Several at once, and carried fields behind them.
pub fn several(rt: &impl Print) -> io::Result<()> {
    read(
        rt,
        b"\x01\x00\x01\x04\x02\x00\x04\x00\x02\x00\x00\x03\x00\x01r\x80\x00\x02hi",
    )?;
    read(rt, b"\x03\x00\x01r\xff\x00\x02\xff\xff")?;
    read(rt, b"\x81\x00\x01x\xc8\x00\x00\xff\x00\x02\xff\xff")
}

// Tags that aren't known: below 128 they stop the reading, 0 too.
pub fn unknown(rt: &impl Print) -> io::Result<()> {
    read(rt, b"\x00\x00\x01?")?;
    read(rt, b"\x04\x00\x00")?;
    read(rt, b"\x01\x00\x01\x04\x7f\x00\x01?\x80\x00\x02hi")
}

// Fields that end too soon: 26 comes before 25.
pub fn cut_short(rt: &impl Print) -> io::Result<()> {
    read(rt, b"\x01")?;
    read(rt, b"\x02\x00\x04\x00")?;
    read(rt, b"\x04\x00\x01")?;
    read(rt, b"\x01\x00\x01\x04\x05\x00")?;
    read(rt, b"\x01\x00\x01\x04\xff\x00\x02\xff")
}

// Tags that fall or come again, above 128 too.
pub fn out_of_order(rt: &impl Print) -> io::Result<()> {
    read(rt, b"\x02\x00\x04\x00\x02\x00\x00\x01\x00\x01\x04")?;
    read(rt, b"\x01\x00\x01\x04\x01\x00\x01\x04")?;
    read(rt, b"\x81\x00\x01x\x80\x00\x02hi")?;
    read(rt, b"\xff\x00\x02\xff\xff\x81\x00\x01x")?;
    read(rt, b"\x80\x00\x02hi\x05\x00\x01?")?;
    read(rt, b"\x01\x00\x01\x11\x04\x00\x01?")
}
