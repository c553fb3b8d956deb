// What settings are, in words.
use settings::Span;
use std::{fmt, io};

// Bytes in hexadecimal, or a dash for none.
#[derive(Clone, Copy)]
pub struct Hex<'a>(pub &'a [u8]);

impl<'a> fmt::Display for Hex<'a> {
    fn fmt<W: fmt::Write>(&self, f: &mut fmt::Formatter<W>) -> fmt::Result {
        if self.0.is_empty() {
            write!(f, "-")
        } else {
            write!(f, "{}", lines::Hex(self.0))
        }
    }
}

// A number, where it is there.
pub fn number(rt: &impl Print, label: &str, n: Option<u32>) -> io::Result<()> {
    match n {
        Some(n) => print!(rt; " {label} {n}"),
        None => Ok(()),
    }
}

// Bytes, where they are there.
pub fn bytes(rt: &impl Print, label: &str, s: Option<&[u8]>) -> io::Result<()> {
    match s {
        Some(s) => print!(rt; " {label} {}", Hex(s)),
        None => Ok(()),
    }
}

// The bytes of a span, where it is there.
pub fn span(s: &[u8], p: Option<Span>) -> Option<&[u8]> {
    let p = p?;
    s.get(p.start..)?.get(..p.length)
}
