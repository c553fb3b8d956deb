// What the programs' lines are made of, on standard output.
#![tactic(auto)]

ghost use Rattle.std.specs.Prelude.{◌≡◌};
ghost use Rattle.lines.specs.Buffer.{is_untouched};

use std::{fmt, io};
use xdr::Refusal;

// Bytes in hexadecimal.
#[derive(Clone, Copy)]
pub struct Hex<'a>(pub &'a [u8]);

impl<'a> fmt::Display for Hex<'a> {
    fn fmt<W: fmt::Write>(&self, f: &mut fmt::Formatter<W>) -> fmt::Result {
        for byte in self.0 {
            write!(f, "{byte:02x}")?;
        }
        Ok(())
    }
}

// The number and the place of a refusal, and the end of the line.
pub fn refusal(rt: &impl Print, r: Refusal) -> io::Result<()> {
    println!(rt; "refused {} at {}", r.number, r.place)
}

// Whether a buffer still holds what the cases fill it with before a call.
fn untouched(out: &[u8]) -> bool
    ensures { result ≡ is_untouched out.now }
{
    out.iter().all(|b| *b == 0xee)
}

// What a call left of the buffer.
pub fn buffer(out: &[u8]) -> &'static str {
    if untouched(out) {
        "buffer as it was"
    } else {
        "buffer changed"
    }
}

// What a refused call left of the buffer, and the refusal.
pub fn refused(rt: &impl Print, out: &[u8], r: Refusal) -> io::Result<()> {
    print!(rt; ", {}: ", buffer(out))?;
    refusal(rt, r)
}
