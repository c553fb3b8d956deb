// What a line is made of.
ghost use Rattle.std.specs.Prelude.{◌≡◌, not, nat_abs};
ghost use Rattle.std.specs.Int.Signed.{non_neg};
ghost use Rattle.record.specs.Modified.{signed};
ghost use Rattle.listing.specs.Line.{is_plain};

use record::RecordFields;
use std::io;
use xdr::Refusal;

// The line of a refusal.
pub fn refused(rt: &impl Print, number: u32) -> io::Result<()> {
    println!(rt; "refused {number}")
}

// Whether a byte of a name is printed as it is: control bytes are not, nor the backslash that they are written with.
fn is_plain(b: u8) -> bool
    ensures { result ≡ is_plain b }
{
    match b {
        0..=31 | 92 | 127 => false,
        _ => true,
    }
}

// A byte of a name: one that isn't plain in hexadecimal.
fn name_byte(rt: &impl Print, b: u8) -> io::Result<()> {
    if is_plain(b) {
        return rt.write_all(&[b]);
    }
    print!(rt; "\\x{b:02x}")
}

fn name(rt: &impl Print, s: &[u8]) -> io::Result<()> {
    for b in s {
        name_byte(rt, *b)?;
    }
    Ok(())
}

// Whether Modified, which is signed, is below zero.
fn is_negative(modified: u64) -> bool
    ensures { result ≡ not (non_neg (signed modified)) }
{
    modified >= 9223372036854775808
}

// Modified without its sign.
fn magnitude(modified: u64) -> u64
    ensures { result ≡ nat_abs (signed modified) }
{
    if modified < 9223372036854775808 {
        return modified;
    }
    18446744073709551615 - modified + 1
}

fn modified(rt: &impl Print, m: u64) -> io::Result<()> {
    let sign = if is_negative(m) { "-" } else { "" };
    print!(rt; " modified {sign}{}", magnitude(m))
}

// Deleted, invalid, or the blocks of the file and their bytes.
fn contents(rt: &impl Print, table: &[u8], f: RecordFields) -> io::Result<()> {
    if record::is_deleted(f.flags) {
        return print!(rt; " deleted");
    }
    if record::is_invalid(f.flags) {
        return print!(rt; " invalid");
    }
    print!(rt;
        " blocks {} bytes {}",
        f.blocks,
        record::offset_of(table, f.first, f.blocks)
    )
}

fn line(rt: &impl Print, table: &[u8], number: u32, f: RecordFields) -> io::Result<()> {
    print!(rt; "{number} ")?;
    name(rt, order::part(table, f.name, f.stop))?;
    contents(rt, table, f)?;
    modified(rt, f.modified)?;
    println!(rt; " version {}", f.version)
}

// The line of a step, and whether the walk goes on.
pub fn show(
    rt: &impl Print,
    table: &[u8],
    number: u32,
    step: Result<Option<RecordFields>, Refusal>,
) -> io::Result<bool> {
    match step {
        Ok(Some(f)) => {
            line(rt, table, number, f)?;
            Ok(true)
        }
        Ok(None) => Ok(false),
        Err(r) => {
            refused(rt, r.number)?;
            Ok(false)
        }
    }
}
