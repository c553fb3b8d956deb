// The lines of calls that fill a buffer.
use lines::Hex;
use std::io;
use xdr::Refusal;

// What a call answers with room for so many bytes in a new buffer: the table of a small result, the length of a large one, or the refusal; and
// whether the buffer is as it was.
pub(crate) fn show<F: FnOnce(&mut [u8]) -> Result<usize, Refusal>>(
    rt: &impl Print,
    label: &str,
    room: usize,
    fill: F,
) -> io::Result<()>
    requires { F.IsAlwaysCallable fill }
{
    let mut held = [0xeeu8; 65536];
    if room > held.len() {
        return Ok(());
    }
    let out = &mut held[..room];
    let filled = fill(out);
    print!(rt; "{label}")?;
    match filled {
        Ok(n) if n < 100 && n <= out.len() => {
            println!(rt; ", {}: filled {n} {}", lines::buffer(out), Hex(&out[..n]))
        }
        Ok(n) => println!(rt; ", {}: filled {n}", lines::buffer(out)),
        Err(r) => lines::refused(rt, out, r),
    }
}
