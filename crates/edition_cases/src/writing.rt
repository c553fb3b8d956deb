// The writers of the old edition.
use lines::Hex;
use std::io;
use xdr::Refusal;

// What a call with room for so many bytes leaves in a new buffer: the bytes, or the refusal and whether the buffer is as it was.
pub(crate) fn left<F: FnOnce(&mut [u8]) -> Result<usize, Refusal>>(
    rt: &impl Print,
    room: usize,
    write: F,
) -> io::Result<()>
    requires { F.IsAlwaysCallable write }
{
    let mut out = [0xeeu8; 64];
    if room > out.len() {
        return Ok(());
    }
    match write(&mut out[..room]) {
        Ok(n) => println!(rt; ": {}", Hex(out.get(..n).unwrap_or(b""))),
        Err(r) => lines::refused(rt, &out, r),
    }
}

fn index(rt: &impl Print, id: u32, files: &[u8], room: usize) -> io::Result<()> {
    print!(rt; "write_old_index")?;
    left(rt, room, |out| {
        message_write::write_old_index(out, id, files)
    })
}

fn update(rt: &impl Print, id: u32, files: &[u8], room: usize) -> io::Result<()> {
    print!(rt; "write_old_index_update")?;
    left(rt, room, |out| {
        message_write::write_old_index_update(out, id, files)
    })
}

fn request(rt: &impl Print, id: u32, name: &[u8], size: u32, room: usize) -> io::Result<()> {
    print!(rt; "write_old_request")?;
    left(rt, room, |out| {
        message_write::write_old_request(out, id, name, 7, size, &[0xabu8; 32])
    })
}

// Each of them, with room, with a byte too little, and with a fault.
pub fn run(rt: &impl Print) -> io::Result<()> {
    index(rt, 1, b"\x00\x00\x00\x00", 8)?;
    index(rt, 1, b"\x00\x00\x00\x00", 7)?;
    index(rt, 1, b"\x00\x00\x02\x01", 0)?;
    index(rt, 4096, b"", 0)?;
    update(
        rt,
        4095,
        b"\x00\x00\x00\x01\x00\x00\x00\x01b\x00\x00\x00\x00\x00\x01\xa4\x00\x00\x00\x00\x00\x00\x00\x09\x00\x00\x00\x02\x00\x00\x00\x00",
        64,
    )?;
    request(rt, 5, b"n", 5, 60)?;
    request(rt, 5, b"n", 5, 59)?;
    request(rt, 5, b"../n", 0, 0)?;
    request(rt, 5, b"a\x80", 0, 0)
}
