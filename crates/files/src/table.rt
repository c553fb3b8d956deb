// Tables in files.
ghost use Rattle.std.specs.Prelude.{◌≤◌, ◌≡◌, length, take};
ghost use Rattle.xdr.specs.Buffer.{Puts};
ghost use Rattle.files.specs.StandIn.{stand_in};

use crate::{OpenError, open};
use std::io::Read;
use std::rt::Files;

// How many bytes of its buffer each of five tables takes.
#[derive(Clone, Copy)]
pub struct Sizes {
    pub local: usize,
    pub peer1: usize,
    pub peer2: usize,
    pub peer3: usize,
    pub peer4: usize,
}

// Puts into a buffer what stands in for a file that can't be opened, and gives how many bytes there are.
fn stand_in(absent: bool, buf: &mut [u8]) -> usize
    ensures puts { Puts (stand_in absent) buf.old 0 result buf.new }
    ensures upper_bound { result ≤ length buf.new }
{
    if absent { xdr::put_word(buf, 0, 0) } else { 0 }
}

// Reads until a buffer is full, there is no more or a read fails, and gives how many bytes there are.
pub fn read_full<R: Read>(reader: &mut R, buf: &mut [u8]) -> usize
    ensures { result ≤ length buf.new }
{
    let mut done = 0;
    // A `while`, since a read may give fewer bytes than there is room for.
    while done < buf.len() {
        match reader.read(&mut buf[done..]) {
            Ok(0) | Err(_) => break,
            Ok(n) => done += n,
        }
    }
    done
}

// Reads a file into a buffer, and gives how many bytes there are: those of the empty table where the file is absent; none, which are no
// table, where it cannot be read.
pub fn load(rt: &impl Files, name: &[u8], buf: &mut [u8]) -> usize
    ensures { result ≤ length buf.new }
{
    match open(rt, name) {
        Ok(mut file) => read_full(&mut file, buf),
        Err(e) => stand_in(e == OpenError::Absent, buf),
    }
}

// The first bytes of a buffer, as far as there are any.
pub fn first(buffer: &[u8], size: usize) -> &[u8]
    ensures { result.now ≡ take size buffer.now }
{
    order::part(buffer, 0, size)
}
