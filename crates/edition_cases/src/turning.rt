// Messages of one edition that become messages of the other.
use crate::writing::left;
use lines::Hex;
use std::io;

fn upgrade(rt: &impl Print, m: &[u8], repository: &[u8], room: usize) -> io::Result<()> {
    print!(rt; "up {} with {}", Hex(m), Hex(repository))?;
    left(rt, room, |out| edition::upgrade(m, repository, out))
}

fn downgrade(rt: &impl Print, m: &[u8], room: usize) -> io::Result<()> {
    print!(rt; "down {}", Hex(m))?;
    left(rt, room, |out| edition::downgrade(m, out))
}

// An Index and an IndexUpdate get the Repository, a Response, a Ping and a Pong stay as they are and don't look at it. It is checked once
// the message was read, and the room comes last.
pub fn up(rt: &impl Print) -> io::Result<()> {
    upgrade(rt, b"\x00\x09\x01\x00\x00\x00\x00\x00", b"default", 20)?;
    upgrade(rt, b"\x00\x09\x06\x00\x00\x00\x00\x00\xff\xff", b"", 64)?;
    upgrade(
        rt,
        b"\x00\x03\x03\x00\x00\x00\x00\x02ab\x00\x00",
        b"\xff",
        12,
    )?;
    upgrade(rt, b"\x0f\xff\x04\x00", b"\xff", 4)?;
    upgrade(rt, b"\x00\x00\x05\x00\x01", b"\xff", 64)?;
    upgrade(rt, b"\x00\x09\x01\x00\x00\x00\x00", b"\xff", 0)?;
    upgrade(rt, b"\x00\x00\x07\x00\x00\x00\x00\x00", b"default", 64)?;
    upgrade(rt, b"\x00\x09\x01\x00\x00\x00\x00\x00", b"ab\xc0\xaf", 0)?;
    upgrade(
        rt,
        b"\x00\x09\x01\x00\x00\x00\x00\x00",
        b"0123456789012345678901234567890123456789012345678901234567890123\xff",
        0,
    )?;
    upgrade(rt, b"\x00\x09\x01\x00\x00\x00\x00\x00", b"default", 19)
}

// The Repository goes, and Options have no meaning there: that is told once they were read whole, and before the room.
pub fn down(rt: &impl Print) -> io::Result<()> {
    downgrade(
        rt,
        b"\x00\x09\x01\x00\x00\x00\x00\x07default\x00\x00\x00\x00\x00",
        8,
    )?;
    downgrade(
        rt,
        b"\x00\x09\x06\x00\x00\x00\x00\x00\x00\x00\x00\x00\xff",
        64,
    )?;
    downgrade(rt, b"\x00\x03\x03\x00\x00\x00\x00\x02ab\x00\x00", 12)?;
    downgrade(rt, b"\x0f\xff\x04\x00", 4)?;
    downgrade(rt, b"\x00\x00\x07\x00\x00\x00\x00\x00", 0)?;
    downgrade(rt, b"\x00\x00\x07\x00\x00\x00\x00\x41", 0)?;
    downgrade(rt, b"\x00\x09\x01\x00\x00\x00\x00\x01\xff\x00\x00\x00", 0)?;
    downgrade(
        rt,
        b"\x00\x09\x01\x00\x00\x00\x00\x07default\x00\x00\x00\x00\x00",
        7,
    )
}

// Turned and turned back.
pub fn back(rt: &impl Print) -> io::Result<()> {
    upgrade(rt, b"\x00\x09\x01\x00\x00\x00\x00\x00", b"r", 64)?;
    downgrade(
        rt,
        b"\x00\x09\x01\x00\x00\x00\x00\x01r\x00\x00\x00\x00\x00\x00\x00",
        64,
    )
}
