// Messages with fields, in runs.
use crate::line::line;
use message::Edition;
use std::io;

// Each type that has files, cut within its fields.
pub fn indexes(rt: &impl Print) -> io::Result<()> {
    line(
        rt,
        Edition::New,
        "an Index",
        &[
            b"\x00\x00\x01\x00\x00\x00\x00\x01r\x00\x00\x00\x00\x00\x00\x01\x00\x00\x00\x01a\x00",
            b"\x00\x00\x00\x00\x00\x00\x00\x00\x00\x00\x00\x00\x00\x00\x00\x00\x00\x00\x00\x00",
            b"\x00\x00",
        ],
    )?;
    line(
        rt,
        Edition::Old,
        "an IndexUpdate",
        &[
            b"\x00\x00\x06\x00\x00\x00\x00\x01\x00\x00\x00\x01a\x00\x00\x00\x00\x00\x00\x00\x00\x00\x00\x00\x00\x00\x00\x05\x00\x00",
            b"\x00\x01\x00\x00\x00\x01\x00\x00\x00\x05\x00\x00\x00\x20abababababababababababababababab",
        ],
    )
}

// Each other type that has fields, likewise.
pub fn types(rt: &impl Print) -> io::Result<()> {
    line(
        rt,
        Edition::New,
        "a Request",
        &[
            b"\x00\x09\x02\x00\x00\x00\x00\x01r\x00\x00\x00\x00\x00\x00\x01n\x00",
            b"\x00\x00\x00\x00\x00\x00\x00\x00\x00\x07\x00\x00\x00\x05\x00\x00",
            b"\x00\x20abababababababababababababababa",
            b"b",
        ],
    )?;
    line(
        rt,
        Edition::New,
        "a Response",
        &[
            b"\x00\x03\x03\x00\x00\x00",
            b"\x00\x05abc",
            b"de\x00\x00\x00",
        ],
    )?;
    line(
        rt,
        Edition::New,
        "Options",
        &[
            b"\x00\x09\x07\x00\x00\x00\x00\x01\x00\x00\x00\x01k",
            b"\x00\x00\x00\x00\x00\x00\x02v",
            b"v\x00\x00",
        ],
    )
}

// Faults of words and counts are told with the word's last byte.
pub fn faults(rt: &impl Print) -> io::Result<()> {
    line(
        rt,
        Edition::New,
        "a Repository of 65 bytes",
        &[b"\x00\x00\x01\x00\x00\x00\x00", b"\x41", b"ab"],
    )?;
    line(
        rt,
        Edition::Old,
        "a hash of 31 bytes",
        &[
            b"\x00\x00\x02\x00\x00\x00\x00\x01n\x00\x00\x00\x00\x00\x00\x00\x00\x00\x00\x00\x00\x00\x00\x05\x00\x00\x00",
            b"\x1f",
        ],
    )
}

// 131,072 bytes of data in two runs, and a byte more.
pub fn long_response(rt: &impl Print) -> io::Result<()> {
    let data = [b'a'; 65536];
    line(
        rt,
        Edition::New,
        "a long Response",
        &[b"\x00\x01\x03\x00\x00\x02\x00\x00", &data, &data, b"\x00"],
    )
}
