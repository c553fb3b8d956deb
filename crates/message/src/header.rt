// The header word: taken apart and put together by shifts and masks.
ghost use Rattle.std.specs.Prelude.{◌≡◌, ◌%◌};
ghost use Rattle.xdr.specs.Answers.{word_answer};
ghost use Rattle.xdr.specs.Format.{read_at};
ghost use Rattle.message.specs.Header.{version_of, id_of, type_of, reserved_of, last_type, header_of, header};

use crate::edition::Edition;
use xdr::Refusal;

// The version of a header.
pub fn version_of(h: u32) -> u32
    ensures { result ≡ version_of h }
{
    h >> 28
}

// The Message ID of a header.
pub fn id_of(h: u32) -> u32
    ensures { result ≡ id_of h }
{
    (h >> 16) & 4095
}

// The type of a header.
pub fn type_of(h: u32) -> u32
    ensures { result ≡ type_of h }
{
    (h >> 8) & 255
}

// The reserved bits of a header.
pub fn reserved_of(h: u32) -> u32
    ensures { result ≡ reserved_of h }
{
    h & 255
}

// The highest type of an edition.
pub fn last_type(edition: Edition) -> u32
    ensures { result ≡ last_type edition }
{
    match edition {
        Edition::Old => 6,
        Edition::New => 7,
    }
}

// The header of a message with an ID and a type, of which the low 12 and 8 bits count. The type is a number, since it may be any.
pub fn header_of(id: u32, kind: u32) -> u32
    ensures { result ≡ header_of (id % 4096) (kind % 256) }
{
    ((id & 4095) << 16) | ((kind & 255) << 8)
}

// The header at the front of some bytes.
pub fn read_header(edition: Edition, s: &[u8]) -> Result<(u32, usize), Refusal>
    ensures { result ≡ word_answer (read_at (header edition) s.now 0) }
{
    let answer = xdr::read_word(s, 0);
    let Ok((h, next)) = answer else {
        return Err(xdr::refusal_of(answer));
    };
    if version_of(h) != 0 {
        return Err(Refusal::at_start(2));
    }
    let kind = type_of(h);
    if kind == 0 {
        return Err(Refusal::at_start(3));
    }
    if last_type(edition) < kind {
        return Err(Refusal::at_start(3));
    }
    if reserved_of(h) != 0 {
        return Err(Refusal::at_start(4));
    }
    Ok((h, next))
}
