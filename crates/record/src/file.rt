// FileInfo: Name, Flags, Modified, Version and blocks.
ghost use Rattle.std.specs.Prelude.{◌≡◌};
ghost use Rattle.xdr.specs.Answers.{word_answer, bytes_answer};
ghost use Rattle.xdr.specs.Format.{read_at};
ghost use Rattle.record.specs.Answers.{file_answer};
ghost use Rattle.record.specs.File.{is_deleted, is_invalid, mode as mode_of, name as name_field, flags as flags_field, file};

use crate::block::read_blocks;
use crate::limits::{FLAGS_BOUND, NAME_LIMIT};
use crate::name::name_fault;
use xdr::Refusal;

// The fields of a file: of its name, which begins at byte 4, the length, of its blocks the number and the place of the first,
// and the place after the file.
#[derive(Clone, Copy)]
pub struct FileSpan {
    pub name_length: usize,
    pub flags: u32,
    pub modified: u64,
    pub version: u32,
    pub blocks: u32,
    pub first: usize,
    pub next: usize,
}

// Flag D.
pub fn is_deleted(flags: u32) -> bool
    ensures { result ≡ is_deleted flags }
{
    flags & 4096 != 0
}

// Flag I.
pub fn is_invalid(flags: u32) -> bool
    ensures { result ≡ is_invalid flags }
{
    flags & 8192 != 0
}

// The Unix mode.
pub fn mode(flags: u32) -> u32
    ensures { result ≡ mode_of flags }
{
    flags & 4095
}

// The Name of a file or of a Request at a place.
pub fn read_name(s: &[u8], at: usize) -> Result<(usize, usize), Refusal>
    ensures { result ≡ bytes_answer (read_at name_field s.now at) }
{
    let answer = xdr::read_text(s, at, NAME_LIMIT);
    let Ok((n, next)) = answer else {
        return Err(xdr::refusal_of(answer));
    };
    let start = at + 4;
    if let Some(number) = name_fault(&s[start..start + n]) {
        return Err(Refusal { number, place: at });
    }
    Ok((n, next))
}

// The Flags at a place.
pub fn read_flags(s: &[u8], at: usize) -> Result<(u32, usize), Refusal>
    ensures { result ≡ word_answer (read_at flags_field s.now at) }
{
    let answer = xdr::read_word(s, at);
    let Ok((f, next)) = answer else {
        return Err(xdr::refusal_of(answer));
    };
    if FLAGS_BOUND <= f {
        return Err(Refusal {
            number: 11,
            place: at,
        });
    }
    Ok((f, next))
}

// The file at the front of a part.
pub fn read_file(s: &[u8]) -> Result<FileSpan, Refusal>
    ensures { result ≡ file_answer (read_at file s.now 0) }
{
    let name = read_name(s, 0);
    let Ok((name_length, flags_at)) = name else {
        return Err(xdr::refusal_of(name));
    };
    let flags = read_flags(s, flags_at);
    let Ok((flags_word, modified_at)) = flags else {
        return Err(xdr::refusal_of(flags));
    };
    let modified = xdr::read_hyper(s, modified_at);
    let Ok((modified_bits, version_at)) = modified else {
        return Err(xdr::refusal_of(modified));
    };
    let version = xdr::read_word(s, version_at);
    let Ok((version_word, count_at)) = version else {
        return Err(xdr::refusal_of(version));
    };
    let blocks = read_blocks(&s[count_at..], is_deleted(flags_word));
    let Ok((count, used)) = blocks else {
        let refusal = xdr::refusal_of(blocks);
        return Err(Refusal {
            number: refusal.number,
            place: count_at + refusal.place,
        });
    };
    Ok(FileSpan {
        name_length,
        flags: flags_word,
        modified: modified_bits,
        version: version_word,
        blocks: count,
        first: count_at + 4,
        next: count_at + used,
    })
}
