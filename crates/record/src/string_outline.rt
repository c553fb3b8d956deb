// A string at a place, by bounds checks alone: for strings that were read before.
ghost use Rattle.std.specs.Prelude.{◌≡◌};
ghost use Rattle.record.specs.Steps.{string_of};

// The length of a string's contents, which begin 4 bytes after its place, and the place after its pad.
#[derive(Clone, Copy)]
pub struct StringFields {
    pub length: usize,
    pub past: usize,
}

// The string at a place, where it ends within the bytes.
pub(crate) fn string_at(s: &[u8], at: usize) -> Option<StringFields>
    ensures { result ≡ string_of s.now at }
{
    let (len, start) = xdr::read_word(s, at).ok()?;
    let length = len as usize;
    let size = (length + 3) / 4 * 4;
    if s.len() - start < size {
        return None;
    }
    let past = start + size;
    Some(StringFields { length, past })
}
