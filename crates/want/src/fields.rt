// The record that stands at a place of a table. All its bytes are there, so no length is tested, and a word is one load.
ghost use Rattle.std.specs.Prelude.{◌≡◌, ◌+◌, ◌≤◌, length, drop};
ghost use Rattle.xdr.specs.Number.{big_endian};
ghost use Rattle.record.specs.Outline.{word_at, outline_of};
ghost use Rattle.want.specs.Steps.Head.{name_at, fields_at, Stands};

use record::RecordFields;

// The word at a place. All its bytes are there, so the 0 is never answered.
pub(crate) fn word_at(s: &[u8], p: usize) -> u32
    requires { p + 4 ≤ length s.now }
    ensures { result ≡ word_at s.now p }
{
    let end = p + 4;
    let Ok((n, _)) = xdr::read_word(&s[p..end], 0) else {
        return 0;
    };
    n
}

// Eight bytes as a number: as the word.
fn eight_at(s: &[u8], p: usize) -> u64
    requires { p + 8 ≤ length s.now }
    ensures { result ≡ big_endian 8 (drop p s.now) }
{
    let end = p + 8;
    let Ok((n, _)) = xdr::read_hyper(&s[p..end], 0) else {
        return 0;
    };
    n
}

// The name of the record at a place.
pub(crate) fn name_at(t: &[u8], at: usize) -> &[u8]
    requires { (fields_at t.now at).past ≤ length t.now }
    ensures { result.now ≡ name_at t.now (fields_at t.now at) }
{
    let from = at + 4;
    let to = from + (word_at(t, at) as usize);
    &t[from..to]
}

// The fields of the record at a place.
pub(crate) fn fields_at(t: &[u8], at: usize) -> RecordFields
    requires { (fields_at t.now at).past ≤ length t.now }
    ensures { result ≡ fields_at t.now at }
{
    let name = at + 4;
    let n = word_at(t, at) as usize;
    let rest = name + (n + 3) / 4 * 4;
    let first = rest + 20;
    let blocks = word_at(t, rest + 16);
    RecordFields {
        name,
        stop: name + n,
        rest,
        flags: word_at(t, rest),
        modified: eight_at(t, rest + 4),
        version: word_at(t, rest + 12),
        blocks,
        first,
        past: first + (blocks as usize) * 40,
    }
}

// The record at a place, or none where the table ends.
pub(crate) fn record_at(t: &[u8], at: usize) -> Option<RecordFields>
    requires { Stands t.now at }
    ensures { result ≡ outline_of t.now at }
{
    if t.len() <= at {
        return None;
    }
    Some(fields_at(t, at))
}
