// One field at a place: what is wrong with it, and what it adds to the settings.
ghost use Rattle.std.specs.Prelude.{◌≡◌, ◌+◌, ◌*◌, ◌≤◌, ◌<◌, leb, length, drop, get_or};
ghost use Rattle.xdr.specs.Number.{big_endian};
ghost use Rattle.settings.specs.Field.{wrong as wrong_in, fault as fault_of};
ghost use Rattle.settings.specs.Reading.{with_field};
ghost use Rattle.settings.specs.Steps.{unless_0};

use crate::answer::{Settings, Span};
use crate::contents::{ALLOWANCE, NOTE, REPOSITORY, WINDOW, byte_in, word_in, wrong};

// The number that two bytes are, the higher first.
fn joined(high: u8, low: u8) -> usize
    ensures { result ≡ high * 256 + low }
{
    (high as usize) * 256 + (low as usize)
}

// The number that two bytes at a place are.
pub(crate) fn size_at(s: &[u8], at: usize) -> usize
    requires { at + 2 ≤ length s.now }
    ensures { result ≡ big_endian 2 (drop at s.now) }
{
    joined(s[at], s[at + 1])
}

// Whether a tag is in order, where the least that is in order is given. A tag stays a byte: fields of any tag are carried along.
fn in_order(tag: u8, least: usize) -> bool
    ensures { result ≡ leb least tag }
{
    least <= (tag as usize)
}

// What is wrong with the field at a place, where the least tag is given that is in order.
pub(crate) fn fault_at(s: &[u8], at: usize, least: usize) -> Option<u32>
    requires { at < length s.now }
    ensures { result ≡ unless_0 (fault_of least (get_or s.now at 0) (drop (at + 1) s.now)) }
{
    if s.len() - at < 3 {
        return Some(26);
    }
    let start = at + 3;
    let n = size_at(s, at + 1);
    if s.len() - start < n {
        return Some(26);
    }
    if !in_order(s[at], least) {
        return Some(26);
    }
    let end = start + n;
    wrong(s[at], &s[start..end])
}

// Settings with one field more, whose contents are the slice, and begin and end at these places of what is read.
pub(crate) fn with_field(
    settings: Settings,
    start: usize,
    end: usize,
    tag: u8,
    contents: &[u8],
) -> Settings
    requires { (wrong_in tag contents.now ≡ 0) × (end ≡ start + length contents.now) }
    ensures { result ≡ with_field settings start tag contents.now }
{
    if tag == WINDOW {
        let window = Some(byte_in(contents));
        return Settings {
            window,
            carried: end,
            ..settings
        };
    }
    if tag == ALLOWANCE {
        let allowance = Some(word_in(contents));
        return Settings {
            allowance,
            carried: end,
            ..settings
        };
    }
    let span = Some(Span {
        start,
        length: contents.len(),
    });
    if tag == REPOSITORY {
        return Settings {
            repository: span,
            carried: end,
            ..settings
        };
    }
    if tag == NOTE {
        return Settings {
            note: span,
            carried: end,
            ..settings
        };
    }
    settings
}
