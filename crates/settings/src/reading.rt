// Reading settings: field by field, from the left.
ghost use Rattle.std.specs.Prelude.{◌≡◌};
ghost use Rattle.settings.specs.Reading.{none, read_from, reading, settings_answer};

use crate::answer::Settings;
use crate::field::{fault_at, size_at, with_field};
use xdr::Refusal;

// The fields of a slice, of which the first may have any tag from the least on.
pub(crate) fn read_from(s: &[u8], first: usize) -> Result<Settings, Refusal>
    ensures { result ≡ settings_answer (read_from s.now 0 first 0 none) }
{
    let mut settings = Settings {
        window: None,
        allowance: None,
        repository: None,
        note: None,
        carried: 0,
    };
    let mut at = 0;
    let mut least = first;
    // A `while`, since a field is as long as its length word says.
    while at < s.len() {
        if let Some(number) = fault_at(s, at, least) {
            return Err(Refusal { number, place: at });
        }
        let tag = s[at];
        let start = at + 3;
        let end = start + size_at(s, at + 1);
        settings = with_field(settings, start, end, tag, &s[start..end]);
        least = (tag as usize) + 1;
        at = end;
    }
    Ok(settings)
}

// Settings, of which the bytes are given whole.
pub fn read(bytes: &[u8]) -> Result<Settings, Refusal>
    ensures { result ≡ settings_answer (reading bytes.now) }
{
    read_from(bytes, 0)
}
