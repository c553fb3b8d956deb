// Options: Key and Value.
ghost use Rattle.std.specs.Prelude.{◌≡◌};
ghost use Rattle.xdr.specs.Format.{read_at};
ghost use Rattle.record.specs.Answers.{option_answer, array_answer};
ghost use Rattle.record.specs.KeyValue.{key_value, options};

use crate::array::read_count;
use crate::limits::{KEY_LIMIT, VALUE_LIMIT};
use xdr::Refusal;

// An option: the length of its Key, which begins at byte 4, the place where its Value's bytes start and their number, and the place after
// the option.
#[derive(Clone, Copy)]
pub struct OptionSpan {
    pub key_length: usize,
    pub value_start: usize,
    pub value_length: usize,
    pub next: usize,
}

// The option at the front of a part.
pub fn read_option(s: &[u8]) -> Result<OptionSpan, Refusal>
    ensures { result ≡ option_answer (read_at key_value s.now 0) }
{
    let key = xdr::read_text(s, 0, KEY_LIMIT);
    let Ok((key_length, value_at)) = key else {
        return Err(xdr::refusal_of(key));
    };
    let value = xdr::read_text(s, value_at, VALUE_LIMIT);
    let Ok((value_length, next)) = value else {
        return Err(xdr::refusal_of(value));
    };
    Ok(OptionSpan {
        key_length,
        value_start: value_at + 4,
        value_length,
        next,
    })
}

// The options at the front of a part, up to a limit.
pub fn read_options(s: &[u8], limit: u32) -> Result<(u32, usize), Refusal>
    ensures { result ≡ array_answer (read_at (options limit) s.now 0) }
{
    let answer = read_count(s, 0, limit);
    let Ok((count, first)) = answer else {
        return Err(xdr::refusal_of(answer));
    };
    let mut next = first;
    for i in 0..count {
        let read = read_option(&s[next..]);
        let Ok(span) = read else {
            let refusal = xdr::refusal_of(read);
            return Err(Refusal {
                number: refusal.number,
                place: next + refusal.place,
            });
        };
        next += span.next;
    }
    Ok((count, next))
}
