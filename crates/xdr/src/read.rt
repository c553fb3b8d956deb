// Reading at a place of a slice.
ghost use Rattle.std.specs.Prelude.{◌≡◌};
ghost use Rattle.xdr.specs.Answers.{word_answer, hyper_answer, bytes_answer};
ghost use Rattle.xdr.specs.Fields.{word, hyper, opaque, text};
ghost use Rattle.xdr.specs.Format.{read_at};

use crate::answer::{Refusal, refusal_of};
use crate::number::{hyper_at, word_at};
use crate::pad::{pad_after, zeros_up_to};
use crate::text::sound_up_to;

// The word at a place.
pub fn read_word(s: &[u8], at: usize) -> Result<(u32, usize), Refusal>
    ensures { result ≡ word_answer (read_at word s.now at) }
{
    if s.len() < 4 || s.len() - 4 < at {
        return Err(Refusal {
            number: 1,
            place: at,
        });
    }
    Ok((word_at(s, at), at + 4))
}

// The number of 64 bits at a place.
pub fn read_hyper(s: &[u8], at: usize) -> Result<(u64, usize), Refusal>
    ensures { result ≡ hyper_answer (read_at hyper s.now at) }
{
    if s.len() < 8 || s.len() - 8 < at {
        return Err(Refusal {
            number: 1,
            place: at,
        });
    }
    Ok((hyper_at(s, at), at + 8))
}

// The opaque at a place: its contents may be as long as the limit.
pub fn read_bytes(s: &[u8], at: usize, limit: u32) -> Result<(usize, usize), Refusal>
    ensures { result ≡ bytes_answer (read_at (opaque limit) s.now at) }
{
    let answer = read_word(s, at);
    let Ok((len, start)) = answer else {
        return Err(refusal_of(answer));
    };
    if limit < len {
        return Err(Refusal {
            number: 5,
            place: at,
        });
    }
    let n = len as usize;
    let pad = pad_after(n);
    if s.len() - start < n + pad {
        return Err(Refusal {
            number: 1,
            place: at,
        });
    }
    let pad_at = start + n;
    let end = pad_at + pad;
    let zeros = zeros_up_to(&s[pad_at..end]);
    if zeros == pad {
        Ok((n, end))
    } else {
        Err(Refusal {
            number: 6,
            place: pad_at + zeros,
        })
    }
}

// The string at a place: an opaque whose contents keep the text rule.
pub fn read_text(s: &[u8], at: usize, limit: u32) -> Result<(usize, usize), Refusal>
    ensures { result ≡ bytes_answer (read_at (text limit) s.now at) }
{
    let answer = read_bytes(s, at, limit);
    let Ok((n, next)) = answer else {
        return Err(refusal_of(answer));
    };
    let start = at + 4;
    let end = start + n;
    let sound = sound_up_to(&s[start..end]);
    if sound == n {
        Ok((n, next))
    } else {
        Err(Refusal {
            number: 7,
            place: start + sound,
        })
    }
}
