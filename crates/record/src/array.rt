// Arrays: a count, and that many elements.
ghost use Rattle.std.specs.Prelude.{◌≡◌};
ghost use Rattle.xdr.specs.Answers.{word_answer};
ghost use Rattle.xdr.specs.Fields.{up_to};
ghost use Rattle.xdr.specs.Format.{read_at};

use xdr::Refusal;

// The count at a place, which may be as high as the limit.
pub fn read_count(s: &[u8], at: usize, limit: u32) -> Result<(u32, usize), Refusal>
    ensures { result ≡ word_answer (read_at (up_to limit) s.now at) }
{
    let answer = xdr::read_word(s, at);
    let Ok((count, next)) = answer else {
        return Err(xdr::refusal_of(answer));
    };
    if limit < count {
        return Err(Refusal {
            number: 5,
            place: at,
        });
    }
    Ok((count, next))
}
