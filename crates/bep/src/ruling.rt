// The ruling on an incoming Request.
ghost use Rattle.std.specs.Prelude.{◌≡◌};
ghost use Rattle.serve.specs.Ruling.{ruling_of};
ghost use Rattle.bep.specs.Serving.{serving_number, serving_words, RuledSo};

use serve::Serving;
use xdr::Refusal;

// Fills the answer of a ruling, and gives its number.
fn give_serving(s: Result<Serving, Refusal>, answer: &mut [u64; 5]) -> u32
    ensures { (result ≡ serving_number s) × (answer.new ≡ serving_words s) }
{
    match s {
        Ok(Serving::Served { name, offset, size }) => {
            *answer = [
                1,
                name.start as u64,
                name.length as u64,
                offset,
                size as u64,
            ];
            0
        }
        Ok(Serving::Replied(n)) => {
            *answer = [0, n as u64, 0, 0, 0];
            0
        }
        Err(r) => {
            *answer = [r.place as u64, 0, 0, 0, 0];
            r.number
        }
    }
}

// Serves a Request, or replies to it with no data.
pub fn bep_serve(
    out: &mut [u8],
    table: &[u8],
    repository: &[u8],
    message: &[u8],
    answer: &mut [u64; 5],
) -> u32
    ensures { RuledSo (ruling_of table.now repository.now message.now)
        out.old result answer.new out.new }
{
    let s = serve::serve(table, repository, message, out);
    give_serving(s, answer)
}
