// The answer of a call that fills a lent buffer.
ghost use Rattle.std.specs.Prelude.{◌≡◌};
ghost use Rattle.bep.specs.Filling.{filling_number, filling_words};

use xdr::Refusal;

// Fills the answer, and gives the number.
pub fn give(f: Result<usize, Refusal>, answer: &mut [u64; 1]) -> u32
    ensures { (result ≡ filling_number f) × (answer.new ≡ filling_words f) }
{
    match f {
        Ok(n) => {
            *answer = [n as u64];
            0
        }
        Err(r) => {
            *answer = [r.place as u64];
            r.number
        }
    }
}
