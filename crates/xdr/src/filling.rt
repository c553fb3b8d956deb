// What a call answers that fills a lent buffer.
ghost use Rattle.std.specs.Prelude.{◌≡◌};
ghost use Rattle.xdr.specs.Filling.{refuses, filling_answer};

use crate::answer::Refusal;

// A refusal at place 0.
pub fn refused(number: u32) -> Result<usize, Refusal>
    ensures { result ≡ filling_answer (refuses number 0) }
{
    Err(Refusal::at_start(number))
}
