// What the readers answer.
ghost use Rattle.std.specs.Prelude.{◌≡◌};
ghost use Rattle.xdr.specs.Answers.{at_start, refusal_of};

// Why a reading was refused, by number, and at which byte. The scope numbers the refusals, and the definition `refused` has the number.
#[derive(Clone, Copy)]
pub struct Refusal {
    pub number: u32,
    pub place: usize,
}

impl Refusal {
    // A refusal at place 0.
    pub fn at_start(number: u32) -> Refusal
        ensures { result ≡ at_start number }
    {
        Refusal { number, place: 0 }
    }
}

// The refusal of an answer, or number 0 where there is none.
pub fn refusal_of<T: Copy>(answer: Result<T, Refusal>) -> Refusal
    ensures { result ≡ refusal_of answer }
{
    match answer {
        Ok(_) => Refusal {
            number: 0,
            place: 0,
        },
        Err(r) => r,
    }
}
