// Why a block isn't coming.
ghost use Rattle.std.specs.Prelude.{[], ◌∷◌};
ghost use Rattle.reason.specs.Reasons.{why_of};
ghost use Rattle.bep.specs.Reasons.{Reasons};

use reason::Reason;
use xdr::Refusal;

// Puts a reason into the words of the answer.
fn give_reason(why: Result<Reason, Refusal>, answer: &mut [u64; 3]) -> u32
    ensures { Reasons why result answer.new }
{
    let mut number = 0;
    *answer = match why {
        Ok(Reason::NoSuchName) => [1, 0, 0],
        Ok(Reason::Deleted) => [2, 0, 0],
        Ok(Reason::Invalid) => [3, 0, 0],
        Ok(Reason::NoSuchBlock) => [4, 0, 0],
        Ok(Reason::Held { record, block }) => [5, record as u64, block as u64],
        Ok(Reason::Wanted { peer }) => [6, peer as u64, 0],
        Err(r) => {
            number = r.number;
            [0, 0, 0]
        }
    };
    number
}

// Why block number `block` of a name isn't coming, by a local table and four peers' tables.
pub fn bep_why<'a>(
    local: &'a [u8],
    peer1: &'a [u8],
    peer2: &'a [u8],
    peer3: &'a [u8],
    peer4: &'a [u8],
    name: &[u8],
    block: u32,
    answer: &mut [u64; 3],
) -> u32
    ensures { Reasons
        (why_of local.now (peer1.now ∷ peer2.now ∷ peer3.now ∷ peer4.now ∷ [])
        name.now block) result answer.new }
{
    let why = reason::why(local, peer1, peer2, peer3, peer4, name, block);
    give_reason(why, answer)
}
