// Why a block isn't coming.
ghost use Rattle.std.specs.Prelude.{[], ◌∷◌};
ghost use Rattle.reason.specs.Reasons.{why_of};
ghost use Rattle.bep.specs.Reasons.{Reasons};

// Why block number `block` of a name isn't coming, by a local table and four peers' tables.
#[unsafe(no_mangle)]
pub extern "C" fn bep_why<'a>(
    local: &'a [u8],
    peer1: &'a [u8],
    peer2: &'a [u8],
    peer3: &'a [u8],
    peer4: &'a [u8],
    name: &[u8],
    block: u32,
    answer: &mut [u64; 3],
) -> u32
    ensures { Reasons
        (why_of local.now (peer1.now ∷ peer2.now ∷ peer3.now ∷ peer4.now ∷ [])
        name.now block) result answer.new }
{
    bep::reasons::bep_why(local, peer1, peer2, peer3, peer4, name, block, answer)
}
