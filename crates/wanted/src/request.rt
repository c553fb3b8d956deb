// The request list of what the files hold.
ghost use Rattle.std.specs.Prelude.{[], ◌∷◌, take};
ghost use Rattle.xdr.specs.Filling.{Fills};
ghost use Rattle.want.specs.Wanted.{request_outcome};

use files::{Sizes, first};
use xdr::Refusal;

// The list of the tables in the first bytes of their buffers.
pub fn list<'a>(
    local: &'a [u8],
    peer1: &'a [u8],
    peer2: &'a [u8],
    peer3: &'a [u8],
    peer4: &'a [u8],
    sizes: Sizes,
    out: &mut [u8],
) -> Result<usize, Refusal>
    ensures { Fills
        (request_outcome (take sizes.local local.now)
        (take sizes.peer1 peer1.now ∷ take sizes.peer2 peer2.now
        ∷ take sizes.peer3 peer3.now ∷ take sizes.peer4 peer4.now ∷ []))
        out.old result out.new }
{
    want::request_list(
        first(local, sizes.local),
        first(peer1, sizes.peer1),
        first(peer2, sizes.peer2),
        first(peer3, sizes.peer3),
        first(peer4, sizes.peer4),
        out,
    )
}
