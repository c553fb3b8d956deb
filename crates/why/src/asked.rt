// Why a block isn't coming, by what the files hold.
ghost use Rattle.std.specs.Prelude.{◌≡◌, [], ◌∷◌, take};
ghost use Rattle.reason.specs.Reasons.{why_of};
ghost use Rattle.why.specs.Bad.{first_bad};

use files::{Sizes, first};
use reason::Reason;
use xdr::Refusal;

// The reason, by the tables in the first bytes of their buffers.
pub fn why<'a>(
    local: &'a [u8],
    peer1: &'a [u8],
    peer2: &'a [u8],
    peer3: &'a [u8],
    peer4: &'a [u8],
    sizes: Sizes,
    name: &[u8],
    block: u32,
) -> Result<Reason, Refusal>
    ensures { result ≡ why_of (take sizes.local local.now)
        (take sizes.peer1 peer1.now ∷ take sizes.peer2 peer2.now
        ∷ take sizes.peer3 peer3.now ∷ take sizes.peer4 peer4.now ∷ [])
        name.now block }
{
    reason::why(
        first(local, sizes.local),
        first(peer1, sizes.peer1),
        first(peer2, sizes.peer2),
        first(peer3, sizes.peer3),
        first(peer4, sizes.peer4),
        name,
        block,
    )
}

// The number of the first of five tables that is not good, or 5: it is asked only where one is bad, so an `Option` would have a case that
// never comes.
pub fn first_bad(a: &[u8], b: &[u8], c: &[u8], d: &[u8], e: &[u8]) -> u32
    ensures { result ≡ first_bad 0 (a.now ∷ b.now ∷ c.now ∷ d.now ∷ e.now ∷ []) }
{
    if !table::is_good(a) {
        return 0;
    }
    if !table::is_good(b) {
        return 1;
    }
    if !table::is_good(c) {
        return 2;
    }
    if !table::is_good(d) {
        return 3;
    }
    if !table::is_good(e) {
        return 4;
    }
    5
}
