// An outstanding request, and how one follows another.
ghost use Rattle.std.specs.Prelude.{◌≡◌, ◌++◌, [], ◌∷◌, drop};
ghost use Rattle.link.specs.Requests.{after, blank, stands_before};

use message::ID_LIMIT;

// An outstanding request: its ID and its Length.
#[derive(Clone, Copy)]
pub struct Request {
    pub id: u32,
    pub size: u32,
}

// The ID that follows: 0 after 4095.
pub fn following(id: u32) -> u32
    ensures { result ≡ after id }
{
    if id < ID_LIMIT { id + 1 } else { 0 }
}

// Whether a request can stand before one with the ID `next`.
pub fn stands_before(e: Request, next: u32) -> bool
    ensures { result ≡ stands_before e next }
{
    e.id <= ID_LIMIT && following(e.id) == next && record::is_size(e.size)
}

// The requests moved down by one, over the first.
pub fn shifted(entries: [Request; 16]) -> [Request; 16]
    ensures { result ≡ drop 1 entries ++ (blank ∷ []) }
{
    let mut out = [Request { id: 0, size: 0 }; 16];
    // One by one, so that the compiler keeps them in registers: `copy_from_slice` takes them through memory (docs/BENCH.md).
    for (i, &e) in entries[1..].iter().enumerate() {
        out[i] = e;
    }
    out
}
