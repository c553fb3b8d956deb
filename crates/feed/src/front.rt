// The first four bytes of a message, its header.
ghost use Rattle.std.specs.Prelude.{◌≡◌, ◌+◌, ◌*◌, ◌<◌};
ghost use Rattle.feed.specs.Front.{FrontFits, FrontOver};

use crate::state::Front;

// One byte more.
fn one_more(have: u32, value: u32, b: u8) -> Front
    requires { (have < 4) × (value < 16777216) }
    ensures { (result.have ≡ have + 1) × (result.value ≡ value * 256 + b) }
{
    Front {
        have: have + 1,
        value: value * 256 + (b as u32),
    }
}

// The first bytes after a run.
pub(crate) fn front_after(front: Front, run: &[u8]) -> Front
    requires { FrontFits front }
    ensures { FrontOver front run.now result }
{
    let mut f = front;
    for b in run {
        if f.have == 4 {
            return f;
        }
        f = one_more(f.have, f.value, *b);
    }
    f
}
