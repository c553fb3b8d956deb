// What the record at a place of a table lists.
ghost use Rattle.std.specs.Prelude.{◌≡◌};
ghost use Rattle.want.specs.Listing.{block_with};
ghost use Rattle.want.specs.Steps.Places.{lists_at};

use crate::block::listed;
use crate::run::{Mark, Run, has_there};

// Whether the record at a place is of a name and lists a block there.
pub fn lists_at(t: &[u8], at: usize, name: &[u8], offset: u64, size: u32, hash: &[u8]) -> bool
    ensures { result ≡ lists_at t.now at name.now offset (block_with size hash.now) }
{
    let Some(f) = record::outline_at(t, at) else {
        return false;
    };
    if !order::compare_bytes(order::part(t, f.name, f.stop), name).is_eq() {
        return false;
    }
    let run = Run {
        first: f.first,
        count: listed(f),
    };
    has_there(t, run, Mark { j: 0, from: 0 }, offset, size, hash)
}
