// Whom to ask for a block.
ghost use Rattle.std.specs.Prelude.{map, ◌≡◌, drop};
ghost use Rattle.std.specs.Option.{unwrap_or};
ghost use Rattle.table.specs.Table.{records};
ghost use Rattle.want.specs.Listing.{block_with};
ghost use Rattle.want.specs.Wanted.{peer_from};
ghost use Rattle.want.specs.Steps.Places.{Five};

use crate::finding::find;
use want::places::lists_at;

// The lowest peer that lists a block of a name at an offset, where one does.
pub(crate) fn lowest(
    tables: [&[u8]; 5],
    name: &[u8],
    offset: u64,
    size: u32,
    hash: &[u8],
) -> Option<u32>
    requires { Five (map (λ x. x.now) tables) }
    ensures { unwrap_or result 0 ≡ peer_from 1 (map records (drop 1 (map (λ x. x.now) tables.entry))) name.now offset (block_with size hash.now) }
{
    for k in 1..5usize {
        let t = tables[k];
        if lists_at(t, find(t, name), name, offset, size, hash) {
            return Some(k as u32);
        }
    }
    None
}
