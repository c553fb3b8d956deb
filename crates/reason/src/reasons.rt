// The reasons.
ghost use Rattle.std.specs.Prelude.{List, [], ◌∷◌, map, ◌≡◌, ℕ, drop, Ok};
ghost use Rattle.record.specs.File.{File};
ghost use Rattle.record.specs.Outline.{fields_of};
ghost use Rattle.table.specs.Table.{records};
ghost use Rattle.table.specs.Steps.Standing.{At};
ghost use Rattle.want.specs.Found.{found_from};
ghost use Rattle.want.specs.Listing.{block_with};
ghost use Rattle.want.specs.Wanted.{peer_from};
ghost use Rattle.want.specs.Steps.Places.{table_at, Five};
ghost use Rattle.reason.specs.Reasons.{held_or, why_record, why_of};

use crate::highest::highest;
use crate::peers::lowest;
use record::{BlockFields, RecordFields};
use want::find_local;
use want::list::all_good;
use xdr::Refusal;

// Why a block isn't coming. A held block stands in a local record, both counted from 0; a wanted one is to be had of a peer.
#[derive(Clone, Copy)]
pub enum Reason {
    NoSuchName,
    Deleted,
    Invalid,
    NoSuchBlock,
    Held { record: u32, block: u32 },
    Wanted { peer: u32 },
}

// A block of a name's highest record, by its offset, its Length and its hash: held or wanted.
fn by_block(
    tables: [&[u8]; 5],
    name: &[u8],
    offset: u64,
    size: u32,
    hash: &[u8],
) -> Result<Reason, Refusal>
    requires { Five (map (λ x. x.now) tables) }
    ensures { result ≡ Ok (held_or (found_from 0 (records (table_at (map (λ x. x.now) tables.entry) 0)) (block_with size hash.now))
        (peer_from 1 (map records (drop 1 (map (λ x. x.now) tables.entry))) name.now offset (block_with size hash.now))) }
{
    let Some(found) = find_local(tables[0], size, hash)? else {
        // In a reason, 0 is no peer.
        let peer = lowest(tables, name, offset, size, hash).unwrap_or(0);
        return Ok(Reason::Wanted { peer });
    };
    Ok(Reason::Held {
        record: found.record,
        block: found.block,
    })
}

// A block of the highest record of a name, by its number.
fn by_record(
    tables: [&[u8]; 5],
    t: &[u8],
    f: RecordFields,
    name: &[u8],
    block: u32,
) -> Result<Reason, Refusal>
    requires { Five (map (λ x. x.now) tables) }
    ensures { (at : ℕ) (g : File) (gs : List File) → At t.now at (g ∷ gs) → f ≡ fields_of at g → g.name ≡ name.now
        → result ≡ Ok (why_record (records (table_at (map (λ x. x.now) tables.entry) 0)) (map records (drop 1 (map (λ x. x.now) tables.entry))) block g) }
{
    let deleted = record::is_deleted(f.flags);
    let invalid = record::is_invalid(f.flags);
    if deleted {
        return Ok(Reason::Deleted);
    }
    if invalid {
        return Ok(Reason::Invalid);
    }
    if f.blocks <= block {
        return Ok(Reason::NoSuchBlock);
    }
    let first = f.first;
    let Some(BlockFields { size, hash }) = record::block_at(t, first, block) else {
        return Ok(Reason::NoSuchBlock);
    };
    let offset = record::offset_of(t, first, block);
    by_block(tables, name, offset, size, order::part(t, hash, hash + 32))
}

// Why block number `block` of a name isn't coming, by the local table and four peers'.
pub fn why<'a>(
    local: &'a [u8],
    peer1: &'a [u8],
    peer2: &'a [u8],
    peer3: &'a [u8],
    peer4: &'a [u8],
    name: &[u8],
    block: u32,
) -> Result<Reason, Refusal>
    ensures { result ≡ why_of local.now (peer1.now ∷ peer2.now ∷ peer3.now ∷ peer4.now ∷ [])
        name.now block }
{
    if !all_good(local, peer1, peer2, peer3, peer4) {
        return Err(Refusal::at_start(15));
    }
    let tables = [local, peer1, peer2, peer3, peer4];
    let Some(best) = highest(tables, name) else {
        return Ok(Reason::NoSuchName);
    };
    by_record(tables, tables[best.table], best.fields, name, block)
}
