// From an entry of the list to what a Request says.
ghost use Rattle.std.specs.Prelude.{[], ◌∷◌, map, ◌≡◌};
ghost use Rattle.want.specs.Details.{details_of};
ghost use Rattle.want.specs.Steps.Places.{Five};
ghost use Rattle.want.specs.Steps.Entry.{details_by, Numbered};

use crate::head::next_head;
use crate::list::all_good;
use crate::pass::next_places;
use record::RecordFields;
use xdr::Refusal;

// What a Request for a block says: the table with its file's highest record (0 is the local one), where the name begins and stops there, the block's offset and Length, and
// where its hash begins there.
#[derive(Clone, Copy)]
pub struct Details {
    pub table: usize,
    pub name: usize,
    pub stop: usize,
    pub offset: u64,
    pub size: u32,
    pub hash: usize,
}

// The highest record of name number `file`, with its table; none where there are fewer names.
fn numbered(tables: [&[u8]; 5], file: u32) -> Option<(usize, RecordFields)>
    requires { Five (map (λ x. x.now) tables) }
    ensures { Numbered (map (λ x. x.now) tables.entry) file result }
{
    let mut places = [4; 5];
    for _ in 0..file {
        places = next_places(tables, places)?;
    }
    let head = next_head(tables, places);
    let fields = head.fields?;
    Some((head.best, fields))
}

// Block number `block` of a record of a table, by the record's fields; none where the record has fewer.
fn by_fields(t: &[u8], table: usize, f: RecordFields, block: u32) -> Option<Details>
    ensures { result ≡ details_by t.now table block f }
{
    if f.blocks <= block {
        return None;
    }
    let first = f.first;
    let b = record::block_at(t, first, block)?;
    Some(Details {
        table,
        name: f.name,
        stop: f.stop,
        offset: record::offset_of(t, first, block),
        size: b.size,
        hash: b.hash,
    })
}

// What a Request for block number `block` of file number `file` says, as the request list counts them; none where there is no such block.
pub fn details_of<'a>(
    local: &'a [u8],
    peer1: &'a [u8],
    peer2: &'a [u8],
    peer3: &'a [u8],
    peer4: &'a [u8],
    file: u32,
    block: u32,
) -> Result<Option<Details>, Refusal>
    ensures { result ≡ details_of local.now (peer1.now ∷ peer2.now ∷ peer3.now ∷ peer4.now ∷ []) file block }
{
    if !all_good(local, peer1, peer2, peer3, peer4) {
        return Err(Refusal::at_start(15));
    }
    let tables = [local, peer1, peer2, peer3, peer4];
    let Some((table, f)) = numbered(tables, file) else {
        return Ok(None);
    };
    Ok(by_fields(tables[table], table, f, block))
}
