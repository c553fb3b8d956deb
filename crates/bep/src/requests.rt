// Which blocks to request and what a Request for one says, and where a table lists a block.
ghost use Rattle.std.specs.Prelude.{[], ◌∷◌};
ghost use Rattle.want.specs.Listing.{block_with};
ghost use Rattle.want.specs.Found.{found_in};
ghost use Rattle.want.specs.Wanted.{request_outcome};
ghost use Rattle.want.specs.Details.{details_of};
ghost use Rattle.bep.specs.Details.{Tells, StopsAfter};
ghost use Rattle.bep.specs.Filling.{Gives};
ghost use Rattle.bep.specs.Search.{Finds};

use crate::filling::give;
use want::{Details, Found};
use xdr::Refusal;

// The request list of a local table and four peers' tables.
pub fn bep_request_list<'a>(
    out: &mut [u8],
    local: &'a [u8],
    peer1: &'a [u8],
    peer2: &'a [u8],
    peer3: &'a [u8],
    peer4: &'a [u8],
    answer: &mut [u64; 1],
) -> u32
    ensures { Gives
        (request_outcome local.now (peer1.now ∷ peer2.now ∷ peer3.now ∷ peer4.now ∷ []))
        out.old result answer.new out.new }
{
    let f = want::request_list(local, peer1, peer2, peer3, peer4, out);
    give(f, answer)
}

// Puts what a Request says into the words of the answer.
fn give_details(details: Result<Option<Details>, Refusal>, answer: &mut [u64; 6]) -> u32
    requires { StopsAfter details }
    ensures { Tells details result answer.new }
{
    match details {
        Ok(Some(d)) => {
            *answer = [
                d.table as u64,
                d.name as u64,
                (d.stop - d.name) as u64,
                d.offset,
                d.size as u64,
                d.hash as u64,
            ];
            0
        }
        Ok(None) => {
            *answer = [0; 6];
            1
        }
        Err(r) => {
            *answer = [0; 6];
            r.number
        }
    }
}

// What a Request for a block says, by its file's number and its own in the request list of a local table and four peers' tables.
pub fn bep_details<'a>(
    local: &'a [u8],
    peer1: &'a [u8],
    peer2: &'a [u8],
    peer3: &'a [u8],
    peer4: &'a [u8],
    file: u32,
    block: u32,
    answer: &mut [u64; 6],
) -> u32
    ensures { Tells
        (details_of local.now (peer1.now ∷ peer2.now ∷ peer3.now ∷ peer4.now ∷ []) file block)
        result answer.new }
{
    let details = want::details_of(local, peer1, peer2, peer3, peer4, file, block);
    give_details(details, answer)
}

// Where a table first lists a block with this length and hash.
pub fn bep_find(table: &[u8], size: u32, hash: &[u8], answer: &mut [u64; 3]) -> u32
    ensures { Finds (found_in table.now (block_with size hash.now)) result answer.new }
{
    match want::find_local(table, size, hash) {
        Ok(Some(Found { record, block })) => {
            *answer = [1, record as u64, block as u64];
            0
        }
        Ok(None) => {
            *answer = [0, 0, 0];
            0
        }
        Err(r) => {
            *answer = [0, 0, 0];
            r.number
        }
    }
}
