// Which blocks to request and what a Request for one says, and where a table lists a block.
ghost use Rattle.std.specs.Prelude.{[], ◌∷◌};
ghost use Rattle.want.specs.Listing.{block_with};
ghost use Rattle.want.specs.Found.{found_in};
ghost use Rattle.want.specs.Wanted.{request_outcome};
ghost use Rattle.want.specs.Details.{details_of};
ghost use Rattle.bep.specs.Details.{Tells};
ghost use Rattle.bep.specs.Filling.{Gives};
ghost use Rattle.bep.specs.Search.{Finds};

// The request list of a local table and four peers' tables.
#[unsafe(no_mangle)]
pub extern "C" fn bep_request_list<'a>(
    out: &mut [u8],
    local: &'a [u8],
    peer1: &'a [u8],
    peer2: &'a [u8],
    peer3: &'a [u8],
    peer4: &'a [u8],
    answer: &mut [u64; 1],
) -> u32
    ensures { Gives
        (request_outcome local.now (peer1.now ∷ peer2.now ∷ peer3.now ∷ peer4.now ∷ []))
        out.old result answer.new out.new }
{
    bep::requests::bep_request_list(out, local, peer1, peer2, peer3, peer4, answer)
}

// What a Request for a block says, by its file's number and its own in the request list of a local table and four peers' tables.
#[unsafe(no_mangle)]
pub extern "C" fn bep_details<'a>(
    local: &'a [u8],
    peer1: &'a [u8],
    peer2: &'a [u8],
    peer3: &'a [u8],
    peer4: &'a [u8],
    file: u32,
    block: u32,
    answer: &mut [u64; 6],
) -> u32
    ensures { Tells
        (details_of local.now (peer1.now ∷ peer2.now ∷ peer3.now ∷ peer4.now ∷ []) file block)
        result answer.new }
{
    bep::requests::bep_details(local, peer1, peer2, peer3, peer4, file, block, answer)
}

// Where a table first lists a block with this length and hash.
#[unsafe(no_mangle)]
pub extern "C" fn bep_find(table: &[u8], size: u32, hash: &[u8], answer: &mut [u64; 3]) -> u32
    ensures { Finds (found_in table.now (block_with size hash.now)) result answer.new }
{
    bep::requests::bep_find(table, size, hash, answer)
}
