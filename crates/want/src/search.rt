// The search for a block through all records of a table.
ghost use Rattle.std.specs.Prelude.{◌≡◌, true};
ghost use Rattle.table.specs.Table.{is_good, records};
ghost use Rattle.want.specs.Listing.{is_held, block_with};
ghost use Rattle.want.specs.Found.{found_from, found_in};

use crate::block::{is_block, listed, place};
use xdr::Refusal;

// The numbers of a record and of its block.
#[derive(Clone, Copy)]
pub struct Found {
    pub record: u32,
    pub block: u32,
}

// The numbers, from 0, of the first valid, undeleted record of a good table with a block of this Length and hash, and of its first such block.
fn search(table: &[u8], size: u32, hash: &[u8]) -> Option<Found>
    requires { is_good table.now ≡ true }
    ensures { result ≡ found_from 0 (records table.now) (block_with size hash.now) }
{
    let mut at = 4;
    let mut n = 0;
    'records: loop {
        let Some(f) = record::outline_at(table, at) else {
            return None;
        };
        let count = listed(f);
        let first = f.first;
        for j in 0..count {
            if is_block(table, place(first, j), size, hash) {
                break 'records Some(Found {
                    record: n,
                    block: j,
                });
            }
        }
        at = f.past;
        n += 1;
    }
}

// Whether a valid, undeleted record of a good table lists a block.
pub(crate) fn is_held(table: &[u8], size: u32, hash: &[u8]) -> bool
    requires { is_good table.now ≡ true }
    ensures { result ≡ is_held (records table.now) (block_with size hash.now) }
{
    search(table, size, hash).is_some()
}

// Where a table first lists a block of a Length and a hash, by name, then by block; none where no record does.
pub fn find_local(table: &[u8], size: u32, hash: &[u8]) -> Result<Option<Found>, Refusal>
    ensures { result ≡ found_in table.now (block_with size hash.now) }
{
    if !table::is_good(table) {
        return Err(Refusal::at_start(15));
    }
    Ok(search(table, size, hash))
}
