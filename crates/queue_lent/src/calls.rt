// The calls on a lent queue: all four lists are checked where they lie, and only the link that makes the call is taken up and laid out again.
ghost use Rattle.std.specs.Prelude.{◌≡◌};
ghost use Rattle.message_write.specs.Writing.{request_bytes};
ghost use Rattle.queue.specs.Queue.{opening, drop_of};
ghost use Rattle.queue_lent.specs.Words.{queue_of};
ghost use Rattle.queue_lent.specs.Calls.{LentEmpties, LentIssues, LentAnswers};

use crate::shares::{admission_in, link_of, next_of, store, store_all};
use link::{Arrival, LinkAnswered, LinkIssued};
use message::Edition;
use queue::RequestQueue;
use xdr::Refusal;

// The ID that was next, and what writing the Request under it answered.
#[derive(Clone, Copy)]
pub struct LentIssued {
    pub id: u32,
    pub filling: Result<usize, Refusal>,
}

// Four empty links.
pub fn open(
    words: &mut [u32; 140],
    hashes: &mut [u8; 2048],
    windows: [Option<u32>; 4],
) -> Result<(), Refusal>
    ensures { LentEmpties (opening windows) result words.new hashes.new }
{
    let opened = RequestQueue::open(windows);
    store_all(words, opened.queue.links);
    *hashes = [0; 2048];
    opened.verdict
}

// Writes a Request for a peer with its next ID and appends it to its link.
pub fn issue(
    words: &mut [u32; 140],
    hashes: &mut [u8; 2048],
    peer: u32,
    repository: &[u8],
    name: &[u8],
    offset: u64,
    size: u32,
    hash: &[u8],
    out: &mut [u8],
) -> LentIssued
    ensures { LentIssues words.old hashes.old peer
        (request_bytes Edition.New repository.now name.now offset size hash.now) size hash.now
        out.old result words.new hashes.new out.new }
{
    let held = match admission_in(words, peer) {
        Ok(held) => held,
        Err(r) => {
            return LentIssued {
                id: next_of(words, peer),
                filling: Err(r),
            };
        }
    };
    let l = link_of(words, peer);
    let LinkIssued { link, id, filling } = l.issue(
        held,
        RequestQueue::ALLOWANCE,
        repository,
        name,
        offset,
        size,
        hash,
        out,
    );
    store(words, peer, link);
    queue::keep_for(hashes, peer, l.count, hash, filling);
    LentIssued { id, filling }
}

// Releases the oldest request of a peer by the Response to it.
pub fn answer(
    words: &mut [u32; 140],
    hashes: &mut [u8; 2048],
    peer: u32,
    message: &[u8],
) -> Result<Arrival, Refusal>
    ensures { LentAnswers words.old hashes.old peer message.now result words.new hashes.new }
{
    admission_in(words, peer)?;
    let waiting = link_of(words, peer);
    let LinkAnswered { link, release } = waiting.answer(message);
    store(words, peer, link);
    queue::settle_for(hashes, peer, message, release)
}

// Releases everything of a peer, and nothing of the others: its link is gone.
pub fn drop_link(words: &mut [u32; 140], hashes: &mut [u8; 2048], peer: u32) -> Result<(), Refusal>
    ensures { LentEmpties (drop_of (queue_of words.old hashes.old) peer) result words.new hashes.new }
{
    admission_in(words, peer)?;
    let l = link_of(words, peer);
    let gone = l.emptied();
    store(words, peer, gone);
    queue::forget_for(hashes, peer);
    Ok(())
}
