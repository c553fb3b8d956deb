// The outstanding requests of four peers, lent as 140 words (for each peer the window, the next ID, the count, and the ID and the Length of each of
// 16 entries) and 2,048 bytes (for each peer the hash of each entry).
//
// Any words may be given: those of a queue that is not sound are refused with 22 and left as they were.
ghost use Rattle.std.specs.Prelude.{◌/◌, ◌≡◌, []};
ghost use Rattle.message_write.specs.Writing.{request_bytes};
ghost use Rattle.queue.specs.Queue.{opening, drop_of};
ghost use Rattle.queue_lent.specs.Words.{queue_of};
ghost use Rattle.queue_lent.specs.Calls.{totals_of};
ghost use Rattle.bep.specs.Queues.{windows_in, Becomes, QueueIssues, QueueAnswers};

use message::Edition;

// Opens an empty queue with a window for each peer, where its bit in `stated` is set (1 for peer 1, then 2, 4 and 8), and the default for the
// others. If one is not 1 to 16, all are refused (22): four empty lists of window 0 are left, which every call but the totals refuses.
#[unsafe(no_mangle)]
pub extern "C" fn bep_queue_open(
    queue: &mut [u32; 140],
    hashes: &mut [u8; 2048],
    windows: &[u32; 4],
    stated: u32,
) -> u32
    ensures { Becomes (opening (windows_in windows.now stated)) result queue.new hashes.new }
{
    bep::outstanding::bep_queue_open(queue, hashes, windows, stated)
}

// Issues a Request for a peer with its next ID: the answer is the number of bytes written and the ID, or the place and 0.
#[unsafe(no_mangle)]
pub extern "C" fn bep_queue_issue(
    out: &mut [u8],
    queue: &mut [u32; 140],
    hashes: &mut [u8; 2048],
    peer: u32,
    repository: &[u8],
    name: &[u8],
    offset: u64,
    size: u32,
    hash: &[u8],
    answer: &mut [u64; 2],
) -> u32
    ensures { QueueIssues queue.old hashes.old peer
        (request_bytes Edition.New repository.now name.now offset size hash.now) size hash.now
        out.old result answer.new queue.new hashes.new out.new }
{
    bep::outstanding::bep_queue_issue(
        out, queue, hashes, peer, repository, name, offset, size, hash, answer,
    )
}

// Releases the oldest request of a peer by the Response to it: the answer is 0 where it brought the data, 1 where they are not available, 2 where
// their size is wrong and 3 where their hash is not the one asked for; the request's ID and Length; and the data's start and length in the message.
#[unsafe(no_mangle)]
pub extern "C" fn bep_queue_answer(
    queue: &mut [u32; 140],
    hashes: &mut [u8; 2048],
    peer: u32,
    message: &[u8],
    answer: &mut [u64; 5],
) -> u32
    ensures { QueueAnswers queue.old hashes.old peer message.now
        result answer.new queue.new hashes.new }
{
    bep::outstanding::bep_queue_answer(queue, hashes, peer, message, answer)
}

// Releases everything of a peer, and nothing of the others: its link is gone.
#[unsafe(no_mangle)]
pub extern "C" fn bep_queue_drop(queue: &mut [u32; 140], hashes: &mut [u8; 2048], peer: u32) -> u32
    ensures { Becomes (drop_of (queue_of queue.old hashes.old) peer) result queue.new hashes.new }
{
    bep::outstanding::bep_queue_drop(queue, hashes, peer)
}

// How many requests are outstanding and their bytes, over all four peers and then of each. Any queue has them.
#[unsafe(no_mangle)]
pub extern "C" fn bep_queue_totals(queue: &[u32; 140], answer: &mut [u64; 10]) -> u32
    ensures { (result ≡ 0) × (answer.new ≡ totals_of (queue_of queue.now [])) }
{
    bep::outstanding::bep_queue_totals(queue, answer)
}
