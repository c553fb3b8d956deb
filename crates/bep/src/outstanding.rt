// The outstanding requests of four peers, lent as 140 words (for each peer the window, the next ID, the count, and the ID and the Length of each of
// 16 entries) and 2,048 bytes (for each peer the hash of each entry).
//
// Any words may be given: those of a queue that is not sound are refused with 22 and left as they were.
ghost use Rattle.std.specs.Prelude.{◌/◌, ◌%◌, ◌≡◌, []};
ghost use Rattle.message_write.specs.Writing.{request_bytes};
ghost use Rattle.queue.specs.Queue.{opening, drop_of};
ghost use Rattle.queue_lent.specs.Words.{queue_of};
ghost use Rattle.queue_lent.specs.Calls.{totals_of};
ghost use Rattle.bep.specs.Filling.{filling_number};
ghost use Rattle.bep.specs.Queues.{window_in, windows_in, verdict_number, Becomes, issued_words, QueueIssues, arrival_number, arrival_words, QueueAnswers};

use link::Arrival;
use message::Edition;
use xdr::Refusal;

// A window, which counts only where its bit is set.
fn window_in(window: u32, bit: u32) -> Option<u32>
    ensures { result ≡ window_in window bit }
{
    (bit == 1).then_some(window)
}

// The windows of the four peers.
fn windows_in(windows: &[u32; 4], stated: u32) -> [Option<u32>; 4]
    ensures { result ≡ windows_in windows.now stated }
{
    let a = window_in(windows[0], stated % 2);
    let b = window_in(windows[1], stated / 2 % 2);
    let c = window_in(windows[2], stated / 4 % 2);
    let d = window_in(windows[3], stated / 8 % 2);
    [a, b, c, d]
}

// The number that an opening or a drop returns.
fn verdict_number(o: Result<(), Refusal>) -> u32
    ensures { result ≡ verdict_number o }
{
    match o {
        Ok(()) => 0,
        Err(r) => r.number,
    }
}

// Fills the answer of an issue, and gives its number.
fn give_issued(id: u32, w: Result<usize, Refusal>, answer: &mut [u64; 2]) -> u32
    ensures { (result ≡ filling_number w) × (answer.new ≡ issued_words id w) }
{
    match w {
        Ok(n) => {
            *answer = [n as u64, id as u64];
            0
        }
        Err(r) => {
            *answer = [r.place as u64, 0];
            r.number
        }
    }
}

// Fills the answer of an answer to the queue, and gives its number.
fn give_arrival(o: Result<Arrival, Refusal>, answer: &mut [u64; 5]) -> u32
    ensures { (result ≡ arrival_number o) × (answer.new ≡ arrival_words o) }
{
    match o {
        Ok(Arrival::Data { id, size, data: d }) => {
            *answer = [0, id as u64, size as u64, d.start as u64, d.length as u64];
            0
        }
        Ok(Arrival::NotAvailable { id, size }) => {
            *answer = [1, id as u64, size as u64, 0, 0];
            0
        }
        Ok(Arrival::WrongSize { id, size }) => {
            *answer = [2, id as u64, size as u64, 0, 0];
            0
        }
        Ok(Arrival::WrongContent { id, size }) => {
            *answer = [3, id as u64, size as u64, 0, 0];
            0
        }
        Err(r) => {
            *answer = [r.place as u64, 0, 0, 0, 0];
            r.number
        }
    }
}

// Opens an empty queue with a window for each peer, where its bit in `stated` is set (1 for peer 1, then 2, 4 and 8), and the default for the
// others. If one is not 1 to 16, all are refused (22): four empty lists of window 0 are left, which every call but the totals refuses.
pub fn bep_queue_open(
    queue: &mut [u32; 140],
    hashes: &mut [u8; 2048],
    windows: &[u32; 4],
    stated: u32,
) -> u32
    ensures { Becomes (opening (windows_in windows.now stated)) result queue.new hashes.new }
{
    let ws = windows_in(windows, stated);
    verdict_number(queue_lent::open(queue, hashes, ws))
}

// Issues a Request for a peer with its next ID: the answer is the number of bytes written and the ID, or the place and 0.
pub fn bep_queue_issue(
    out: &mut [u8],
    queue: &mut [u32; 140],
    hashes: &mut [u8; 2048],
    peer: u32,
    repository: &[u8],
    name: &[u8],
    offset: u64,
    size: u32,
    hash: &[u8],
    answer: &mut [u64; 2],
) -> u32
    ensures { QueueIssues queue.old hashes.old peer
        (request_bytes Edition.New repository.now name.now offset size hash.now) size hash.now
        out.old result answer.new queue.new hashes.new out.new }
{
    let d = queue_lent::issue(
        queue, hashes, peer, repository, name, offset, size, hash, out,
    );
    let w = d.filling;
    give_issued(d.id, w, answer)
}

// Releases the oldest request of a peer by the Response to it: the answer is 0 where it brought the data, 1 where they are not available, 2 where
// their size is wrong and 3 where their hash is not the one asked for; the request's ID and Length; and the data's start and length in the message.
pub fn bep_queue_answer(
    queue: &mut [u32; 140],
    hashes: &mut [u8; 2048],
    peer: u32,
    message: &[u8],
    answer: &mut [u64; 5],
) -> u32
    ensures { QueueAnswers queue.old hashes.old peer message.now
        result answer.new queue.new hashes.new }
{
    let a = queue_lent::answer(queue, hashes, peer, message);
    give_arrival(a, answer)
}

// Releases everything of a peer, and nothing of the others: its link is gone.
pub fn bep_queue_drop(queue: &mut [u32; 140], hashes: &mut [u8; 2048], peer: u32) -> u32
    ensures { Becomes (drop_of (queue_of queue.old hashes.old) peer) result queue.new hashes.new }
{
    verdict_number(queue_lent::drop_link(queue, hashes, peer))
}

// How many requests are outstanding and their bytes, over all four peers and then of each. Any queue has them.
pub fn bep_queue_totals(queue: &[u32; 140], answer: &mut [u64; 10]) -> u32
    ensures { (result ≡ 0) × (answer.new ≡ totals_of (queue_of queue.now [])) }
{
    *answer = queue_lent::all_totals(queue);
    0
}
