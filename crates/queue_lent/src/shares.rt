// The words of four links, 35 for each of the peers 1 to 4.
ghost use Rattle.std.specs.Prelude.{◌*◌, ◌≤◌, ◌≡◌, [], length};
ghost use Rattle.queue.specs.Shares.{share_of, with_share};
ghost use Rattle.queue.specs.Queue.{id_of};
ghost use Rattle.queue.specs.Steps.{sound_bytes, admission};
ghost use Rattle.queue_lent.specs.Words.{link_size, link_in, link_words, queue_of};
ghost use Rattle.queue_lent.specs.Steps.{stored_all};

use crate::words::{lay_out, taken_up, tally};
use link::Link;
use queue::{RequestQueue, is_peer};
use xdr::Refusal;

// The words of a peer's link.
pub(crate) fn share_of(words: &[u32], peer: u32) -> &[u32]
    requires { (1 ≤ peer) × (35 * peer ≤ length words.now) }
    ensures { (result.now ≡ share_of link_size words.now peer) × (length result.now ≡ 35) }
{
    let at = (peer - 1) as usize * 35;
    let end = at + 35;
    &words[at..end]
}

// The link of a peer.
pub(crate) fn link_of(words: &[u32], peer: u32) -> Link
    requires { (1 ≤ peer) × (35 * peer ≤ length words.now) }
    ensures { result ≡ link_in (share_of link_size words.now peer) }
{
    taken_up(share_of(words, peer))
}

// Another link of a peer.
pub(crate) fn store(words: &mut [u32], peer: u32, link: Link)
    requires { (1 ≤ peer) × (35 * peer ≤ length words.old) }
    ensures { words.new ≡ with_share link_size words.old peer (link_words link) }
{
    let at = (peer - 1) as usize * 35;
    let end = at + 35;
    lay_out(&mut words[at..end], link);
}

// All four.
pub(crate) fn store_all(words: &mut [u32], links: [Link; 4])
    requires { length words.old ≡ 140 }
    ensures { words.new ≡ stored_all words.old links }
{
    let [a, b, c, d] = links;
    store(words, 1, a);
    store(words, 2, b);
    store(words, 3, c);
    store(words, 4, d);
}

// The bytes outstanding of all four links of a sound queue.
fn sound_bytes(words: &[u32]) -> Option<u32>
    requires { length words.now ≡ 140 }
    ensures { result ≡ sound_bytes (queue_of words.now []) }
{
    let mut sum = 0;
    for i in 0..4 {
        let at = i * 35;
        let n = tally(&words[at..at + 35])?;
        sum += n;
    }
    if RequestQueue::ALLOWANCE < sum {
        return None;
    }
    Some(sum)
}

// What stands first in every call for a peer: 23, then 22, or else the bytes held.
pub(crate) fn admission_in(words: &[u32], peer: u32) -> Result<u32, Refusal>
    requires { length words.now ≡ 140 }
    ensures { result ≡ admission (queue_of words.now []) peer }
{
    if !is_peer(peer) {
        return Err(Refusal::at_start(23));
    }
    sound_bytes(words).ok_or(Refusal::at_start(22))
}

// The next ID of a peer, 0 where there is no such peer: a number in any case, by the definition `id_of`.
pub(crate) fn next_of(words: &[u32], peer: u32) -> u32
    requires { length words.now ≡ 140 }
    ensures { result ≡ id_of (queue_of words.now []) peer }
{
    if !is_peer(peer) {
        return 0;
    }
    link_of(words, peer).next
}
