// The queue and its calls.
ghost use Rattle.std.specs.Prelude.{◌≡◌};
ghost use Rattle.message_write.specs.Writing.{request_bytes};
ghost use Rattle.queue.specs.Queue.{is_peer, id_of, all_fit, is_sound, opening, issue_outcome, PeerIssues, answer_of, drop_of};
ghost use Rattle.queue.specs.Steps.{sound_bytes, admission};

use crate::hashes::{forget_for, keep_for, settle_for};
use crate::outcome::{Answered, Emptied, Issued};
use crate::window;
use link::{Link, LinkAnswered, LinkIssued};
use message::Edition;
use xdr::Refusal;

// The links of the peers 1 to 4, in that order, and 512 bytes of hashes for each: 32 for each entry of its link.
#[derive(Clone, Copy)]
pub struct RequestQueue {
    pub links: [Link; 4],
    pub hashes: [u8; 2048],
}

// Whether a peer is 1 to 4.
pub fn is_peer(peer: u32) -> bool
    ensures { result ≡ is_peer peer }
{
    1 <= peer && peer <= 4
}

// Whether four windows are each 1 to 16.
fn all_fit(windows: [Option<u32>; 4]) -> bool
    ensures { result ≡ all_fit windows }
{
    windows.iter().all(|w| link::window_fits(window::size(*w)))
}

impl RequestQueue {
    // The window of a peer for whom none is stated.
    pub const DEFAULT_WINDOW: u32 = 4;

    // The byte allowance, common to all peers.
    pub const ALLOWANCE: u32 = 524288;

    // Four empty links.
    pub fn open(windows: [Option<u32>; 4]) -> Emptied
        ensures { result ≡ opening windows }
    {
        if !all_fit(windows) {
            return Emptied {
                queue: RequestQueue {
                    links: [Link::empty(0); 4],
                    hashes: [0; 2048],
                },
                verdict: Err(Refusal::at_start(22)),
            };
        }
        let [a, b, c, d] = windows;
        Emptied {
            queue: RequestQueue {
                links: [
                    Link::empty(window::size(a)),
                    Link::empty(window::size(b)),
                    Link::empty(window::size(c)),
                    Link::empty(window::size(d)),
                ],
                hashes: [0; 2048],
            },
            verdict: Ok(()),
        }
    }

    // The bytes outstanding of all four links of a sound queue.
    pub fn sound_bytes(self) -> Option<u32>
        ensures { result ≡ sound_bytes self }
    {
        let mut sum = 0;
        for l in &self.links {
            let n = l.orderly_bytes()?;
            sum += n;
        }
        if RequestQueue::ALLOWANCE < sum {
            return None;
        }
        Some(sum)
    }

    // Whether the queue is sound (document 01: a sound desk). Entries past the counts don't matter.
    pub fn is_sound(self) -> bool
        ensures { result ≡ is_sound self }
    {
        self.sound_bytes().is_some()
    }

    // What stands first in every call for a peer: 23, then 22, or else the bytes held.
    fn admission(self, peer: u32) -> Result<u32, Refusal>
        ensures { result ≡ admission self peer }
    {
        if !is_peer(peer) {
            return Err(Refusal::at_start(23));
        }
        self.sound_bytes().ok_or(Refusal::at_start(22))
    }

    // The next ID of a peer, 0 where there is no such peer. A number in any case, as an issue hands it back: the definition is `id_of`.
    fn next_of(self, peer: u32) -> u32
        ensures { result ≡ id_of self peer }
    {
        if !is_peer(peer) {
            return 0;
        }
        let at = (peer - 1) as usize;
        self.links[at].next
    }

    // Writes a Request for a peer with its next ID and appends it to its link.
    pub fn issue(
        self,
        peer: u32,
        repository: &[u8],
        name: &[u8],
        offset: u64,
        size: u32,
        hash: &[u8],
        out: &mut [u8],
    ) -> Issued
        ensures { PeerIssues (issue_outcome self peer
            (request_bytes Edition.New repository.now name.now offset size hash.now) size)
            self peer size hash.now out.old result out.new }
    {
        let held = match self.admission(peer) {
            Ok(held) => held,
            Err(r) => {
                return Issued {
                    queue: self,
                    id: self.next_of(peer),
                    filling: Err(r),
                };
            }
        };
        let at = (peer - 1) as usize;
        let l = self.links[at];
        let LinkIssued { link, id, filling } = l.issue(
            held,
            RequestQueue::ALLOWANCE,
            repository,
            name,
            offset,
            size,
            hash,
            out,
        );
        let mut queue = self;
        queue.links[at] = link;
        keep_for(&mut queue.hashes, peer, l.count, hash, filling);
        Issued { queue, id, filling }
    }

    // Releases the oldest request of a peer by the Response to it.
    pub fn answer(self, peer: u32, message: &[u8]) -> Answered
        ensures { result ≡ answer_of self peer message.now }
    {
        if let Err(r) = self.admission(peer) {
            return Answered {
                queue: self,
                arrival: Err(r),
            };
        }
        let at = (peer - 1) as usize;
        let waiting = self.links[at];
        let LinkAnswered { link, release } = waiting.answer(message);
        let mut queue = self;
        queue.links[at] = link;
        let arrival = settle_for(&mut queue.hashes, peer, message, release);
        Answered { queue, arrival }
    }

    // Releases everything of a peer, and nothing of the others: its link is gone.
    pub fn drop_link(self, peer: u32) -> Emptied
        ensures { result ≡ drop_of self peer }
    {
        if let Err(r) = self.admission(peer) {
            return Emptied {
                queue: self,
                verdict: Err(r),
            };
        }
        let at = (peer - 1) as usize;
        let gone = self.links[at].emptied();
        let mut queue = self;
        queue.links[at] = gone;
        forget_for(&mut queue.hashes, peer);
        Emptied {
            queue,
            verdict: Ok(()),
        }
    }
}
