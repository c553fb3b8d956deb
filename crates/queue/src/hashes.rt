// The hashes of the peers' requests: 512 bytes for each peer.
ghost use Rattle.std.specs.Prelude.{◌+◌, ◌*◌, ◌≤◌, ◌≡◌, length};
ghost use Rattle.link.specs.Hashes.{no_hashes, hashes_released, arrival_of};
ghost use Rattle.link.specs.Steps.{hashes_filled};
ghost use Rattle.queue.specs.Shares.{share_of, with_share};
ghost use Rattle.queue.specs.Queue.{hash_bytes};
ghost use Rattle.queue.specs.Steps.{kept_for, arrival_for, released_for, forgotten_for};

use crate::queue::is_peer;
use link::{Arrival, Release};
use xdr::Refusal;

fn keep_in(hashes: &mut [u8], peer: u32, slot: u32, hash: &[u8], filling: Result<usize, Refusal>)
    requires { (1 ≤ peer) × (512 * peer ≤ length hashes.old) }
    ensures { hashes.new ≡ with_share hash_bytes hashes.old peer
        (hashes_filled (share_of hash_bytes hashes.old peer) slot hash.now filling) }
{
    let at = (peer - 1) as usize * 512;
    let end = at + 512;
    link::keep(&mut hashes[at..end], slot, hash, filling);
}

fn settle_in(
    hashes: &mut [u8],
    peer: u32,
    message: &[u8],
    release: Result<Release, Refusal>,
) -> Result<Arrival, Refusal>
    requires { (1 ≤ peer) × (512 * peer ≤ length hashes.old) }
    ensures { (result ≡ arrival_of (share_of hash_bytes hashes.old peer) message.now release)
        × (hashes.new ≡ with_share hash_bytes hashes.old peer (hashes_released (share_of hash_bytes hashes.old peer) release)) }
{
    let at = (peer - 1) as usize * 512;
    let end = at + 512;
    link::settle(&mut hashes[at..end], message, release)
}

fn forget_in(hashes: &mut [u8], peer: u32)
    requires { (1 ≤ peer) × (512 * peer ≤ length hashes.old) }
    ensures { hashes.new ≡ with_share hash_bytes hashes.old peer no_hashes }
{
    let at = (peer - 1) as usize * 512;
    let end = at + 512;
    hashes[at..end].fill(0);
}

// The hash of a request that was written for a peer, in the place of its entry.
pub fn keep_for(
    hashes: &mut [u8; 2048],
    peer: u32,
    slot: u32,
    hash: &[u8],
    filling: Result<usize, Refusal>,
)
    ensures { hashes.new ≡ kept_for hashes.old peer slot hash.now filling }
{
    if is_peer(peer) {
        keep_in(hashes, peer, slot, hash, filling);
    }
}

// What an answer from a peer brought, by how it released the oldest request, whose hash goes with it.
pub fn settle_for(
    hashes: &mut [u8; 2048],
    peer: u32,
    message: &[u8],
    release: Result<Release, Refusal>,
) -> Result<Arrival, Refusal>
    ensures { (result ≡ arrival_for hashes.old peer message.now release) × (hashes.new ≡ released_for hashes.old peer release) }
{
    if !is_peer(peer) {
        return Err(Refusal::at_start(23));
    }
    settle_in(hashes, peer, message, release)
}

// A drop takes the hashes of a peer away.
pub fn forget_for(hashes: &mut [u8; 2048], peer: u32)
    ensures { hashes.new ≡ forgotten_for hashes.old peer }
{
    if is_peer(peer) {
        forget_in(hashes, peer);
    }
}
