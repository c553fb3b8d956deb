// The hashes of a link's requests: 32 bytes for each of its entries, in their order. They stand beside the link, so that a call moves
// only those that it has to.
ghost use Rattle.std.specs.Prelude.{◌≡◌};
ghost use Rattle.message.specs.Answers.{span_bytes};
ghost use Rattle.link.specs.Hashes.{without_first, is_content, arrived, arrival_of, hashes_released};
ghost use Rattle.link.specs.Steps.{hashes_filled};

use crate::outcome::{Arrival, Release};
use message::Span;
use xdr::Refusal;

// The hash of a request that was written, in the place of its entry.
pub fn keep(hashes: &mut [u8], slot: u32, hash: &[u8], filling: Result<usize, Refusal>)
    ensures { hashes.new ≡ hashes_filled hashes.old slot hash.now filling }
{
    if filling.is_ok() {
        xdr::put_raw(hashes, slot as usize * 32, hash);
    }
}

// The hashes moved down by one, over the first, where there is one.
fn shift(hashes: &mut [u8])
    ensures { hashes.new ≡ without_first hashes.old }
{
    if hashes.len() < 32 {
        return;
    }
    let last = hashes.len() - 32;
    hashes.copy_within(32.., 0);
    hashes[last..].fill(0);
}

// The bytes of a message that a span has, as far as there are any.
fn spanned(message: &[u8], data: Span) -> &[u8]
    ensures { result.now ≡ span_bytes message.now «data» }
{
    let start = data.start.min(message.len());
    let size = data.length.min(message.len() - start);
    &message[start..start + size]
}

// Whether data have the hash that stands first.
fn is_content(hashes: &[u8], message: &[u8], data: Span) -> bool
    ensures { result ≡ is_content hashes.now message.now «data» }
{
    let digest = sha256::digest(spanned(message, data));
    order::same_hash(&digest, order::part(hashes, 0, 32))
}

// What a release brought: data as long as asked are held to the hash that stands first.
fn arrived(hashes: &[u8], message: &[u8], release: Release) -> Arrival
    ensures { result ≡ arrived hashes.now message.now release }
{
    match release {
        Release::Data { id, size, data } => {
            if is_content(hashes, message, data) {
                Arrival::Data { id, size, data }
            } else {
                Arrival::WrongContent { id, size }
            }
        }
        Release::NotAvailable { id, size } => Arrival::NotAvailable { id, size },
        Release::WrongSize { id, size } => Arrival::WrongSize { id, size },
    }
}

// What an answer brought, by how it released the oldest request, whose hash is the first and goes with it.
pub fn settle(
    hashes: &mut [u8],
    message: &[u8],
    release: Result<Release, Refusal>,
) -> Result<Arrival, Refusal>
    ensures { (result ≡ arrival_of hashes.old message.now release) × (hashes.new ≡ hashes_released hashes.old release) }
{
    let arrival = arrived(hashes, message, release?);
    shift(hashes);
    Ok(arrival)
}
