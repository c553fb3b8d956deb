// A link as 35 words: the window, the next ID, the count, and the ID and the Length of each of 16 entries.
ghost use Rattle.std.specs.Prelude.{◌≡◌, ◌&&◌, length, leb};
ghost use Rattle.std.proofs.Math.Seq.{paste};
ghost use Rattle.message.specs.Limits.{id_limit};
ghost use Rattle.link.specs.OneLink.{window_fits, outstanding};
ghost use Rattle.link.specs.Steps.{orderly_bytes};
ghost use Rattle.queue_lent.specs.Words.{link_in, link_words, pairs};

use link::request::stands_before;
use link::{Link, Request};
use message::ID_LIMIT;

// The link that words are.
pub(crate) fn taken_up(words: &[u32]) -> Link
    requires { length words.now ≡ 35 }
    ensures { result ≡ link_in words.now }
{
    let mut entries = [Request { id: 0, size: 0 }; 16];
    for i in 0..16 {
        entries[i] = Request {
            id: words[3 + 2 * i],
            size: words[4 + 2 * i],
        };
    }
    Link {
        window: words[0],
        next: words[1],
        count: words[2],
        entries,
    }
}

// The entries from word 3 on, an ID and a Length each.
fn put_entries(words: &mut [u32], entries: [Request; 16])
    requires { length words.old ≡ 35 }
    ensures { words.new ≡ paste words.old 3 (pairs entries) 32 }
{
    for i in 0..16 {
        let e = entries[i];
        words[3 + 2 * i] = e.id;
        words[4 + 2 * i] = e.size;
    }
}

// A link laid out.
pub(crate) fn lay_out(words: &mut [u32], link: Link)
    requires { length words.old ≡ 35 }
    ensures { words.new ≡ link_words link }
{
    words[0] = link.window;
    words[1] = link.next;
    words[2] = link.count;
    put_entries(words, link.entries);
}

// The window, the count and the next ID within their limits.
fn shape_fits(window: u32, next: u32, count: u32) -> bool
    ensures { result ≡ window_fits window && (leb count window && leb next id_limit) }
{
    link::window_fits(window) && count <= window && next <= ID_LIMIT
}

// The bytes outstanding of a link in order, where it is lent: a link that makes no call isn't taken up.
pub(crate) fn tally(words: &[u32]) -> Option<u32>
    requires { length words.now ≡ 35 }
    ensures { result ≡ orderly_bytes (link_in words.now) }
{
    let count = words[2];
    let mut next = words[1];
    if !shape_fits(words[0], next, count) {
        return None;
    }
    let mut sum = 0;
    for i in (0..count as usize).rev() {
        let e = Request {
            id: words[3 + 2 * i],
            size: words[4 + 2 * i],
        };
        if !stands_before(e, next) {
            return None;
        }
        next = e.id;
        sum += e.size;
    }
    Some(sum)
}
