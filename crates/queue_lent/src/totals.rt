// How many requests are outstanding, and their bytes. Any words have them.
ghost use Rattle.std.specs.Prelude.{◌*◌, ◌≤◌, ◌≡◌, [], length};
ghost use Rattle.link.specs.OneLink.{outstanding};
ghost use Rattle.queue.specs.Shares.{share_of};
ghost use Rattle.queue_lent.specs.Words.{link_size, link_in, queue_of};
ghost use Rattle.queue_lent.specs.Calls.{totals_of};
ghost use Rattle.queue_lent.specs.Steps.{LinkTotals};

use crate::shares::share_of;
use link::Link;

// Of one link.
#[derive(Clone, Copy)]
pub struct LinkTotal {
    pub count: u64,
    pub bytes: u64,
}

// Of the link that words are, where they are lent: it isn't taken up.
fn outstanding_in(words: &[u32]) -> LinkTotal
    requires { length words.now ≡ 35 }
    ensures { LinkTotals (link_in words.now) result }
{
    let count = words[2].min(Link::WINDOW_LIMIT);
    let mut bytes = 0;
    for i in 0..count as usize {
        bytes += words[4 + 2 * i] as u64;
    }
    LinkTotal {
        count: count as u64,
        bytes,
    }
}

fn totals_of(words: &[u32], peer: u32) -> LinkTotal
    requires { (1 ≤ peer) × (35 * peer ≤ length words.now) }
    ensures { LinkTotals (link_in (share_of link_size words.now peer)) result }
{
    outstanding_in(share_of(words, peer))
}

fn totals_in(words: &[u32]) -> [u64; 10]
    requires { length words.now ≡ 140 }
    ensures { result ≡ totals_of (queue_of words.now []) }
{
    let a = totals_of(words, 1);
    let b = totals_of(words, 2);
    let c = totals_of(words, 3);
    let d = totals_of(words, 4);
    [
        a.count + b.count + c.count + d.count,
        a.bytes + b.bytes + c.bytes + d.bytes,
        a.count,
        a.bytes,
        b.count,
        b.bytes,
        c.count,
        c.bytes,
        d.count,
        d.bytes,
    ]
}

// Over all four links, and then of each.
pub fn all_totals(words: &[u32; 140]) -> [u64; 10]
    ensures { result ≡ totals_of (queue_of words.now []) }
{
    totals_in(words)
}
