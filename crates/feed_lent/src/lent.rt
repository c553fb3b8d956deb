// A state as 16 words that a host lends: a tag of its goal and 32 more where a pad byte was not zero, the goal's three numbers (bytes to pass
// over or a refusal's number, blocks, files or options), the low and the high half of the place, the bytes of a word that have come and their
// number, the contents that have come and are to come, the pad to come, four bytes of what the rules made of a string and the position that
// goes with them, the zeros of the pad, and the two numbers of the message's first bytes.
ghost use Rattle.std.specs.Prelude.{◌≡◌, cond, ◌+◌, ◌*◌, ◌<◌, ◌/◌, ◌%◌};
ghost use Rattle.feed_lent.specs.Lent.{tag_in, scan_word, scan_of, feed_of, Lent};

use crate::tags::{goal_of, goal_tagged};
use feed::Feed;
use feed::state::{Cursor, Front, Scan};
use xdr::Refusal;

// What is said of a run (no place while it is waiting, the place where a message has ended, or the refusal), and how many of its bytes were taken.
#[derive(Clone, Copy)]
pub struct Said {
    pub answer: Result<Option<usize>, Refusal>,
    pub taken: usize,
}

// A tag, marked where a pad byte was not zero.
fn marked(tag: u32, bad: bool) -> u32
    requires { tag < 32 }
    ensures { result ≡ tag + cond bad 32 0 }
{
    if bad {
        return tag + 32;
    }
    tag
}

// The tag without the mark.
pub(crate) fn tag_in(word: u32) -> u32
    ensures { result ≡ tag_in word }
{
    if 32 <= word {
        return word - 32;
    }
    word
}

pub(crate) fn low_half(place: usize) -> u32
    ensures { result ≡ place % 4294967296 }
{
    (place % 4294967296) as u32
}

pub(crate) fn high_half(place: usize) -> u32
    ensures { result ≡ place / 4294967296 }
{
    (place / 4294967296) as u32
}

pub(crate) fn place_of(low: u32, high: u32) -> usize
    ensures { result ≡ low + high * 4294967296 }
{
    (low as usize) + (high as usize) * 4294967296
}

// What the rules made of a string, as a word of four bytes.
pub(crate) fn scan_word(scan: Scan) -> u32
    ensures { result ≡ scan_word scan }
{
    (scan.left as u32)
        + (scan.low as u32) * 256
        + (scan.high as u32) * 65536
        + (scan.part as u32) * 16777216
}

fn low_byte(word: u32) -> u8
    ensures { result ≡ word % 256 }
{
    (word % 256) as u8
}

// What such a word and a position are.
pub(crate) fn scan_of(word: u32, start: u32) -> Scan
    ensures { result ≡ scan_of word start }
{
    Scan {
        left: low_byte(word),
        low: low_byte(word / 256),
        high: low_byte(word / 65536),
        start,
        part: low_byte(word / 16777216),
    }
}

// The words of a state.
pub fn packed(state: Feed) -> [u32; 16]
    ensures { Lent state result }
{
    let cursor = state.cursor;
    let front = state.front;
    let goal = cursor.goal;
    let scan = cursor.scan;
    let t = goal_tagged(goal);
    [
        marked(t.tag, cursor.bad),
        t.number,
        t.blocks,
        t.count,
        low_half(cursor.place),
        high_half(cursor.place),
        cursor.have,
        cursor.value,
        cursor.at,
        cursor.todo,
        cursor.pad,
        scan_word(scan),
        scan.start,
        cursor.zeros,
        front.have,
        front.value,
    ]
}

// The state that words are: none that is sound, where the tag is unknown.
pub fn unpacked(words: &[u32; 16]) -> Feed
    ensures { result ≡ feed_of words.now }
{
    let tag = words[0];
    let goal = goal_of(tag_in(tag), words[1], words[2], words[3]);
    let scan = scan_of(words[11], words[12]);
    let cursor = Cursor {
        goal,
        place: place_of(words[4], words[5]),
        have: words[6],
        value: words[7],
        at: words[8],
        todo: words[9],
        pad: words[10],
        scan,
        zeros: words[13],
        bad: 32 <= tag,
    };
    Feed {
        cursor,
        front: Front {
            have: words[14],
            value: words[15],
        },
    }
}
