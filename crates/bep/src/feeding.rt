// A message from runs of bytes as they come: its state is lent as 16 words, which each run changes.
//
// Any words may be given: those of no sound state are refused with 22 and left as they were.
ghost use Rattle.std.specs.Prelude.{◌≡◌};
ghost use Rattle.feed.specs.Front.{header_in};
ghost use Rattle.feed_lent.specs.Lent.{feed_of, Lent};
ghost use Rattle.feed.specs.Missing.{missing_in};
ghost use Rattle.feed.specs.Opened.{opened};
ghost use Rattle.bep.specs.Feeding.{said_number, said_words, Feeds, header_number, header_words};

use feed::{Feed, Header};
use feed_lent::{Said, feed_words, missing_words, packed, unpacked};
use message::Edition;

// Fills the answer of a run, and gives its number.
fn give_said(said: Said, feed: &[u32; 16], answer: &mut [u64; 2]) -> u32
    ensures { (result ≡ said_number said.answer)
        × (answer.new ≡ said_words (missing_in (feed_of feed.now).cursor) said.taken said.answer) }
{
    match said.answer {
        Ok(None) => {
            *answer = [missing_words(feed) as u64, said.taken as u64];
            1
        }
        Ok(Some(end)) => {
            *answer = [end as u64, said.taken as u64];
            0
        }
        Err(r) => {
            *answer = [r.place as u64, said.taken as u64];
            r.number
        }
    }
}

// Fills the answer of a header, and gives its number.
fn give_header(header: Option<Header>, answer: &mut [u64; 2]) -> u32
    ensures { (result ≡ header_number header) × (answer.new ≡ header_words header) }
{
    match header {
        Some(h) => {
            *answer = [h.kind as u64, h.id as u64];
            0
        }
        None => {
            *answer = [0, 0];
            1
        }
    }
}

// Opens a state for a message.
pub fn bep_feed_open(feed: &mut [u32; 16]) -> u32
    ensures { (result ≡ 0) × Lent (opened Edition.New) feed.new }
{
    let state = Feed::open(Edition::New);
    *feed = packed(state);
    0
}

// Opens a state for a message of the old edition.
pub fn bep_feed_open_old(feed: &mut [u32; 16]) -> u32
    ensures { (result ≡ 0) × Lent (opened Edition.Old) feed.new }
{
    let state = Feed::open(Edition::Old);
    *feed = packed(state);
    0
}

// Feeds a run: the answer is how many bytes are surely still missing (1), the length of the message (0) or the place; and how many bytes of
// the run were taken.
pub fn bep_feed(feed: &mut [u32; 16], run: &[u8], answer: &mut [u64; 2]) -> u32
    ensures { Feeds feed.old run.now result answer.new feed.new }
{
    let said = feed_words(feed, run);
    give_said(said, feed, answer)
}

// The type and the ID of the message, once its four first bytes have come: before that 1 and zeros. Any words have an answer.
pub fn bep_feed_header(feed: &[u32; 16], answer: &mut [u64; 2]) -> u32
    ensures { (result ≡ header_number (header_in (feed_of feed.now).front))
        × (answer.new ≡ header_words (header_in (feed_of feed.now).front)) }
{
    let state = unpacked(feed);
    give_header(state.header(), answer)
}
