// A message from runs of bytes as they come: its state is lent as 16 words, which each run changes.
//
// Any words may be given: those of no sound state are refused with 22 and left as they were.
ghost use Rattle.std.specs.Prelude.{◌≡◌};
ghost use Rattle.feed.specs.Front.{header_in};
ghost use Rattle.feed_lent.specs.Lent.{feed_of, Lent};
ghost use Rattle.feed.specs.Opened.{opened};
ghost use Rattle.bep.specs.Feeding.{Feeds, header_number, header_words};

use message::Edition;

// Opens a state for a message.
#[unsafe(no_mangle)]
pub extern "C" fn bep_feed_open(feed: &mut [u32; 16]) -> u32
    ensures { (result ≡ 0) × Lent (opened Edition.New) feed.new }
{
    bep::feeding::bep_feed_open(feed)
}

// Opens a state for a message of the old edition.
#[unsafe(no_mangle)]
pub extern "C" fn bep_feed_open_old(feed: &mut [u32; 16]) -> u32
    ensures { (result ≡ 0) × Lent (opened Edition.Old) feed.new }
{
    bep::feeding::bep_feed_open_old(feed)
}

// Feeds a run: the answer is how many bytes are surely still missing (1), the length of the message (0) or the place; and how many bytes of
// the run were taken.
#[unsafe(no_mangle)]
pub extern "C" fn bep_feed(feed: &mut [u32; 16], run: &[u8], answer: &mut [u64; 2]) -> u32
    ensures { Feeds feed.old run.now result answer.new feed.new }
{
    bep::feeding::bep_feed(feed, run, answer)
}

// The type and the ID of the message, once its four first bytes have come: before that 1 and zeros. Any words have an answer.
#[unsafe(no_mangle)]
pub extern "C" fn bep_feed_header(feed: &[u32; 16], answer: &mut [u64; 2]) -> u32
    ensures { (result ≡ header_number (header_in (feed_of feed.now).front))
        × (answer.new ≡ header_words (header_in (feed_of feed.now).front)) }
{
    bep::feeding::bep_feed_header(feed, answer)
}
