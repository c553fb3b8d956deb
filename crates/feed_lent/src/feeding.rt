// Feeding a run to words.
ghost use Rattle.std.specs.Prelude.{◌≡◌, ◌<◌, length, Ok, None};
ghost use Rattle.feed.specs.Missing.{missing_in};
ghost use Rattle.feed_lent.specs.Lent.{feed_of, FedLent};
ghost use Rattle.feed_lent.specs.Steps.{UnderWay, StringAt, Unread, edition_of, missing_by};

use crate::fields::{
    closed, contents_over, is_in_contents, is_in_gap, is_in_pad, is_in_string, is_in_word,
    is_under_way, is_unread, one_more, passed_over, zero_over,
};
use crate::lent::{Said, packed, tag_in, unpacked};
use crate::once::at_once;
use feed::feeding::word_missing;
use feed::sound::is_sound;
use message::Edition;
use xdr::Refusal;

// A run that ends within a field.
fn waiting(taken: usize) -> Said
    ensures { result ≡ record { answer = Ok None; taken = taken } }
{
    Said {
        answer: Ok(None),
        taken,
    }
}

// A run fed to the state that words are, whatever it is.
fn feed_state(words: &mut [u32; 16], run: &[u8]) -> Said
    ensures { FedLent words.old run.now result words.new }
{
    let state = unpacked(words);
    if !is_sound(state) {
        return Said {
            answer: Err(Refusal::at_start(22)),
            taken: 0,
        };
    }
    let fed = state.feed(run);
    let next = fed.state;
    *words = packed(next);
    let answer = fed.answer;
    Said {
        answer,
        taken: fed.taken,
    }
}

// The edition of a header's tag.
fn edition_of(tag: u32) -> Edition
    ensures { result ≡ edition_of tag }
{
    if tag == 1 {
        return Edition::Old;
    }
    Edition::New
}

// The first run: a message that is whole in it is read at once.
fn feed_first(words: &mut [u32; 16], run: &[u8]) -> Said
    requires { Unread words.old }
    ensures { FedLent words.old run.now result words.new }
{
    let Ok((header, _)) = xdr::read_word(run, 0) else {
        return feed_state(words, run);
    };
    match at_once(edition_of(words[0]), run) {
        Ok(None) => feed_state(words, run),
        Ok(Some(end)) => {
            closed(words, 21, 0, end, header);
            Said {
                answer: Ok(Some(end)),
                taken: end,
            }
        }
        Err(r) => {
            closed(words, 22, r.number, r.place, header);
            Said {
                answer: Err(r),
                taken: run.len(),
            }
        }
    }
}

// A run of a message whose header has come, within a string.
fn feed_string(words: &mut [u32; 16], run: &[u8]) -> Said
    requires { UnderWay words.old × StringAt words.old × (0 < length run.now) }
    ensures { FedLent words.old run.now result words.new }
{
    let len = run.len();
    if is_in_contents(words[9], words[10], len) {
        contents_over(words, run);
        return waiting(len);
    }
    if is_in_pad(words[9], words[10], run) {
        zero_over(words);
        return waiting(len);
    }
    feed_state(words, run)
}

// A run of a message whose header has come.
fn feed_on(words: &mut [u32; 16], run: &[u8]) -> Said
    requires { UnderWay words.old × (0 < length run.now) }
    ensures { FedLent words.old run.now result words.new }
{
    let len = run.len();
    if is_in_gap(words, len) {
        passed_over(words, len as u32);
        return waiting(len);
    }
    if is_in_word(words, len) {
        one_more(words, run[0]);
        return waiting(len);
    }
    if is_in_string(words) {
        return feed_string(words, run);
    }
    feed_state(words, run)
}

// A run fed to the state that words are: they become those of the state to go on with. Words of no sound state are refused with 22 and left
// as they are.
pub fn feed_words(words: &mut [u32; 16], run: &[u8]) -> Said
    ensures { FedLent words.old run.now result words.new }
{
    if run.len() == 0 {
        return feed_state(words, run);
    }
    if is_under_way(words) {
        return feed_on(words, run);
    }
    if is_unread(words) {
        return feed_first(words, run);
    }
    feed_state(words, run)
}

// So many bytes are surely still missing, by the words of a goal, of a word and of a string.
fn missing_of(tag: u32, n: u32, have: u32, todo: u32, pad: u32) -> usize
    ensures { result ≡ missing_by tag n have todo pad }
{
    if tag == 0 {
        return 0;
    }
    if 21 <= tag {
        return 0;
    }
    if 17 <= tag {
        return n as usize;
    }
    if have <= 3 {
        return word_missing(have);
    }
    if tag < 10 {
        return 0;
    }
    (todo as usize) + (pad as usize)
}

// So many bytes are surely still missing.
pub fn missing_words(words: &[u32; 16]) -> usize
    ensures { result ≡ missing_in (feed_of words.now).cursor }
{
    missing_of(tag_in(words[0]), words[1], words[6], words[9], words[10])
}
