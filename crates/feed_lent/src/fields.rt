// Whether a run ends within the field at hand, by the words, and the words after it. The tests say no to whatever is out of the ordinary:
// a run that they do not know is fed to the state that the words are.
ghost use Rattle.std.specs.Prelude.{◌≡◌, true, ◌+◌, ◌<◌, ◌≤◌, length, get_or};
ghost use Rattle.feed_lent.specs.Steps.{UnderWay, GapAt, WordAt, StringAt, Unread, passed_over, one_more, OverContents, zero_over, closed};

use crate::lent::{high_half, low_half, scan_of, scan_word};
use crate::tags::{gap_of, string_of, word_of};
use feed::goals::rule_of;
use feed::scan::scan_on;
use feed::sound::{is_inside, is_word, most_gap, most_string, most_word, room_for};

// Whether the header has come, and the place is a short one.
pub(crate) fn is_under_way(words: &[u32; 16]) -> bool
    ensures { result ≡ true → UnderWay words.now }
{
    if words[5] != 0 {
        return false;
    }
    words[14] == 4
}

// Whether so many bytes end within bytes that are passed over.
pub(crate) fn is_in_gap(words: &[u32; 16], len: usize) -> bool
    ensures { result ≡ true → GapAt words.now len }
{
    let [tag, n, m, k, place, _, have, value, ..] = *words;
    if tag < 17 {
        return false;
    }
    if 21 <= tag {
        return false;
    }
    if n as usize <= len {
        return false;
    }
    if have != 0 {
        return false;
    }
    if value != 0 {
        return false;
    }
    let most = most_gap(gap_of(tag - 17, m, k));
    room_for(place as usize, (n as u64) + most)
}

// The words after so many of them.
pub(crate) fn passed_over(words: &mut [u32; 16], k: u32)
    requires { (k ≤ get_or words.old 1 0) × (get_or words.old 4 0 + k ≤ 22000000) }
    ensures { words.new ≡ passed_over words.old k }
{
    words[1] -= k;
    words[4] += k;
}

// Whether one byte is one of a word or a length, and not its last.
pub(crate) fn is_in_word(words: &[u32; 16], len: usize) -> bool
    ensures { result ≡ true → WordAt words.now len }
{
    let [tag, _, m, k, place, _, have, value, ..] = *words;
    if tag == 0 {
        return false;
    }
    if 17 <= tag {
        return false;
    }
    if len != 1 {
        return false;
    }
    if 3 <= have {
        return false;
    }
    if !is_word(have, value) {
        return false;
    }
    if tag < 10 {
        return room_for(place as usize, most_word(word_of(tag - 1, m, k)));
    }
    room_for(place as usize, most_string(string_of(tag - 10, k)))
}

// The words after it.
pub(crate) fn one_more(words: &mut [u32; 16], b: u8)
    requires { (get_or words.old 6 0 < 3) × (get_or words.old 7 0 < 16777216) }
    ensures { words.new ≡ one_more words.old b }
{
    words[6] += 1;
    words[7] = words[7] * 256 + (b as u32);
}

// Whether words are those of a state within a string.
pub(crate) fn is_in_string(words: &[u32; 16]) -> bool
    ensures { result ≡ true → StringAt words.now }
{
    let [
        tag,
        _,
        _,
        k,
        place,
        _,
        have,
        value,
        at,
        todo,
        pad,
        _,
        _,
        zeros,
        ..
    ] = *words;
    if tag < 10 {
        return false;
    }
    if 17 <= tag {
        return false;
    }
    let string = string_of(tag - 10, k);
    if !is_inside(string, have, value, at, todo, pad, zeros) {
        return false;
    }
    room_for(place as usize, most_string(string))
}

// Whether so many bytes are contents, and more of the string is to come.
pub(crate) fn is_in_contents(todo: u32, pad: u32, len: usize) -> bool
    ensures { result ≡ true → (len ≤ todo) × (len < todo + pad) }
{
    if (todo as usize) < len {
        return false;
    }
    len < (todo as usize) + (pad as usize)
}

// The words after them.
pub(crate) fn contents_over(words: &mut [u32; 16], run: &[u8])
    requires { StringAt words.old × (length run.now ≤ get_or words.old 9 0) }
    ensures { OverContents words.old run.now words.new }
{
    let k = run.len() as u32;
    let string = string_of(words[0] - 10, words[3]);
    let before = scan_of(words[11], words[12]);
    let scan = scan_on(rule_of(string), before, words[8], run);
    words[8] += k;
    words[9] -= k;
    words[11] = scan_word(scan);
    words[12] = scan.start;
}

// Whether a run is one zero of a pad, and not its last byte.
pub(crate) fn is_in_pad(todo: u32, pad: u32, run: &[u8]) -> bool
    ensures { result ≡ true → (todo ≡ 0) × (1 < pad) × (length run.now ≡ 1) × (get_or run.now 0 0 ≡ 0) }
{
    if todo != 0 {
        return false;
    }
    if pad < 2 {
        return false;
    }
    if run.len() != 1 {
        return false;
    }
    run[0] == 0
}

// The words after it.
pub(crate) fn zero_over(words: &mut [u32; 16])
    requires { (1 < get_or words.old 10 0) × (get_or words.old 13 0 < 3) }
    ensures { words.new ≡ zero_over words.old }
{
    words[10] -= 1;
    words[13] += 1;
}

// Whether no byte has come.
pub(crate) fn is_unread(words: &[u32; 16]) -> bool
    ensures { result ≡ true → Unread words.now }
{
    if words[0] == 0 {
        return false;
    }
    if 3 <= words[0] {
        return false;
    }
    if words[4] != 0 {
        return false;
    }
    if words[5] != 0 {
        return false;
    }
    if words[6] != 0 {
        return false;
    }
    if words[7] != 0 {
        return false;
    }
    if words[14] != 0 {
        return false;
    }
    words[15] == 0
}

// The words of a message that has ended or was refused at a place, by its tag, a refusal's number and its header.
pub(crate) fn closed(words: &mut [u32; 16], tag: u32, number: u32, place: usize, header: u32)
    ensures { words.new ≡ closed words.old tag number place header }
{
    words[0] = tag;
    words[1] = number;
    words[4] = low_half(place);
    words[5] = high_half(place);
    words[6] = 0;
    words[7] = 0;
    words[14] = 4;
    words[15] = header;
}
