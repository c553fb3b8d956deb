// Whether a state that is given is sound.
ghost use Rattle.std.specs.Prelude.{◌≡◌, ◌&&◌, leb, ◌+◌, ◌*◌, ◌≤◌};
ghost use Rattle.feed.specs.Sound.{most_word, most_string, most_gap, room_for, bounded_test, word_test, front_test, parts_test, fits_test, is_sound_cursor, is_sound};

use crate::goals::limit_of;
use crate::state::{Cursor, Feed, Gap, Goal, StringField, WordField};

// The most bytes that so many blocks and files take after so many others.
fn most_of(first: u64, blocks: u32, files: u32) -> u64
    requires { first ≤ 100000000 }
    ensures { result ≡ first + blocks * 40 + files * 42000 }
{
    first + (blocks as u64) * 40 + (files as u64) * 42000
}

// The most bytes that options take after so many others.
fn most_options(first: u64, options: u32) -> u64
    requires { first ≤ 100000000 }
    ensures { result ≡ first + options * 400 }
{
    first + (options as u64) * 400
}

pub fn most_word(field: WordField) -> u64
    ensures { (result ≡ most_word field) × (result ≤ 400000000000000) }
{
    match field {
        WordField::Start(_) => 22000000,
        WordField::FileCount => 21800000,
        WordField::Flags(k) => most_of(41500, 0, k),
        WordField::BlockCount(_, k) => most_of(41100, 0, k),
        WordField::Block(m, k) => most_of(40, m, k),
        WordField::HashLength(m, k) => most_of(36, m, k),
        WordField::OptionCount => 30000,
    }
}

pub fn most_string(string: StringField) -> u64
    ensures { (result ≡ most_string string) × (result ≤ 400000000000000) }
{
    match string {
        StringField::Index => 21900000,
        StringField::Request => 2000,
        StringField::RequestName => 1000,
        StringField::Data => 140000,
        StringField::File(k) => most_of(42000, 0, k),
        StringField::Key(k) => most_options(400, k),
        StringField::Value(k) => most_options(300, k),
    }
}

pub fn most_gap(gap: Gap) -> u64
    ensures { (result ≡ most_gap gap) × (result ≤ 400000000000000) }
{
    match gap {
        Gap::Offset => 100,
        Gap::Times(_, k) => most_of(41200, 0, k),
        Gap::Hash(m, k) => most_of(0, m, k),
    }
}

// Whether so many bytes from a place on stay within the limit.
pub fn room_for(place: usize, most: u64) -> bool
    ensures { result ≡ room_for place most }
{
    if 22000000 < place {
        return false;
    }
    most <= 22000000 - (place as u64)
}

fn is_bounded(goal: Goal, place: usize) -> bool
    ensures { result ≡ bounded_test goal place }
{
    match goal {
        Goal::Word(field) => room_for(place, most_word(field)),
        Goal::String(string) => room_for(place, most_string(string)),
        Goal::Skip(n, gap) => room_for(place, (n as u64) + most_gap(gap)),
        Goal::Ended => true,
        Goal::Stopped(_) => true,
    }
}

// Whether a number is one of so many bytes, three at most.
pub fn is_word(have: u32, value: u32) -> bool
    ensures { result ≡ word_test have value }
{
    match have {
        0 => value < 1,
        1 => value < 256,
        2 => value < 65536,
        3 => value < 16777216,
        _ => false,
    }
}

// Whether bytes are missing of a string, and not more of its pad than a pad has.
pub fn is_missing(todo: u32, pad: u32, zeros: u32) -> bool
    ensures { result ≡ leb 1 (todo + pad) && leb (zeros + pad) 3 }
{
    if (todo as u64) + (pad as u64) == 0 {
        return false;
    }
    (zeros as u64) + (pad as u64) <= 3
}

// Whether a state of these numbers is one within a string.
pub fn is_inside(
    string: StringField,
    have: u32,
    value: u32,
    at: u32,
    todo: u32,
    pad: u32,
    zeros: u32,
) -> bool
    ensures { result ≡ parts_test string have value at todo pad zeros }
{
    if have != 4 {
        return false;
    }
    if limit_of(string) < value {
        return false;
    }
    let size = value as u64;
    if (at as u64) + (todo as u64) != size {
        return false;
    }
    if (size + 3) / 4 * 4 < (todo as u64) + (pad as u64) {
        return false;
    }
    is_missing(todo, pad, zeros)
}

fn is_fit(goal: Goal, state: Cursor) -> bool
    ensures { result ≡ fits_test goal state }
{
    match goal {
        Goal::Word(_) => is_word(state.have, state.value),
        Goal::String(string) => {
            if state.have <= 3 {
                is_word(state.have, state.value)
            } else {
                is_inside(
                    string,
                    state.have,
                    state.value,
                    state.at,
                    state.todo,
                    state.pad,
                    state.zeros,
                )
            }
        }
        Goal::Skip(n, _) => {
            if state.have != 0 {
                return false;
            }
            1 <= n
        }
        Goal::Ended => state.have == 0,
        Goal::Stopped(number) => {
            if state.have != 0 {
                return false;
            }
            2 <= number
        }
    }
}

// Whether where the reading stands is sound.
fn is_sound_cursor(cursor: Cursor) -> bool
    ensures { result ≡ is_sound_cursor cursor }
{
    let goal = cursor.goal;
    if !is_bounded(goal, cursor.place) {
        return false;
    }
    is_fit(goal, cursor)
}

// Whether first bytes are.
fn is_front(have: u32, value: u32) -> bool
    ensures { result ≡ front_test have value }
{
    if have == 4 {
        return true;
    }
    is_word(have, value)
}

// Whether a state is sound.
pub fn is_sound(state: Feed) -> bool
    ensures { result ≡ is_sound state }
{
    let cursor = state.cursor;
    let front = state.front;
    if !is_sound_cursor(cursor) {
        return false;
    }
    is_front(front.have, front.value)
}
