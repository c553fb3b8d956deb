// A goal as numbers: a tag that says which it is, and what it counts. They stay numbers here and wherever they are passed on, since the words
// are a host's, and any number may stand in them.
ghost use Rattle.std.specs.Prelude.{◌≡◌, cond};
ghost use Rattle.feed_lent.specs.Lent.{edition_tag, word_tagged, string_tagged, gap_tagged, goal_tagged, late_word_of, word_of, string_of, gap_of, goal_of};

use feed::state::{Gap, Goal, StringField, WordField};
use message::Edition;

// A goal as numbers: which it is, the bytes to pass over or the number of a refusal, the blocks, and the files or options.
#[derive(Clone, Copy)]
pub struct Tagged {
    pub tag: u32,
    pub number: u32,
    pub blocks: u32,
    pub count: u32,
}

fn edition_tag(edition: Edition) -> u32
    ensures { result ≡ edition_tag edition }
{
    match edition {
        Edition::Old => 1,
        Edition::New => 2,
    }
}

// One of two tags.
fn either(flag: bool, set: u32, clear: u32) -> u32
    ensures { result ≡ cond flag set clear }
{
    if flag {
        return set;
    }
    clear
}

fn numbered(tag: u32, number: u32, blocks: u32, count: u32) -> Tagged
    ensures { result ≡ record { tag = tag; number = number; blocks = blocks; count = count } }
{
    Tagged {
        tag,
        number,
        blocks,
        count,
    }
}

fn word_tagged(field: WordField) -> Tagged
    ensures { result ≡ word_tagged field }
{
    match field {
        WordField::Start(e) => numbered(edition_tag(e), 0, 0, 0),
        WordField::FileCount => numbered(3, 0, 0, 0),
        WordField::Flags(k) => numbered(4, 0, 0, k),
        WordField::BlockCount(d, k) => numbered(either(d, 6, 5), 0, 0, k),
        WordField::Block(m, k) => numbered(7, 0, m, k),
        WordField::HashLength(m, k) => numbered(8, 0, m, k),
        WordField::OptionCount => numbered(9, 0, 0, 0),
    }
}

fn string_tagged(string: StringField) -> Tagged
    ensures { result ≡ string_tagged string }
{
    match string {
        StringField::Index => numbered(10, 0, 0, 0),
        StringField::Request => numbered(11, 0, 0, 0),
        StringField::RequestName => numbered(12, 0, 0, 0),
        StringField::Data => numbered(13, 0, 0, 0),
        StringField::File(k) => numbered(14, 0, 0, k),
        StringField::Key(k) => numbered(15, 0, 0, k),
        StringField::Value(k) => numbered(16, 0, 0, k),
    }
}

fn gap_tagged(n: u32, gap: Gap) -> Tagged
    ensures { result ≡ gap_tagged n gap }
{
    match gap {
        Gap::Offset => numbered(17, n, 0, 0),
        Gap::Times(d, k) => numbered(either(d, 19, 18), n, 0, k),
        Gap::Hash(m, k) => numbered(20, n, m, k),
    }
}

// The numbers of a goal.
pub(crate) fn goal_tagged(goal: Goal) -> Tagged
    ensures { result ≡ goal_tagged goal }
{
    match goal {
        Goal::Word(field) => word_tagged(field),
        Goal::String(string) => string_tagged(string),
        Goal::Skip(n, gap) => gap_tagged(n, gap),
        Goal::Ended => numbered(21, 0, 0, 0),
        Goal::Stopped(n) => numbered(22, n, 0, 0),
    }
}

fn late_word_of(tag: u32, m: u32, k: u32) -> WordField
    ensures { result ≡ late_word_of tag m k }
{
    match tag {
        0 => WordField::Block(m, k),
        1 => WordField::HashLength(m, k),
        _ => WordField::OptionCount,
    }
}

pub(crate) fn word_of(tag: u32, m: u32, k: u32) -> WordField
    ensures { result ≡ word_of tag m k }
{
    if 6 <= tag {
        return late_word_of(tag - 6, m, k);
    }
    match tag {
        0 => WordField::Start(Edition::Old),
        1 => WordField::Start(Edition::New),
        2 => WordField::FileCount,
        3 => WordField::Flags(k),
        4 => WordField::BlockCount(false, k),
        _ => WordField::BlockCount(true, k),
    }
}

pub(crate) fn string_of(tag: u32, k: u32) -> StringField
    ensures { result ≡ string_of tag k }
{
    match tag {
        0 => StringField::Index,
        1 => StringField::Request,
        2 => StringField::RequestName,
        3 => StringField::Data,
        4 => StringField::File(k),
        5 => StringField::Key(k),
        _ => StringField::Value(k),
    }
}

pub(crate) fn gap_of(tag: u32, m: u32, k: u32) -> Gap
    ensures { result ≡ gap_of tag m k }
{
    match tag {
        0 => Gap::Offset,
        1 => Gap::Times(false, k),
        2 => Gap::Times(true, k),
        _ => Gap::Hash(m, k),
    }
}

// The goal that numbers are: one that no sound state has, where the tag is unknown or 0.
pub(crate) fn goal_of(tag: u32, n: u32, m: u32, k: u32) -> Goal
    ensures { result ≡ goal_of tag n m k }
{
    if tag == 0 {
        return Goal::Skip(0, Gap::Offset);
    }
    if tag < 10 {
        return Goal::Word(word_of(tag - 1, m, k));
    }
    if tag < 17 {
        return Goal::String(string_of(tag - 10, k));
    }
    if tag < 21 {
        return Goal::Skip(n, gap_of(tag - 17, m, k));
    }
    match tag {
        21 => Goal::Ended,
        22 => Goal::Stopped(n),
        _ => Goal::Skip(0, Gap::Offset),
    }
}
