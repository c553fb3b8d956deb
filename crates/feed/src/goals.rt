// The goals: what comes after each, and the states at them.
ghost use Rattle.std.specs.Prelude.{◌≡◌};
ghost use Rattle.message.specs.Message.{kind_of};
ghost use Rattle.feed.specs.Rest.{rule_of as rule_is, limit_of, options_goal, behind_string, gathered as gathered_state, at_goal, stopped as stopped_state};
ghost use Rattle.feed.specs.Steps.Next.{files_goal, blocks_goal, behind_gap, body_goal, index_goal, request_goal};

use crate::scan::fresh;
use crate::state::{Cursor, Gap, Goal, Rule, StringField, WordField};
use message::Edition;

// The state at a goal, of whose word so many bytes have come.
pub(crate) fn gathered(goal: Goal, place: usize, have: u32, value: u32) -> Cursor
    ensures { result ≡ gathered_state goal place have value }
{
    Cursor {
        goal,
        place,
        have,
        value,
        at: 0,
        todo: 0,
        pad: 0,
        scan: fresh(),
        zeros: 0,
        bad: false,
    }
}

// The state at the start of a goal.
pub(crate) fn at_goal(goal: Goal, place: usize) -> Cursor
    ensures { result ≡ at_goal goal place }
{
    gathered(goal, place, 0, 0)
}

// The state of a refusal, by its number.
pub(crate) fn stopped(number: u32, place: usize) -> Cursor
    ensures { result ≡ stopped_state number place }
{
    gathered(Goal::Stopped(number), place, 0, 0)
}

// So many files to come.
pub(crate) fn files_goal(n: u32) -> Goal
    ensures { result ≡ files_goal n }
{
    if n == 0 {
        return Goal::Ended;
    }
    Goal::String(StringField::File(n - 1))
}

// So many blocks to come, and then so many files.
pub(crate) fn blocks_goal(m: u32, n: u32) -> Goal
    ensures { result ≡ blocks_goal m n }
{
    if m == 0 {
        return files_goal(n);
    }
    Goal::Word(WordField::Block(m - 1, n))
}

// So many options to come.
pub(crate) fn options_goal(n: u32) -> Goal
    ensures { result ≡ options_goal n }
{
    if n == 0 {
        return Goal::Ended;
    }
    Goal::String(StringField::Key(n - 1))
}

// The goal of an Index.
fn index_goal(edition: Edition) -> Goal
    ensures { result ≡ index_goal edition }
{
    match edition {
        Edition::Old => Goal::Word(WordField::FileCount),
        Edition::New => Goal::String(StringField::Index),
    }
}

// The goal of a Request.
fn request_goal(edition: Edition) -> Goal
    ensures { result ≡ request_goal edition }
{
    match edition {
        Edition::Old => Goal::String(StringField::RequestName),
        Edition::New => Goal::String(StringField::Request),
    }
}

// The goal of a body, by the type, which is the header's number.
pub(crate) fn body_goal(edition: Edition, kind: u32) -> Goal
    ensures { result ≡ body_goal edition (kind_of kind) }
{
    match kind {
        1 => index_goal(edition),
        2 => request_goal(edition),
        3 => Goal::String(StringField::Data),
        4 => Goal::Ended,
        5 => Goal::Ended,
        6 => index_goal(edition),
        _ => Goal::Word(WordField::OptionCount),
    }
}

// The goal after a string.
pub(crate) fn behind_string(string: StringField) -> Goal
    ensures { result ≡ behind_string string }
{
    match string {
        StringField::Index => Goal::Word(WordField::FileCount),
        StringField::Request => Goal::String(StringField::RequestName),
        StringField::RequestName => Goal::Skip(8, Gap::Offset),
        StringField::Data => Goal::Ended,
        StringField::File(k) => Goal::Word(WordField::Flags(k)),
        StringField::Key(k) => Goal::String(StringField::Value(k)),
        StringField::Value(k) => options_goal(k),
    }
}

// The goal after bytes that are passed over.
pub(crate) fn behind_gap(gap: Gap) -> Goal
    ensures { result ≡ behind_gap gap }
{
    match gap {
        Gap::Offset => Goal::Word(WordField::Block(0, 0)),
        Gap::Times(d, k) => Goal::Word(WordField::BlockCount(d, k)),
        Gap::Hash(m, k) => blocks_goal(m, k),
    }
}

// The rule of a string.
pub fn rule_of(string: StringField) -> Rule
    ensures { result ≡ rule_is string }
{
    match string {
        StringField::Index => Rule::Text,
        StringField::Request => Rule::Text,
        StringField::RequestName => Rule::Name,
        StringField::Data => Rule::Opaque,
        StringField::File(_) => Rule::Name,
        StringField::Key(_) => Rule::Text,
        StringField::Value(_) => Rule::Text,
    }
}

// The limit of its length.
pub fn limit_of(string: StringField) -> u32
    ensures { result ≡ limit_of string }
{
    match string {
        StringField::Index => 64,
        StringField::Request => 64,
        StringField::RequestName => 255,
        StringField::Data => 131072,
        StringField::File(_) => 255,
        StringField::Key(_) => 64,
        StringField::Value(_) => 255,
    }
}
