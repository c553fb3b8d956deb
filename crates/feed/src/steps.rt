// The steps: a byte of a word, of a string, and bytes that are passed over.
ghost use Rattle.std.specs.Prelude.{◌≡◌, cond, ltb, ◌+◌, ◌*◌, ◌-◌, ◌<◌, ◌≤◌};
ghost use Rattle.xdr.specs.Pad.{padded};
ghost use Rattle.feed.specs.declared.state.Goal.TheVariants as G;
ghost use Rattle.feed.specs.Rest.{gathered as gathered_state};
ghost use Rattle.feed.specs.Sound.{Inside, Fits, Sound};
ghost use Rattle.feed.specs.Steps.Next.{after_word, after_string, settled as settled_state, after_length, bad_after, inside_after, gap_after, goal_after, stepped as stepped_state};

use crate::goals::{at_goal, behind_gap, behind_string, gathered, limit_of, rule_of, stopped};
use crate::scan::{fills, leads, passes, scan_after};
use crate::state::{Cursor, Gap, Goal, StringField, WordField};
use crate::words::after_word;

// The pad of so many bytes.
fn pad_of(n: u32) -> u32
    requires { n ≤ 131072 }
    ensures { result ≡ padded n - n }
{
    xdr::pad_after(n as usize) as u32
}

// After a string that is whole.
fn after_string(string: StringField, state: Cursor) -> Cursor
    requires { (state.place ≤ 22000000) × (state.value ≤ 131072) }
    ensures { result ≡ after_string string state.place state.value state.zeros state.scan }
{
    let place = state.place;
    let len = state.value as usize;
    if state.zeros != pad_of(state.value) {
        return stopped(6, place + (4 + (len + (state.zeros as usize))));
    }
    let rule = rule_of(string);
    let scan = state.scan;
    if !passes(rule, scan) {
        return stopped(7, place + (4 + (scan.start as usize)));
    }
    if !fills(rule, state.value) {
        return stopped(8, place);
    }
    if !leads(rule, scan) {
        return stopped(24, place);
    }
    at_goal(
        behind_string(string),
        place + (4 + (len + xdr::pad_after(len))),
    )
}

// A string whose length has come: where none of its bytes and of its pad are still to come, it is whole.
pub(crate) fn settled(string: StringField, state: Cursor) -> Cursor
    requires { (state.place ≤ 22000000) × (state.value ≤ 131072) × (state.todo + state.pad ≤ 131075) }
    ensures { result ≡ settled_state string state.place state.value state.at state.todo state.pad state.scan state.zeros state.bad }
{
    if state.todo + state.pad == 0 {
        return after_string(string, state);
    }
    Cursor {
        goal: Goal::String(string),
        have: 4,
        ..state
    }
}

// After a length word.
pub(crate) fn after_length(string: StringField, place: usize, n: u32) -> Cursor
    requires { place ≤ 22000000 }
    ensures { result ≡ after_length string place n }
{
    if n <= limit_of(string) {
        let start = at_goal(Goal::String(string), place);
        settled(
            string,
            Cursor {
                value: n,
                todo: n,
                pad: pad_of(n),
                ..start
            },
        )
    } else {
        stopped(5, place)
    }
}

// Whether a pad byte was not zero.
fn bad_after(bad: bool, b: u8) -> bool
    ensures { result ≡ bad_after bad b }
{
    if bad {
        return true;
    }
    b != 0
}

// How many zeros are at the front of a pad, after a byte of it.
fn zeros_after(bad: bool, zeros: u32) -> u32
    requires { zeros ≤ 3 }
    ensures { result ≡ cond bad zeros (zeros + 1) }
{
    if bad {
        return zeros;
    }
    zeros + 1
}

// After a byte of pad.
fn pad_after(string: StringField, state: Cursor, b: u8) -> Cursor
    requires { (state.place ≤ 22000000) × Inside string state × (state.todo ≡ 0) }
    ensures { result ≡ inside_after string state b }
{
    let bad = bad_after(state.bad, b);
    settled(
        string,
        Cursor {
            todo: 0,
            pad: state.pad - 1,
            zeros: zeros_after(bad, state.zeros),
            bad,
            ..state
        },
    )
}

// After a byte of contents or pad.
fn inside_after(string: StringField, state: Cursor, b: u8) -> Cursor
    requires { (state.place ≤ 22000000) × Inside string state }
    ensures { result ≡ inside_after string state b }
{
    let todo = state.todo;
    if todo == 0 {
        return pad_after(string, state, b);
    }
    settled(
        string,
        Cursor {
            at: state.at + 1,
            todo: todo - 1,
            scan: scan_after(rule_of(string), state.scan, state.at, b),
            ..state
        },
    )
}

// After k bytes of n that are passed over.
pub(crate) fn gap_after(n: u32, gap: Gap, place: usize, k: u32) -> Cursor
    requires { (place + k ≤ 22000000) × (k ≤ n) }
    ensures { result ≡ gap_after n gap place k }
{
    if n == k {
        return at_goal(behind_gap(gap), place + (k as usize));
    }
    at_goal(Goal::Skip(n - k, gap), place + (k as usize))
}

// A word with one more byte.
pub(crate) fn joined(value: u32, b: u8) -> u32
    requires { value < 16777216 }
    ensures { result ≡ value * 256 + b }
{
    value * 256 + (b as u32)
}

// After a byte of a word.
fn word_after(field: WordField, place: usize, have: u32, value: u32, b: u8) -> Cursor
    requires { (place ≤ 22000000) × (value < 16777216) }
    ensures { result ≡ cond (ltb have 3) (gathered_state (G.Word field) place (have + 1) (value * 256 + b)) (after_word field place (value * 256 + b)) }
{
    if have < 3 {
        gathered(Goal::Word(field), place, have + 1, joined(value, b))
    } else {
        after_word(field, place, joined(value, b))
    }
}

// After a byte of a length word.
fn length_after(string: StringField, place: usize, have: u32, value: u32, b: u8) -> Cursor
    requires { (place ≤ 22000000) × (value < 16777216) }
    ensures { result ≡ cond (ltb have 3) (gathered_state (G.String string) place (have + 1) (value * 256 + b)) (after_length string place (value * 256 + b)) }
{
    if have < 3 {
        gathered(Goal::String(string), place, have + 1, joined(value, b))
    } else {
        after_length(string, place, joined(value, b))
    }
}

// After a byte of a string.
fn string_after(string: StringField, state: Cursor, b: u8) -> Cursor
    requires { (state.place ≤ 22000000) × Fits (G.String string) state }
    ensures { result ≡ goal_after (G.String string) state b }
{
    if state.have < 4 {
        length_after(string, state.place, state.have, state.value, b)
    } else {
        inside_after(string, state, b)
    }
}

// After a byte.
pub(crate) fn step(state: Cursor, b: u8) -> Cursor
    requires { Sound state }
    ensures { result ≡ stepped_state state b }
{
    let goal = state.goal;
    match goal {
        Goal::Word(field) => word_after(field, state.place, state.have, state.value, b),
        Goal::String(string) => string_after(string, state, b),
        Goal::Skip(n, gap) => gap_after(n, gap, state.place, 1),
        Goal::Ended => state,
        Goal::Stopped(_) => state,
    }
}
