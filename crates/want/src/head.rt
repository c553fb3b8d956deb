// The next name over five tables: which of them has its highest record, and where each goes on after it.
ghost use Rattle.std.specs.Prelude.{map, ◌≡◌, true, ◌≤◌, length};
ghost use Rattle.record.specs.Outline.{outline_of};
ghost use Rattle.std.specs.declared.cmp.Ordering.TheVariants.{Equal};
ghost use Rattle.order.specs.Order.{part};
ghost use Rattle.table.specs.Newest.{compare_at};
ghost use Rattle.want.specs.Steps.Head.{fields_at, Stands, Stood, Kept, AlikeFields, rank_in, rank_by, rank_of, past_of, AllStand, Headed};

use crate::fields::{fields_at, name_at, record_at};
use record::RecordFields;
use std::cmp::Ordering;

// Where the record that is next so far stands to another: before it by name, or there is no other; of the same name, and not lower; of the same name, and the other is
// the higher; after it.
#[derive(Clone, Copy)]
pub enum Rank {
    Before,
    Same,
    Newer,
    After,
}

// The table with the next record, the record's fields, and where each table goes on after its name.
#[derive(Clone, Copy)]
pub struct Head {
    pub best: usize,
    pub fields: Option<RecordFields>,
    pub past: [usize; 5],
}

// The bytes from one place to another.
fn between(s: &[u8], from: usize, to: usize) -> &[u8]
    requires { (from ≤ to) × (to ≤ length s.now) }
    ensures { result.now ≡ part s.now from to }
{
    &s[from..to]
}

// Whether two records have the same numbers.
fn is_alike(f: RecordFields, g: RecordFields) -> bool
    ensures { result ≡ true → AlikeFields f g }
{
    f.modified == g.modified && f.version == g.version && f.blocks == g.blocks && f.flags == g.flags
}

// Whether two records are the same, byte for byte from Flags on: no only means that it is not known.
fn is_same(a: &[u8], f: RecordFields, b: &[u8], g: RecordFields) -> bool
    requires stood { Stood a.now f }
    requires stood_2 { Stood b.now g }
    ensures { result ≡ true → compare_at a.now f b.now g ≡ Equal }
{
    if !is_alike(f, g) {
        return false;
    }
    if f.blocks == 0 {
        return true;
    }
    order::compare_long(between(a, f.first, f.past), between(b, g.first, g.past)).is_eq()
}

// Two records of one name, each in its own bytes.
fn by_records(a: &[u8], f: RecordFields, b: &[u8], g: RecordFields) -> Rank
    requires stood { Stood a.now f }
    requires stood_2 { Stood b.now g }
    ensures { result ≡ rank_in Equal (compare_at a.now f b.now g) }
{
    if is_same(a, f, b, g) {
        return Rank::Same;
    }
    match table::compare_records(a, f, b, g) {
        Ordering::Less => Rank::Newer,
        Ordering::Equal | Ordering::Greater => Rank::Same,
    }
}

// A record, and the one at a place of other bytes.
fn ranked(a: &[u8], f: RecordFields, b: &[u8], at: usize) -> Rank
    requires stood { Stood a.now f }
    requires stood_2 { Stood b.now (fields_at b.now at) }
    ensures { result ≡ rank_by a.now f b.now (fields_at b.now at) }
{
    match order::compare_names(between(a, f.name, f.stop), name_at(b, at)) {
        Ordering::Less => Rank::Before,
        Ordering::Greater => Rank::After,
        Ordering::Equal => by_records(a, f, b, fields_at(b, at)),
    }
}

// The same where one of them may be none.
fn standing(a: &[u8], f: Option<RecordFields>, b: &[u8], at: usize) -> Rank
    requires kept { Kept a.now f }
    requires stands { Stands b.now at }
    ensures { result ≡ rank_of a.now f b.now (outline_of b.now at) }
{
    if b.len() <= at {
        return Rank::Before;
    }
    let Some(x) = f else {
        return Rank::After;
    };
    ranked(a, x, b, at)
}

// Where a table goes on after its record, or where it is.
pub(crate) fn past_of(f: Option<RecordFields>, at: usize) -> usize
    ensures { result ≡ past_of f at }
{
    match f {
        Some(x) => x.past,
        None => at,
    }
}

// The next name, from a place in each table.
pub(crate) fn next_head(tables: [&[u8]; 5], places: [usize; 5]) -> Head
    requires { AllStand (map (λ x. x.now) tables) places }
    ensures { Headed (map (λ x. x.now) tables.entry) places 5 result.best result.fields result.past }
{
    let mut best = 0;
    let mut fields = record_at(tables[0], places[0]);
    let mut past = places;
    past[0] = past_of(fields, places[0]);
    for k in 1..5 {
        let t = tables[k];
        let at = places[k];
        match standing(tables[best], fields, t, at) {
            Rank::Before => {}
            Rank::Same => {
                past[k] = past_of(record_at(t, at), at);
            }
            Rank::Newer => {
                best = k;
                fields = record_at(t, at);
                past[k] = past_of(fields, at);
            }
            Rank::After => {
                best = k;
                fields = record_at(t, at);
                past = places;
                past[k] = past_of(fields, at);
            }
        }
    }
    Head { best, fields, past }
}
