// A walker over a table: it keeps the table and its place together, and yields one record after another. All branches are in functions on
// the table and the place; the walker is thin over them.
#![tactic(auto)]

ghost use Rattle.std.specs.Prelude.{◌≡◌};
ghost use Rattle.walker.specs.Walk.{step_at, next_place, given, stepped};

use record::RecordFields;
use xdr::Refusal;

// No good table, or a place that starts no record and isn't the end.
const BAD: Refusal = Refusal {
    number: 15,
    place: 0,
};

// What stands at a place of a table, a record by the places of its fields, or none at the end: the whole table is checked, and a record is
// there only where the walk from the first one comes by.
pub fn step_at(table: &[u8], at: usize) -> Result<Option<RecordFields>, Refusal>
    ensures { result ≡ step_at table.now at }
{
    if !table::is_good(table) {
        return Err(BAD);
    }
    let mut place = 4;
    // A `while`, since a step is as long as the record.
    while place < at {
        place = record::outline_at(table, place).ok_or(BAD)?.past;
    }
    if place != at {
        return Err(BAD);
    }
    Ok(record::outline_at(table, at))
}

// The place after a step: past the record, or the same.
pub fn next_place(step: Result<Option<RecordFields>, Refusal>, at: usize) -> usize
    ensures { result ≡ next_place step at }
{
    match step {
        Ok(Some(f)) => f.past,
        Ok(None) => at,
        Err(_) => at,
    }
}

// A table and a place in it.
#[derive(Clone, Copy)]
pub struct Walker<'a> {
    pub table: &'a [u8],
    pub at: usize,
}

impl<'a> Walker<'a> {
    // A walker opens on any bytes, at place 4.
    pub fn open(table: &'a [u8]) -> Walker<'a>
        ensures { (result.table ≡ table.entry) × (result.at ≡ 4) }
    {
        Walker { table, at: 4 }
    }

    // The record at the place, and the walker moves past it; or none at the end, or a refusal, and it stays.
    pub fn step(&mut self) -> Result<Option<RecordFields>, Refusal>
        ensures { (result ≡ given self.old) × (self.new ≡ stepped self.old) }
    {
        let found = step_at(self.table, self.at);
        self.at = next_place(found, self.at);
        found
    }
}
