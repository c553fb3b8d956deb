// What a walk of the list does about the record that is next.
ghost use Rattle.std.specs.Prelude.{◌≡◌};
ghost use Rattle.want.specs.Steps.Places.{sought_of};
ghost use Rattle.want.specs.Steps.Turn.{turn_of};

use crate::block::listed;
use record::RecordFields;

// Where the blocks of the next record begin, and how many of them may be missing.
#[derive(Clone, Copy)]
pub struct Turn {
    pub first: usize,
    pub count: u32,
}

// How many of a record's blocks may be missing: none of those that the local table, which is number 0, lists itself.
fn sought(best: usize, f: RecordFields) -> u32
    ensures { result ≡ sought_of best f }
{
    if best == 0 {
        return 0;
    }
    listed(f)
}

// The turn of the next record, which is that of a table; none where no record is left.
pub(crate) fn turn_of(best: usize, fields: Option<RecordFields>) -> Option<Turn>
    ensures { result ≡ turn_of best fields }
{
    let f = fields?;
    Some(Turn {
        first: f.first,
        count: sought(best, f),
    })
}
