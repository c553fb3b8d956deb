// The highest record of a name over five tables.
ghost use Rattle.std.specs.Prelude.{List, map, ◌≡◌, ◌<◌, Some};
ghost use Rattle.record.specs.File.{File};
ghost use Rattle.table.specs.Table.{records};
ghost use Rattle.merge.specs.Merged.{merged_of};
ghost use Rattle.want.specs.Steps.Places.{table_at, Five};
ghost use Rattle.reason.specs.Steps.{lookup, higher_in, HeadAt, BestOf};

use crate::finding::find;
use record::RecordFields;

// A record: the table that has it, and its fields.
#[derive(Clone, Copy)]
pub struct Best {
    pub table: usize,
    pub fields: RecordFields,
}

// The higher of the record at a place of one more table and the best so far, as far as there are any.
pub(crate) fn better(tables: [&[u8]; 5], k: usize, at: usize, best: Option<Best>) -> Option<Best>
    requires small { k < 5 }
    requires best_small { (b : Best) → best ≡ Some b → b.table < 5 }
    ensures { (l m : List File) → HeadAt (table_at (map (λ x. x.now) tables.entry) k) at l → BestOf (map (λ x. x.now) tables.entry) best m
        → BestOf (map (λ x. x.now) tables.entry) result (higher_in l m) }
{
    let t = tables[k];
    let Some(fields) = record::outline_at(t, at) else {
        return best;
    };
    let here = Some(Best { table: k, fields });
    let Some(b) = best else {
        return here;
    };
    if table::compare_records(t, fields, tables[b.table], b.fields).is_lt() {
        return best;
    }
    here
}

// The highest record of a name, where a table has one.
pub(crate) fn highest(tables: [&[u8]; 5], name: &[u8]) -> Option<Best>
    requires { Five (map (λ x. x.now) tables) }
    ensures { BestOf (map (λ x. x.now) tables.entry) result (lookup name.now (merged_of (map records (map (λ x. x.now) tables.entry)))) }
{
    let mut best = None;
    for k in (0..5usize).rev() {
        best = better(tables, k, find(tables[k], name), best);
    }
    best
}
