// Which of two records of one name is the newer.
ghost use Rattle.std.specs.Prelude.{◌≡◌, not};
ghost use Rattle.record.specs.File.{is_deleted, is_invalid};
ghost use Rattle.record.specs.Modified.{raised as raised_of};
ghost use Rattle.table.specs.Newest.{compare_at};

use order::{compare_long, part};
use record::RecordFields;
use std::cmp::Ordering;

// Modified as a number from 0, in the order of the signed numbers.
fn raised(modified: u64) -> u64
    ensures { result ≡ raised_of modified }
{
    if modified < 9223372036854775808 {
        return modified + 9223372036854775808;
    }
    modified - 9223372036854775808
}

// What decides before the bytes do, in turn: Modified as a signed number, Version, valid over invalid, deleted over undeleted.
fn key(f: RecordFields) -> (u64, u32, bool, bool)
    ensures { result ≡ (raised_of f.modified, f.version, not (is_invalid f.flags), is_deleted f.flags) }
{
    (
        raised(f.modified),
        f.version,
        !record::is_invalid(f.flags),
        record::is_deleted(f.flags),
    )
}

// Two records by their fields, each in its own bytes: Greater where the first is the newer.
pub fn compare_records(s: &[u8], f: RecordFields, t: &[u8], g: RecordFields) -> Ordering
    ensures { result ≡ compare_at s.now f t.now g }
{
    key(f).cmp(&key(g)).then_with(|| compare_long(part(s, f.rest, f.past), part(t, g.rest, g.past)))
}
