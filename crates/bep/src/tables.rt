// Tables: whether bytes are a good one, which of two records is the newer, and the calls that fill a lent buffer with a table.
ghost use Rattle.std.specs.Prelude.{◌≡◌};
ghost use Rattle.table.specs.Table.{is_good};
ghost use Rattle.merge.specs.Answer.{merge_outcome};
ghost use Rattle.accept.specs.Accepting.{accept_outcome};
ghost use Rattle.bep.specs.Filling.{Gives};
ghost use Rattle.bep.specs.Tables.{good_number, order_word, Compares};

use crate::filling::give;
use std::cmp::Ordering;

// Whether bytes are a good table: 0, or 15.
pub fn bep_check_table(table: &[u8]) -> u32
    ensures { result ≡ good_number (is_good table.now) }
{
    if table::is_good(table) {
        return 0;
    }
    15
}

// The first record is lower (0), equal (1) or higher (2).
fn order_word(o: Ordering) -> u64
    ensures { result ≡ order_word o }
{
    match o {
        Ordering::Less => 0,
        Ordering::Equal => 1,
        Ordering::Greater => 2,
    }
}

// Compares the record at a place of one table with that at a place of another, by which is the newer: names do not count.
pub fn bep_compare(a: &[u8], i: usize, b: &[u8], j: usize, answer: &mut [u64; 1]) -> u32
    ensures { Compares a.now i b.now j result answer.new }
{
    let Some(f) = record::outline_at(a, i) else {
        *answer = [record::missing_at(a, i) as u64];
        return 1;
    };
    let Some(g) = record::outline_at(b, j) else {
        *answer = [record::missing_at(b, j) as u64];
        return 1;
    };
    *answer = [order_word(table::compare_records(a, f, b, g))];
    0
}

// Merges two tables.
pub fn bep_merge(out: &mut [u8], a: &[u8], b: &[u8], answer: &mut [u64; 1]) -> u32
    ensures { Gives (merge_outcome a.now b.now) out.old result answer.new out.new }
{
    let f = merge::merge(a, b, out);
    give(f, answer)
}

// The sender's new table, by an Index or an IndexUpdate.
pub fn bep_accept(
    out: &mut [u8],
    old: &[u8],
    message: &[u8],
    repository: &[u8],
    answer: &mut [u64; 1],
) -> u32
    ensures { Gives
        (accept_outcome old.now message.now repository.now)
        out.old result answer.new out.new }
{
    let f = accept::accept(old, message, repository, out);
    give(f, answer)
}
