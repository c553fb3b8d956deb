// Tables: whether bytes are a good one, which of two records is the newer, and the calls that fill a lent buffer with a table.
ghost use Rattle.std.specs.Prelude.{◌≡◌};
ghost use Rattle.table.specs.Table.{is_good};
ghost use Rattle.merge.specs.Answer.{merge_outcome};
ghost use Rattle.accept.specs.Accepting.{accept_outcome};
ghost use Rattle.bep.specs.Filling.{Gives};
ghost use Rattle.bep.specs.Tables.{good_number, Compares};

// Whether bytes are a good table: 0, or 15.
#[unsafe(no_mangle)]
pub extern "C" fn bep_check_table(table: &[u8]) -> u32
    ensures { result ≡ good_number (is_good table.now) }
{
    bep::tables::bep_check_table(table)
}

// Compares the record at a place of one table with that at a place of another, by which is the newer: names do not count.
#[unsafe(no_mangle)]
pub extern "C" fn bep_compare(a: &[u8], i: usize, b: &[u8], j: usize, answer: &mut [u64; 1]) -> u32
    ensures { Compares a.now i b.now j result answer.new }
{
    bep::tables::bep_compare(a, i, b, j, answer)
}

// Merges two tables.
#[unsafe(no_mangle)]
pub extern "C" fn bep_merge(out: &mut [u8], a: &[u8], b: &[u8], answer: &mut [u64; 1]) -> u32
    ensures { Gives (merge_outcome a.now b.now) out.old result answer.new out.new }
{
    bep::tables::bep_merge(out, a, b, answer)
}

// The sender's new table, by an Index or an IndexUpdate.
#[unsafe(no_mangle)]
pub extern "C" fn bep_accept(
    out: &mut [u8],
    old: &[u8],
    message: &[u8],
    repository: &[u8],
    answer: &mut [u64; 1],
) -> u32
    ensures { Gives
        (accept_outcome old.now message.now repository.now)
        out.old result answer.new out.new }
{
    bep::tables::bep_accept(out, old, message, repository, answer)
}
