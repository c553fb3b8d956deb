// The merged table of two.
ghost use Rattle.std.specs.Prelude.{◌≡◌, true, length};
ghost use Rattle.xdr.specs.Filling.{Fills};
ghost use Rattle.table.specs.Table.{is_good};
ghost use Rattle.merge.specs.Steps.Notes.{Noted};
ghost use Rattle.merge.specs.Answer.{merged_records, merge_outcome};

use crate::next::next_at;
use crate::notes::{Size, note, put_table};
use xdr::Refusal;

// Notes the merged records, as far as there is room, and measures the merged table.
fn note_records(a: &[u8], b: &[u8], notes: &mut [usize]) -> Size
    requires { (is_good a.now ≡ true) × (is_good b.now ≡ true) × (length notes.old ≡ 1024) }
    ensures { Noted a.now b.now notes.new (merged_records a.now b.now) result }
{
    let mut i = 4;
    let mut j = 4;
    let mut size = Size {
        count: 0,
        bytes: 4,
        noted: 0,
    };
    while let Some(step) = next_at(a, i, b, j) {
        size.bytes += step.end - step.start;
        size.count += 1;
        size.noted += note(notes, size.noted, step);
        i = step.i;
        j = step.j;
    }
    size
}

// The merged table of two good ones, in the first bytes of the buffer.
pub fn merge(a: &[u8], b: &[u8], out: &mut [u8]) -> Result<usize, Refusal>
    ensures { Fills (merge_outcome a.now b.now) out.old result out.new }
{
    if !table::is_good(a) {
        return xdr::refused(15);
    }
    if !table::is_good(b) {
        return xdr::refused(15);
    }
    let mut notes = [0usize; 1024];
    let size = note_records(a, b, &mut notes);
    let end = size.noted;
    put_table(a, b, &notes[..end], size, out)
}
