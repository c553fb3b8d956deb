// Notes of the records that a table takes: two numbers each, so that a pass that writes them compares nothing.
ghost use Rattle.std.specs.Prelude.{◌≡◌, [], ◌∷◌};
ghost use Rattle.xdr.specs.Buffer.{Puts};
ghost use Rattle.merge.specs.Steps.Notes.{note_of, noted, joined_of, PutsNotes, PutsTable};

use crate::next::Pick;
use xdr::Refusal;

// How many records a table has and how many bytes, and how many numbers are noted of it.
#[derive(Clone, Copy)]
pub struct Size {
    pub count: u32,
    pub bytes: usize,
    pub noted: usize,
}

// Two numbers at a place of the notes, and how many were put: none where there is no room: a count, as `Puts` has it.
fn put_pair(notes: &mut [usize], at: usize, x: usize, y: usize) -> usize
    ensures { Puts (x ∷ y ∷ []) notes.old at result notes.new }
{
    if notes.len() < 2 {
        return 0;
    }
    if notes.len() - 2 < at {
        return 0;
    }
    notes[at] = x;
    notes[at + 1] = y;
    2
}

// Notes a record that is taken: where it starts and where it ends, or for the second table where it ends and where it starts.
pub fn note(notes: &mut [usize], at: usize, step: Pick) -> usize
    ensures { Puts (note_of step) notes.old at result notes.new }
{
    if step.left {
        return put_pair(notes, at, step.start, step.end);
    }
    put_pair(notes, at, step.end, step.start)
}

// Puts the bytes of a record that is noted at a place of the buffer.
fn put_note(a: &[u8], b: &[u8], x: usize, y: usize, out: &mut [u8], at: usize) -> usize
    ensures { Puts (noted a.now b.now x y) out.old at result out.new }
{
    if x <= y {
        return xdr::put_raw(out, at, order::part(a, x, y));
    }
    xdr::put_raw(out, at, order::part(b, y, x))
}

// Two notes as one, where the second goes on in the same table at the place where the first ends.
fn join(x: usize, y: usize, u: usize, v: usize) -> Option<(usize, usize)>
    ensures { result ≡ joined_of x y u v }
{
    if x <= y {
        return (u == y && u <= v).then_some((x, v));
    }
    (v == x && v < u).then_some((u, y))
}

// Puts the bytes of all records that are noted, one after another, from a place of the buffer on: a stretch of records that stand together is
// put at once.
fn put_notes(a: &[u8], b: &[u8], notes: &[usize], out: &mut [u8], at: usize)
    ensures { PutsNotes a.now b.now notes.now out.old at out.new }
{
    let mut x = 0;
    let mut y = 0;
    let mut to = at;
    let mut left = notes;
    while let [u, v, rest @ ..] = left {
        match join(x, y, *u, *v) {
            Some((p, q)) => {
                x = p;
                y = q;
            }
            None => {
                to += put_note(a, b, x, y, out, to);
                x = *u;
                y = *v;
            }
        }
        left = rest;
    }
    put_note(a, b, x, y, out, to);
}

// Puts a table into the first bytes of the buffer, by its size and the notes of its records.
pub fn put_table(
    a: &[u8],
    b: &[u8],
    notes: &[usize],
    size: Size,
    out: &mut [u8],
) -> Result<usize, Refusal>
    ensures { PutsTable a.now b.now notes.now size out.old result out.new }
{
    if !table::within_limits(size.count, size.bytes) {
        return xdr::refused(19);
    }
    if out.len() < size.bytes {
        return xdr::refused(14);
    }
    xdr::put_word(out, 0, size.count);
    put_notes(a, b, notes, out, 4);
    Ok(size.bytes)
}
