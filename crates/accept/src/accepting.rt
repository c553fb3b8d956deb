// Accepting an Index or an IndexUpdate.
ghost use Rattle.std.specs.Prelude.{◌≡◌, true, cond, ◌+◌, ◌<◌, length};
ghost use Rattle.xdr.specs.Filling.{Fills};
ghost use Rattle.message.specs.Answers.{message_in};
ghost use Rattle.message.specs.Kinds.{index_in};
ghost use Rattle.table.specs.Table.{is_good, resulting_table};
ghost use Rattle.merge.specs.Steps.Notes.{Noted};
ghost use Rattle.accept.specs.Accepting.{accept_outcome};
ghost use Rattle.accept.specs.Steps.Sorted.{IsArray, result_of, of_array, inserted_at, SortedPlaces, SortedTo};

use crate::next::{next_at, place_of, taken_by};
use crate::slot::slot_of;
use merge::notes::{Size, note, put_table};
use message::{Edition, IndexIn};
use xdr::Refusal;

// A place among places: those behind it move up, and the last is lost.
fn insert_at(places: &mut [usize], j: usize, at: usize)
    requires { j < length places.old }
    ensures { places.new ≡ inserted_at places.old j at }
{
    for k in (j..places.len() - 1).rev() {
        places[k + 1] = places[k];
    }
    places[j] = at;
}

// Puts the places of an array's records in the order of their names, and answers how many there are, or else where a name first repeats.
fn sort(s: &[u8], places: &mut [usize]) -> Result<usize, usize>
    requires { IsArray s.now × (length places.old ≡ 512) }
    ensures { SortedTo s.now places.new result }
{
    let mut at = 4;
    let mut n = 0;
    while let Some(f) = record::outline_at(s, at) {
        let j = slot_of(s, &places[..n], at).ok_or(at)?;
        insert_at(&mut places[..n + 1], j, at);
        at = f.past;
        n += 1;
    }
    Ok(n)
}

// Where the old records that may be kept begin: at 4 for an IndexUpdate, at the end for an Index, which keeps none.
fn start_of(old: &[u8], update: bool) -> usize
    ensures { result ≡ cond update 4 (length old.now) }
{
    if update { 4 } else { old.len() }
}

// Notes the resulting records, as far as there is room, and measures the resulting table.
fn note_records(s: &[u8], places: &[usize], old: &[u8], update: bool, notes: &mut [usize]) -> Size
    requires { SortedPlaces s.now places.now × (is_good old.now ≡ true) × (length notes.old ≡ 1024) }
    ensures { Noted s.now old.now notes.new (result_of update s.now old.now) result }
{
    let mut i = 0;
    let mut j = start_of(old, update);
    let mut size = Size {
        count: 0,
        bytes: 4,
        noted: 0,
    };
    while let Some(step) = next_at(s, place_of(s, places, i), old, j) {
        size.bytes += step.end - step.start;
        size.count += 1;
        size.noted += note(notes, size.noted, step);
        i += taken_by(step);
        j = step.j;
    }
    size
}

// The resulting table of records in order, in the first bytes of the buffer.
fn fill(
    s: &[u8],
    places: &[usize],
    old: &[u8],
    update: bool,
    out: &mut [u8],
) -> Result<usize, Refusal>
    requires { SortedPlaces s.now places.now × (is_good old.now ≡ true) }
    ensures { Fills (resulting_table (result_of update s.now old.now)) out.old result out.new }
{
    let mut notes = [0usize; 1024];
    let size = note_records(s, places, old, update, &mut notes);
    let end = size.noted;
    put_table(s, old, &notes[..end], size, out)
}

// The records of a message's array, which begins at a place of the message.
fn accept_list(
    s: &[u8],
    start: usize,
    old: &[u8],
    update: bool,
    out: &mut [u8],
) -> Result<usize, Refusal>
    requires { IsArray s.now × (is_good old.now ≡ true) × (start + length s.now < 18446744073709551616) }
    ensures { Fills (of_array update start s.now old.now) out.old result out.new }
{
    let mut places = [0usize; 512];
    match sort(s, &mut places) {
        Ok(n) => fill(s, &places[..n], old, update, out),
        Err(at) => Err(Refusal {
            number: 13,
            place: start + at,
        }),
    }
}

// The Index or IndexUpdate at the front of some bytes.
fn read_index(s: &[u8]) -> Result<IndexIn, Refusal>
    ensures { result ≡ index_in (message_in Edition.New s.now) }
{
    message::index_in(message::read(Edition::New, s))
}

// The sender's new table: of the records of an Index, or of an IndexUpdate and the old records that it doesn't mention, in the first bytes of
// the buffer.
pub fn accept(
    old: &[u8],
    message: &[u8],
    repository: &[u8],
    out: &mut [u8],
) -> Result<usize, Refusal>
    ensures { Fills (accept_outcome old.now message.now repository.now)
        out.old result out.new }
{
    if !table::is_good(old) {
        return xdr::refused(15);
    }
    let found = read_index(message)?;
    let x = found.index;
    let stop = x.repository.start + x.repository.length;
    if !order::same_bytes(order::part(message, x.repository.start, stop), repository) {
        return xdr::refused(21);
    }
    let start = x.files.start;
    accept_list(
        order::part(message, start, x.end),
        start,
        old,
        found.update,
        out,
    )
}
