// Arrays of files, and whether their names rise.
ghost use Rattle.std.specs.Prelude.{◌≡◌};
ghost use Rattle.xdr.specs.Format.{read_at};
ghost use Rattle.order.specs.Order.{is_less, compare_lists};
ghost use Rattle.record.specs.Answers.{array_answer};
ghost use Rattle.record.specs.File.{files};
ghost use Rattle.record.specs.Rising.{is_rising_array};
ghost use Rattle.record.specs.Steps.{RunRead};

use crate::array::read_count;
use crate::file::read_file;
use order::compare_bytes;
use xdr::Refusal;

// Whether a name is above the one before it.
fn rises(before: &[u8], name: &[u8]) -> bool
    ensures { result ≡ is_less (compare_lists before.now name.now) }
{
    compare_bytes(before, name).is_lt()
}

// The files at the front of a part, up to a limit. Where their names are to rise, one that isn't above the name before it ends the reading (15).
// Both kinds of reading are one loop, so that reading a file has one caller and stands in it.
fn read_run(s: &[u8], limit: u32, rising: bool) -> Result<(u32, usize), Refusal>
    ensures { RunRead limit rising s.now result }
{
    let answer = read_count(s, 0, limit);
    let Ok((count, first)) = answer else {
        return Err(xdr::refusal_of(answer));
    };
    let mut next = first;
    let mut from = first;
    let mut to = first;
    for i in 0..count {
        let read = read_file(&s[next..]);
        let Ok(span) = read else {
            let refusal = xdr::refusal_of(read);
            return Err(Refusal {
                number: refusal.number,
                place: next + refusal.place,
            });
        };
        let name = next + 4;
        let stop = name + span.name_length;
        if rising {
            if !rises(&s[from..to], &s[name..stop]) {
                return Err(Refusal {
                    number: 15,
                    place: next,
                });
            }
        }
        from = name;
        to = stop;
        next += span.next;
    }
    Ok((count, next))
}

// The files at the front of a part, up to a limit.
pub fn read_files(s: &[u8], limit: u32) -> Result<(u32, usize), Refusal>
    ensures { result ≡ array_answer (read_at (files limit) s.now 0) }
{
    read_run(s, limit, false)
}

// Whether bytes are files, up to a limit, and nothing else, and the names of the files rise.
pub fn is_rising_array(s: &[u8], limit: u32) -> bool
    ensures { result ≡ is_rising_array limit s.now }
{
    match read_run(s, limit, true) {
        Ok((_, next)) => next == s.len(),
        Err(_) => false,
    }
}
