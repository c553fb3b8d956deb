// Saving settings into a lent buffer: all is checked as reading it would, and then stored.
ghost use Rattle.std.specs.Prelude.{◌≡◌, ◌++◌, ◌+◌, ◌≤◌, length};
ghost use Rattle.std.specs.Option.{option_copied};
ghost use Rattle.xdr.specs.Buffer.{filled, put};
ghost use Rattle.xdr.specs.Filling.{Fills};
ghost use Rattle.settings.specs.Reading.{read_from, reading};
ghost use Rattle.settings.specs.Saving.{setting_bytes, fields_of, read_back, saving_bytes, saving};
ghost use Rattle.settings.specs.Steps.{given, end_answer, setting_end, StorableGiven};
ghost use Rattle.settings.specs.declared.answer.Settings.{Settings};

use crate::answer::{byte, word};
use crate::contents::{ALLOWANCE, NOTE, REPOSITORY, WINDOW, wrong};
use crate::reading::read_from;
use xdr::Refusal;

// The least tag that is carried.
const CARRIED: usize = 129;

// The contents of the four settings, each there or not.
#[derive(Clone, Copy)]
struct Given<'a> {
    window: Option<&'a [u8]>,
    allowance: Option<&'a [u8]>,
    repository: Option<&'a [u8]>,
    note: Option<&'a [u8]>,
}

// Where a setting ends that begins at a place, or what reading would say of it there.
fn setting_end(at: usize, tag: u8, contents: Option<&[u8]>) -> Result<usize, Refusal>
    requires { (at ≤ 1000) × (tag ≤ 128) }
    ensures { result ≡ setting_end at tag (option_copied contents.entry) }
{
    let Some(contents) = contents else {
        return Ok(at);
    };
    if let Some(number) = wrong(tag, contents) {
        return Err(Refusal { number, place: at });
    }
    Ok(at + 3 + contents.len())
}

// Where the settings end, or what reading would say of them.
fn settings_end(own: Given) -> Result<usize, Refusal>
    ensures { result ≡ end_answer (reading (fields_of (given own.entry))) }
{
    let second = setting_end(0, WINDOW, own.window)?;
    let third = setting_end(second, ALLOWANCE, own.allowance)?;
    let fourth = setting_end(third, REPOSITORY, own.repository)?;
    setting_end(fourth, NOTE, own.note)
}

// Where carried fields end that begin at a place, or what reading would say of them there.
fn carried_end(carried: &[u8], at: usize) -> Result<usize, Refusal>
    requires { at ≤ 2000 }
    ensures { (so : Settings) → result ≡ end_answer (read_from carried.now 0 129 at so) }
{
    match read_from(carried, CARRIED) {
        Ok(_) => Ok(at + carried.len()),
        Err(r) => Err(Refusal {
            number: r.number,
            place: at + r.place,
        }),
    }
}

// Where all ends that is saved, or what reading would say of it.
fn saved_end(own: Given, carried: &[u8]) -> Result<usize, Refusal>
    ensures { result ≡ end_answer (read_back (fields_of (given own.entry)) carried.now) }
{
    let end = settings_end(own)?;
    carried_end(carried, end)
}

// A setting at a place, where there is room for it: how many bytes it took.
fn store_setting(out: &mut [u8], at: usize, tag: u8, contents: Option<&[u8]>) -> usize
    requires { (at + length (setting_bytes tag (option_copied contents)) ≤ length out.old) × (length (setting_bytes tag (option_copied contents)) ≤ 258) }
    ensures { (result ≡ length (setting_bytes tag (option_copied contents.entry))) × (out.new ≡ put out.old at (setting_bytes tag (option_copied contents.entry))) }
{
    let Some(contents) = contents else {
        return 0;
    };
    let n = contents.len();
    let head = [tag, (n / 256) as u8, (n % 256) as u8];
    xdr::put_raw(out, at, &head);
    xdr::put_raw(out, at + 3, contents);
    3 + n
}

// All that is saved, at the front of a buffer that has room for it.
fn store(out: &mut [u8], own: Given, carried: &[u8])
    requires { StorableGiven own (length carried.now) (length out.old) }
    ensures { out.new ≡ filled out.old (fields_of (given own.entry) ++ carried.now) }
{
    let second = store_setting(out, 0, WINDOW, own.window);
    let third = second + store_setting(out, second, ALLOWANCE, own.allowance);
    let fourth = third + store_setting(out, third, REPOSITORY, own.repository);
    let end = fourth + store_setting(out, fourth, NOTE, own.note);
    xdr::put_raw(out, end, carried);
}

// Settings, with the numbers as bytes, and carried fields: they are checked, and stored if there is room.
fn save_bytes(own: Given, carried: &[u8], out: &mut [u8]) -> Result<usize, Refusal>
    ensures { Fills (saving_bytes (fields_of (given own.entry)) carried.now) out.old result out.new }
{
    let size = saved_end(own, carried)?;
    if out.len() < size {
        return xdr::refused(14);
    }
    store(out, own, carried);
    Ok(size)
}

// Settings, each there or not, and carried fields as they were read: those that are there, and then the carried ones.
pub fn save(
    window: Option<u32>,
    allowance: Option<u32>,
    repository: Option<&[u8]>,
    note: Option<&[u8]>,
    carried: &[u8],
    out: &mut [u8],
) -> Result<usize, Refusal>
    ensures { Fills (saving window allowance (option_copied repository.entry) (option_copied note.entry) carried.now) out.old result out.new }
{
    let w = byte(window);
    let a = word(allowance);
    let own = Given {
        window: window.and(Some(&w[..])),
        allowance: allowance.and(Some(&a[..])),
        repository,
        note,
    };
    save_bytes(own, carried, out)
}
