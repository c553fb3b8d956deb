// The records of an array that was read, one by one: by bounds checks alone. Where a record is not wholly there, the number is 1 and the
// answer the place of the field that isn't, and zeros. A step over a table checks the table whole.
ghost use Rattle.std.specs.Prelude.{◌≤◌, ◌≡◌};
ghost use Rattle.record.specs.Outline.{outline_of};
ghost use Rattle.record.specs.OptionOutline.{option_of};
ghost use Rattle.record.specs.Missing.{missing_of, missing_option};
ghost use Rattle.walker.specs.Walk.{step_at};
ghost use Rattle.bep.specs.Words.{field_words, file_words, file_number, key_words, option_words, option_number, step_number, step_words};

use record::{OptionFields, RecordFields};

// A record's fields as words; the name's length is its end less its start.
fn field_words(f: RecordFields) -> [u64; 8]
    requires { f.name ≤ f.stop }
    ensures { result ≡ field_words f }
{
    [
        f.past as u64,
        f.name as u64,
        (f.stop - f.name) as u64,
        f.flags as u64,
        f.modified,
        f.version as u64,
        f.blocks as u64,
        f.first as u64,
    ]
}

// An option's fields as words.
fn key_words(f: OptionFields) -> [u64; 5]
    ensures { result ≡ key_words f }
{
    [
        f.past as u64,
        f.key as u64,
        f.key_length as u64,
        f.value as u64,
        f.value_length as u64,
    ]
}

// The file at a place.
pub fn bep_file(files: &[u8], at: usize, answer: &mut [u64; 8]) -> u32
    ensures { (result ≡ file_number (outline_of files.now at))
        × (answer.new ≡ file_words (missing_of files.now at) (outline_of files.now at)) }
{
    let Some(f) = record::outline_at(files, at) else {
        *answer = [record::missing_at(files, at) as u64, 0, 0, 0, 0, 0, 0, 0];
        return 1;
    };
    *answer = field_words(f);
    0
}

// The option at a place.
pub fn bep_option(options: &[u8], at: usize, answer: &mut [u64; 5]) -> u32
    ensures { (result ≡ option_number (option_of options.now at))
        × (answer.new ≡ option_words (missing_option options.now at) (option_of options.now at)) }
{
    let Some(f) = record::option_at(options, at) else {
        *answer = [record::option_missing_at(options, at) as u64, 0, 0, 0, 0];
        return 1;
    };
    *answer = key_words(f);
    0
}

// A walk's step: the record at a place of a table, in the words of `bep_file`; or the end, with zeros.
pub fn bep_step(table: &[u8], at: usize, answer: &mut [u64; 8]) -> u32
    ensures { (result ≡ step_number (step_at table.now at)) × (answer.new ≡ step_words (step_at table.now at)) }
{
    match walker::step_at(table, at) {
        Ok(Some(f)) => {
            *answer = field_words(f);
            0
        }
        Ok(None) => {
            *answer = [0; 8];
            0
        }
        Err(r) => {
            *answer = [0; 8];
            r.number
        }
    }
}
