// The records of an array that was read, one by one: by bounds checks alone. Where a record is not wholly there, the number is 1 and the
// answer the place of the field that isn't, and zeros. A step over a table checks the table whole.
ghost use Rattle.std.specs.Prelude.{◌≡◌};
ghost use Rattle.record.specs.Outline.{outline_of};
ghost use Rattle.record.specs.OptionOutline.{option_of};
ghost use Rattle.record.specs.Missing.{missing_of, missing_option};
ghost use Rattle.walker.specs.Walk.{step_at};
ghost use Rattle.bep.specs.Words.{file_words, file_number, option_words, option_number, step_number, step_words};

// The file at a place.
#[unsafe(no_mangle)]
pub extern "C" fn bep_file(files: &[u8], at: usize, answer: &mut [u64; 8]) -> u32
    ensures { (result ≡ file_number (outline_of files.now at))
        × (answer.new ≡ file_words (missing_of files.now at) (outline_of files.now at)) }
{
    bep::outline::bep_file(files, at, answer)
}

// The option at a place.
#[unsafe(no_mangle)]
pub extern "C" fn bep_option(options: &[u8], at: usize, answer: &mut [u64; 5]) -> u32
    ensures { (result ≡ option_number (option_of options.now at))
        × (answer.new ≡ option_words (missing_option options.now at) (option_of options.now at)) }
{
    bep::outline::bep_option(options, at, answer)
}

// A walk's step: the record at a place of a table, in the words of `bep_file`; or the end, with zeros.
#[unsafe(no_mangle)]
pub extern "C" fn bep_step(table: &[u8], at: usize, answer: &mut [u64; 8]) -> u32
    ensures { (result ≡ step_number (step_at table.now at)) × (answer.new ≡ step_words (step_at table.now at)) }
{
    bep::outline::bep_step(table, at, answer)
}
