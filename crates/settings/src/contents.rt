// The contents that each tag may have.
ghost use Rattle.std.specs.Prelude.{◌≡◌, cond, length, Some, None};
ghost use Rattle.xdr.specs.Number.{big_endian};
ghost use Rattle.xdr.specs.Text.{is_within};
ghost use Rattle.settings.specs.Field.{is_window, is_allowance, is_repository, is_note, wrong as wrong_in};
ghost use Rattle.settings.specs.Steps.{unless_0};

// The tags of the settings: those above the note's are carried.
pub(crate) const WINDOW: u8 = 1;

pub(crate) const ALLOWANCE: u8 = 2;

pub(crate) const REPOSITORY: u8 = 3;

pub(crate) const NOTE: u8 = 128;

// The greatest window, and the limits of the byte allowance.
const WINDOW_MOST: u32 = 16;

const ALLOWANCE_LEAST: u32 = 131072;

const ALLOWANCE_MOST: u32 = 524288;

// The longest Repository and the longest note.
const REPOSITORY_LONGEST: usize = 64;

const NOTE_LONGEST: usize = 255;

// The number that the first byte is, or 0.
pub(crate) fn byte_in(contents: &[u8]) -> u32
    ensures { result ≡ big_endian 1 contents.now }
{
    if contents.len() == 0 {
        return 0;
    }
    contents[0] as u32
}

// The number that four bytes are.
pub(crate) fn word_in(contents: &[u8]) -> u32
    ensures { length contents.now ≡ 4 → result ≡ big_endian 4 contents.now }
{
    match xdr::read_word(contents, 0) {
        Ok((n, _)) => n,
        Err(_) => 0,
    }
}

// Whether a number is from the least to the greatest.
fn within(least: u32, greatest: u32, n: u32) -> bool
    ensures { result ≡ is_within least greatest n }
{
    if n < least {
        return false;
    }
    n <= greatest
}

fn is_window(contents: &[u8]) -> bool
    ensures { result ≡ is_window contents.now }
{
    if contents.len() != 1 {
        return false;
    }
    within(1, WINDOW_MOST, byte_in(contents))
}

fn is_allowance(contents: &[u8]) -> bool
    ensures { result ≡ is_allowance contents.now }
{
    if contents.len() != 4 {
        return false;
    }
    within(ALLOWANCE_LEAST, ALLOWANCE_MOST, word_in(contents))
}

fn is_repository(contents: &[u8]) -> bool
    ensures { result ≡ is_repository contents.now }
{
    if REPOSITORY_LONGEST < contents.len() {
        return false;
    }
    xdr::sound_up_to(contents) == contents.len()
}

fn is_note(contents: &[u8]) -> bool
    ensures { result ≡ is_note contents.now }
{
    contents.len() <= NOTE_LONGEST
}

// 26 where contents aren't as they should be.
fn unless(good: bool) -> Option<u32>
    ensures { result ≡ cond good None (Some 26) }
{
    if good { None } else { Some(26) }
}

// What is wrong with a field's contents (26) or its tag (25), which may be any byte.
pub(crate) fn wrong(tag: u8, contents: &[u8]) -> Option<u32>
    ensures { result ≡ unless_0 (wrong_in tag contents.now) }
{
    if tag == WINDOW {
        return unless(is_window(contents));
    }
    if tag == ALLOWANCE {
        return unless(is_allowance(contents));
    }
    if tag == REPOSITORY {
        return unless(is_repository(contents));
    }
    if tag < NOTE {
        return Some(25);
    }
    if tag == NOTE {
        return unless(is_note(contents));
    }
    None
}
