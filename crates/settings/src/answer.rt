// What settings are, and the bytes of numbers.
ghost use Rattle.std.specs.Prelude.{◌≡◌};
ghost use Rattle.settings.specs.Steps.{byte_of, word_of};

// Where the bytes of the Repository or the note begin among those that were read, and how many they are.
#[derive(Clone, Copy)]
pub struct Span {
    pub start: usize,
    pub length: usize,
}

// What was read, and where the carried fields begin: they go on to the end.
#[derive(Clone, Copy)]
pub struct Settings {
    pub window: Option<u32>,
    pub allowance: Option<u32>,
    pub repository: Option<Span>,
    pub note: Option<Span>,
    pub carried: usize,
}

// A number as one byte: 0, which is no window, where it isn't there or is more than a byte holds.
pub(crate) fn byte(n: Option<u32>) -> [u8; 1]
    ensures { result ≡ byte_of n }
{
    let Some(n) = n else {
        return [0];
    };
    if n <= 255 { [n as u8] } else { [0] }
}

// A number as four bytes, the highest first: zeros where it isn't there.
pub(crate) fn word(n: Option<u32>) -> [u8; 4]
    ensures { result ≡ word_of n }
{
    n.unwrap_or(0).to_be_bytes()
}
