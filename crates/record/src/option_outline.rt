// The fields of an option at a place, by bounds checks alone: for options that were read before.
ghost use Rattle.std.specs.Prelude.{◌≡◌};
ghost use Rattle.record.specs.OptionOutline.{option_of};

use crate::string_outline::string_at;

// The fields of an option, by their places in the whole: where its Key and its Value start, how many bytes each has, and the place past
// the option.
#[derive(Clone, Copy)]
pub struct OptionFields {
    pub key: usize,
    pub key_length: usize,
    pub value: usize,
    pub value_length: usize,
    pub past: usize,
}

// The option at a place, where it ends within the bytes.
pub fn option_at(s: &[u8], at: usize) -> Option<OptionFields>
    ensures { result ≡ option_of s.now at }
{
    let key = string_at(s, at)?;
    let value = string_at(s, key.past)?;
    Some(OptionFields {
        key: at + 4,
        key_length: key.length,
        value: key.past + 4,
        value_length: value.length,
        past: value.past,
    })
}
