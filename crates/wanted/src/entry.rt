// An entry of the list.
ghost use Rattle.std.specs.Prelude.{◌<◌, ◌≡◌};
ghost use Rattle.xdr.specs.Fields.{word, hyper};
ghost use Rattle.wanted.specs.Entry.{value_at, entry_from, entry_of};

// Bytes of an entry.
pub const BYTES: usize = 24;

// A block to ask for: its file's number and its own, its offset and Length, and the peer.
#[derive(Clone, Copy)]
pub struct Entry {
    pub file: u32,
    pub block: u32,
    pub offset: u64,
    pub size: u32,
    pub peer: u32,
}

// The number at a place, or 0 where there is none.
fn word_at(list: &[u8], at: usize) -> u32
    ensures { result ≡ value_at word list.now at }
{
    xdr::read_word(list, at).map_or(0, |(n, _)| n)
}

fn hyper_at(list: &[u8], at: usize) -> u64
    ensures { result ≡ value_at hyper list.now at }
{
    xdr::read_hyper(list, at).map_or(0, |(n, _)| n)
}

// The entry that begins at a place.
fn entry_from(list: &[u8], at: usize) -> Entry
    requires { at < 2400000 }
    ensures { result ≡ entry_from list.now at }
{
    Entry {
        file: word_at(list, at),
        block: word_at(list, at + 4),
        offset: hyper_at(list, at + 8),
        size: word_at(list, at + 16),
        peer: word_at(list, at + 20),
    }
}

// The entry of a number. A list has at most 2,730; numbers from 100,000 on give the first, so that no place overflows.
pub fn entry_of(list: &[u8], number: usize) -> Entry
    ensures { result ≡ entry_of list.now number }
{
    if number < 100000 {
        return entry_from(list, number * BYTES);
    }
    entry_from(list, 0)
}
