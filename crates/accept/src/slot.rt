// Where a record goes among records that are in order.
ghost use Rattle.std.specs.Prelude.{◌≡◌, length};
ghost use Rattle.accept.specs.Steps.Slots.{name_of, slot_of};

use std::cmp::Ordering;

// The name of the record at a place.
pub fn name_at(s: &[u8], at: usize) -> &[u8]
    ensures { result.now ≡ name_of s.now at }
{
    let len = s.len();
    let Ok((n, name)) = xdr::read_word(s, at) else {
        return &s[len..len];
    };
    order::part(s, name, name + (n as usize))
}

// Behind how many of the records at some places the record at a place goes, or nowhere, since one of them has its name: from the back, so that
// one comparison is enough for a record that is last.
pub fn slot_of(s: &[u8], places: &[usize], at: usize) -> Option<usize>
    ensures { result ≡ slot_of s.now places.now (length places.now) (name_of s.now at) }
{
    let name = name_at(s, at);
    for j in (0..places.len()).rev() {
        match order::compare_bytes(name_at(s, places[j]), name) {
            Ordering::Less => return Some(j + 1),
            Ordering::Equal => return None,
            Ordering::Greater => {}
        }
    }
    Some(0)
}
