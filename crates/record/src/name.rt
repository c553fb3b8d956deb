// A Name as the way down to a file from a folder.
ghost use Rattle.std.specs.Prelude.{◌≡◌, ◌-◌, ◌≤◌, true, length};
ghost use Rattle.record.specs.Name.{is_part, is_path};
ghost use Rattle.record.specs.Steps.{name_fault, Smooth};

// Whether a part leads down: it isn't empty, and isn't exactly one dot or two.
fn is_part(p: &[u8]) -> bool
    ensures { result ≡ is_part p.now }
{
    match p.len() {
        0 => false,
        1 => p[0] != 46,
        2 => p[0] != 46 || p[1] != 46,
        _ => true,
    }
}

// Whether each part of a name leads down, and none of its bytes is zero. Slash and zero are both looked for by one comparison a byte.
fn by_parts(s: &[u8]) -> bool
    ensures { result ≡ is_path s.now }
{
    let mut start = 0;
    for (i, &b) in s.iter().enumerate() {
        if b <= 47 {
            if b == 0 {
                return false;
            }
            if b == 47 {
                if !is_part(&s[start..i]) {
                    return false;
                }
                start = i + 1;
            }
        }
    }
    is_part(&s[start..])
}

// Whether each byte but the last may stand before the next: it isn't zero, and no slash before a dot or a slash. With no early exit it
// compiles to comparisons of eight bytes at once, where the length is known.
fn is_smooth(s: &[u8]) -> bool
    ensures { result ≡ true → Smooth s.now (length s.now - 1) }
{
    let mut smooth = true;
    for i in 1..s.len() {
        let b = s[i - 1];
        let c = s[i];
        if b == 0 {
            smooth = false;
        }
        if b == 47 {
            if c == 46 {
                smooth = false;
            }
            if c == 47 {
                smooth = false;
            }
        }
    }
    smooth
}

// A place before which each byte may stand before the next, in steps of eight.
fn past_eights(s: &[u8]) -> usize
    requires { 1 ≤ length s.now }
    ensures { (result ≤ length s.now) × Smooth s.now result }
{
    let whole = (s.len() - 1) / 8 * 8;
    for i in (0..whole).step_by(8) {
        if !is_smooth(&s[i..i + 9]) {
            return i;
        }
    }
    whole
}

// Whether a name leads down as most names do: no part begins with a dot.
fn leads_down(s: &[u8]) -> bool
    ensures { result ≡ true → is_path s.now ≡ true }
{
    if s.len() < 9 {
        return false;
    }
    if s[0] == 46 || s[0] == 47 {
        return false;
    }
    let last = s[s.len() - 1];
    if last == 0 || last == 47 {
        return false;
    }
    if 9 <= s.len() - past_eights(s) {
        return false;
    }
    is_smooth(&s[s.len() - 9..])
}

// Whether a name leads down from a folder: each of its parts does, and none of its bytes is zero.
pub fn is_path(s: &[u8]) -> bool
    ensures { result ≡ is_path s.now }
{
    if leads_down(s) {
        return true;
    }
    by_parts(s)
}

// The number that text is refused with as a Name, none where it is one.
pub fn name_fault(l: &[u8]) -> Option<u32>
    ensures { result ≡ name_fault l.now }
{
    if l.len() == 0 {
        return Some(8);
    }
    if !is_path(l) {
        return Some(24);
    }
    None
}
