// The zero bytes after a string or an opaque, up to a multiple of four.
ghost use Rattle.std.specs.Prelude.{◌≡◌, ◌-◌};
ghost use Rattle.xdr.specs.Pad.{padded, zeros_up_to};

// How many bytes of pad follow len bytes.
pub fn pad_after(len: usize) -> usize
    ensures { result ≡ padded len - len }
{
    (4 - len % 4) % 4
}

// The position of the first byte that is not zero, or the number of bytes where all are.
pub fn zeros_up_to(s: &[u8]) -> usize
    ensures { result ≡ zeros_up_to s.now }
{
    s.iter().position(|b| *b != 0).unwrap_or(s.len())
}
