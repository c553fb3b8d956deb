// Putting bytes at a place of a lent buffer. Each function answers how many bytes it put: 0, and the buffer as it was, where there is no room.
// A count and no `Option`: the contracts say by `Puts` how many bytes were put, and of none that is 0.
ghost use Rattle.std.specs.Prelude.{◌≡◌, ◌+◌, ◌≤◌, ◌<◌, length, replicate};
ghost use Rattle.xdr.specs.Buffer.{filled, Puts, opaque_bytes};
ghost use Rattle.xdr.specs.Fields.{word, hyper};
ghost use Rattle.xdr.specs.Format.{bytes, encode};
ghost use Rattle.xdr.specs.Pad.{padded};

use crate::pad::pad_after;

// A word at the front, where there is room for it.
fn store_word(out: &mut [u8], w: u32)
    requires { 4 ≤ length out.old }
    ensures { out.new ≡ filled out.old (encode word w) }
{
    out[..4].copy_from_slice(&w.to_be_bytes());
}

// A word, its highest byte first.
pub fn put_word(out: &mut [u8], at: usize, w: u32) -> usize
    ensures { Puts (encode word w) out.old at result out.new }
{
    if out.len() < 4 || out.len() - 4 < at {
        return 0;
    }
    store_word(&mut out[at..], w);
    4
}

// A number of 64 bits at the front, where there is room for it.
fn store_hyper(out: &mut [u8], n: u64)
    requires { 8 ≤ length out.old }
    ensures { out.new ≡ filled out.old (encode hyper n) }
{
    out[..8].copy_from_slice(&n.to_be_bytes());
}

// A number of 64 bits, its highest byte first.
pub fn put_hyper(out: &mut [u8], at: usize, n: u64) -> usize
    ensures { Puts (encode hyper n) out.old at result out.new }
{
    if out.len() < 8 || out.len() - 8 < at {
        return 0;
    }
    store_hyper(&mut out[at..], n);
    8
}

// All bytes become those of src, by way of an array: two slices might overlap for all that the compiler knows, and an array overlaps neither,
// so that each copy is one move of memory, and the two of them become one.
fn copy_chunk(out: &mut [u8], src: &[u8])
    requires { (length out.old ≡ length src.now) × (length src.now ≤ 1536) }
    ensures { out.new ≡ src.now }
{
    let n = src.len();
    let mut held = [0; 1536];
    held[..n].copy_from_slice(src);
    out.copy_from_slice(&held[..n]);
}

// The first bytes of out become those of src, a chunk at a time: moves of 2,048 bytes and more are left to one instruction (`rep movsb`),
// which some processors take sixteen times as long for where the two places lie a few bytes apart modulo 4,096.
fn copy(out: &mut [u8], src: &[u8])
    requires { length src.now ≤ length out.old }
    ensures { out.new ≡ filled out.old src.now }
{
    let mut at = 0;
    // A `while`, since the last chunk ends with the bytes: by steps of an iterator a few bytes take half as much time again (docs/BENCH.md).
    while at < src.len() {
        let end = src.len().min(at + 1536);
        copy_chunk(&mut out[at..end], &src[at..end]);
        at = end;
    }
}

// Bytes as they are.
pub fn put_raw(out: &mut [u8], at: usize, src: &[u8]) -> usize
    ensures { Puts src.now out.old at result out.new }
{
    let n = src.len();
    if out.len() < n || out.len() - n < at {
        return 0;
    }
    copy(&mut out[at..], src);
    n
}

// All bytes become zero.
fn clear(out: &mut [u8])
    ensures { out.new ≡ replicate (length out.old) 0 }
{
    out.fill(0);
}

// An opaque at the front, where there is room for it: its length, its contents and its pad.
fn store_bytes(out: &mut [u8], src: &[u8])
    requires { (length src.now ≤ 4294967295) × (4 + padded (length src.now) ≤ length out.old) }
    ensures { out.new ≡ filled out.old (encode (bytes word) src.now) }
{
    let n = src.len();
    let end = 4 + n;
    let past = end + pad_after(n);
    store_word(out, n as u32);
    copy(&mut out[4..], src);
    clear(&mut out[end..past]);
}

// An opaque: its length, its contents and its pad. None is put where no word holds the length.
pub fn put_bytes(out: &mut [u8], at: usize, src: &[u8]) -> usize
    ensures { Puts (opaque_bytes src.now) out.old at result out.new }
{
    let n = src.len();
    if 4294967295 < n {
        return 0;
    }
    let size = 4 + n + pad_after(n);
    if out.len() < size || out.len() - size < at {
        return 0;
    }
    store_bytes(&mut out[at..], src);
    size
}
