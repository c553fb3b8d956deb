// Records: limits, numbers and places.
use record::FileSpan;
use std::io;
use xdr::Refusal;

// A record with the name "a", its blocks all of one size with hashes of zeros, in a buffer of zeros.
fn build(out: &mut [u8], flags: u32, blocks: u32, size: u32, hash: u32) {
    xdr::put_bytes(out, 0, b"a");
    xdr::put_word(out, 8, flags);
    xdr::put_hyper(out, 12, 18446744073709551615);
    xdr::put_word(out, 20, 7);
    xdr::put_word(out, 24, blocks);
    put_blocks(out, blocks, size, hash);
}

fn put_blocks(out: &mut [u8], blocks: u32, size: u32, hash: u32) {
    for i in 0..blocks {
        let at = 28 + 40 * (i as usize);
        xdr::put_word(out, at, size);
        xdr::put_word(out, at + 4, hash);
    }
}

pub fn answer(rt: &impl Print, read: Result<FileSpan, Refusal>) -> io::Result<()> {
    match read {
        Ok(f) => println!(rt;
            "name {}, flags {}, modified {}, version {}, blocks {} from {}, next {}",
            f.name_length, f.flags, f.modified, f.version, f.blocks, f.first, f.next
        ),
        Err(r) => lines::refusal(rt, r),
    }
}

// A record of so many blocks, and what reading it gives.
fn file(
    rt: &impl Print,
    out: &mut [u8],
    label: &str,
    flags: u32,
    blocks: u32,
    size: u32,
    hash: u32,
) -> io::Result<()> {
    build(out, flags, blocks, size, hash);
    print!(rt; "read_file, {label}: ")?;
    answer(rt, record::read_file(out))
}

// A whole record with one block, cut to each length.
fn cuts(rt: &impl Print) -> io::Result<()> {
    let mut out = [0u8; 68];
    build(&mut out, 0, 1, 5, 32);
    for n in 0..out.len() {
        print!(rt; "read_file, cut to {n} bytes: ")?;
        answer(rt, record::read_file(&out[..n]))?;
    }
    Ok(())
}

pub fn run(rt: &impl Print) -> io::Result<()> {
    let mut out = [0u8; 65536];
    file(rt, &mut out, "one block", 420, 1, 131072, 32)?;
    file(rt, &mut out, "Length 131,073", 420, 1, 131073, 32)?;
    file(rt, &mut out, "Length 0", 420, 1, 0, 32)?;
    file(rt, &mut out, "a hash of 31 bytes", 420, 1, 5, 31)?;
    file(rt, &mut out, "a hash of 33 bytes", 420, 1, 5, 33)?;
    file(rt, &mut out, "Flags 16384", 16384, 1, 5, 32)?;
    file(rt, &mut out, "D and I with no blocks", 12288, 0, 5, 32)?;
    file(rt, &mut out, "D with a block", 4096, 1, 5, 32)?;
    file(rt, &mut out, "1,024 blocks", 0, 1024, 131072, 32)?;
    file(rt, &mut out, "1,025 blocks", 0, 1025, 131072, 32)?;
    cuts(rt)
}
