// Tables and Requests to run, in buffers of zeros. A hash is a number and zeros.

// The 28 bytes of a record before its blocks, with a name of one letter.
fn put_file(out: &mut [u8], place: usize, name: &[u8], flags: u32, modified: u64, blocks: u32) {
    if let Some(record) = out.get_mut(place..) {
        xdr::put_bytes(record, 0, name);
        xdr::put_word(record, 8, flags);
        xdr::put_hyper(record, 12, modified);
        xdr::put_word(record, 24, blocks);
    }
}

// A block: 40 bytes.
fn put_block(out: &mut [u8], place: usize, size: u32, hash: u32) {
    if let Some(block) = out.get_mut(place..) {
        xdr::put_word(block, 0, size);
        xdr::put_word(block, 4, 32);
        xdr::put_word(block, 8, hash);
    }
}

// A table of one record of Modified 0 without blocks: 32 bytes.
pub fn old(out: &mut [u8], name: &[u8]) {
    xdr::put_word(out, 0, 1);
    put_file(out, 4, name, 0, 0, 0);
}

// A table of one deleted record: 32 bytes.
pub fn gone(out: &mut [u8], name: &[u8]) {
    xdr::put_word(out, 0, 1);
    put_file(out, 4, name, 4096, 1, 0);
}

// A table of one record of one block: 72 bytes.
pub fn one(out: &mut [u8], name: &[u8], flags: u32, size: u32, hash: u32) {
    xdr::put_word(out, 0, 1);
    put_file(out, 4, name, flags, 1, 1);
    put_block(out, 32, size, hash);
}

// A table of one record of two blocks: 112 bytes.
pub fn two(out: &mut [u8], name: &[u8], size: u32, hash: u32, again: u32, other: u32) {
    xdr::put_word(out, 0, 1);
    put_file(out, 4, name, 0, 2, 2);
    put_block(out, 32, size, hash);
    put_block(out, 72, again, other);
}

// A table of "a" as of Modified 1 with blocks of 2, 3 and 7 bytes: 152 bytes.
pub fn three(out: &mut [u8]) {
    xdr::put_word(out, 0, 1);
    put_file(out, 4, b"a", 0, 1, 3);
    put_block(out, 32, 2, 3);
    put_block(out, 72, 3, 4);
    put_block(out, 112, 7, 2);
}

// A table of "a", invalid, with a block of 5 bytes, and "b" with two of 5 bytes: 180 bytes.
pub fn both(out: &mut [u8]) {
    xdr::put_word(out, 0, 2);
    put_file(out, 4, b"a", 8192, 1, 1);
    put_block(out, 32, 5, 1);
    put_file(out, 72, b"b", 0, 1, 2);
    put_block(out, 100, 5, 2);
    put_block(out, 140, 5, 1);
}

// A table of one record of so many blocks of 5 bytes.
pub fn many(out: &mut [u8], name: &[u8], blocks: u32) {
    xdr::put_word(out, 0, 1);
    put_file(out, 4, name, 0, 1, blocks);
    for i in 0..blocks {
        put_block(out, 32 + 40 * (i as usize), 5, i);
    }
}

// A Request with the ID 77, with names of one letter: 68 bytes.
pub fn request(out: &mut [u8], repository: &[u8], name: &[u8], offset: u64, size: u32, hash: u32) {
    xdr::put_word(out, 0, 0x004d0200);
    xdr::put_bytes(out, 4, repository);
    xdr::put_bytes(out, 12, name);
    xdr::put_hyper(out, 20, offset);
    xdr::put_word(out, 28, size);
    xdr::put_word(out, 32, 32);
    xdr::put_word(out, 36, hash);
}
