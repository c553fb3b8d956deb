// Tables to run.

// A record from a place on, with blocks of 5 bytes and hashes of zeros, in a buffer of zeros.
fn put_record(out: &mut [u8], place: usize, name: &[u8], modified: u64, version: u32, blocks: u32) {
    let Some(record) = out.get_mut(place..) else {
        return;
    };
    let at = xdr::put_bytes(record, 0, name);
    xdr::put_hyper(record, at + 4, modified);
    xdr::put_word(record, at + 12, version);
    xdr::put_word(record, at + 16, blocks);
    for i in 0..blocks {
        let block = at + 20 + 40 * (i as usize);
        xdr::put_word(record, block, 5);
        xdr::put_word(record, block + 4, 32);
    }
}

// A table of two records without blocks, whose names have four bytes.
pub fn two(name: &[u8], modified: u64, version: u32, other: &[u8], again: u64) -> [u8; 60] {
    let mut out = [0u8; 60];
    xdr::put_word(&mut out, 0, 2);
    put_record(&mut out, 4, name, modified, version, 0);
    put_record(&mut out, 32, other, again, version, 0);
    out
}

// A table of the records of the numbers from first up to last, without blocks: the name of each is "aaaa" and, in its last three letters, the
// digits to the base 16.
pub fn many(out: &mut [u8], first: u32, last: u32) {
    xdr::put_word(out, 0, last.saturating_sub(first));
    for n in first..last {
        let name = 0x61616161 + n / 256 % 16 * 65536 + n / 16 % 16 * 256 + n % 16;
        let place = 4 + 28 * ((n - first) as usize);
        put_record(out, place, &name.to_be_bytes(), 0, 0, 0);
    }
}

// A table of one record of so many blocks.
pub fn one(out: &mut [u8], name: &[u8], blocks: u32) {
    xdr::put_word(out, 0, 1);
    put_record(out, 4, name, 0, 0, blocks);
}

// The start of an Index (1) or an IndexUpdate (6) of the repository "r", by the number in the header: its array comes next.
pub fn head(kind: u8) -> [u8; 12] {
    [0, 0, kind, 0, 0, 0, 0, 1, b'r', 0, 0, 0]
}
