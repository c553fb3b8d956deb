// The writers. Each checks its body as reading would, then the Message ID and the room; then it puts the header and the fields one behind another.
ghost use Rattle.std.specs.Prelude.{◌≡◌, [], ◌++◌, true, ◌||◌, ◌+◌, ◌≤◌, eqb, length, take};
ghost use Rattle.xdr.specs.Buffer.{filled};
ghost use Rattle.xdr.specs.Fields.{word};
ghost use Rattle.xdr.specs.Filling.{Fills};
ghost use Rattle.xdr.specs.Format.{encode};
ghost use Rattle.message.specs.Message.{message};
ghost use Rattle.message_write.specs.Steps.{repository_of, given_bytes, Stored};
ghost use Rattle.message_write.specs.Writing.{index_bytes, request_bytes, response_bytes, writing};

use crate::check::{admitted, check_index, check_options, check_request, check_response};
use message::{Edition, header_of};
use xdr::Refusal;

// A header, and bytes as they are.
fn store_raw(out: &mut [u8], head: u32, b: &[u8])
    requires { 4 + length b.now ≤ length out.old }
    ensures { out.new ≡ filled out.old (encode word head ++ b.now) }
{
    xdr::put_word(out, 0, head);
    xdr::put_raw(out, 4, b);
}

// A header and an opaque, and where they end.
fn store_opaque(out: &mut [u8], head: u32, l: &[u8]) -> usize
    requires { (length l.now ≤ 131072) × (4 + length (response_bytes l.now) ≤ length out.old) }
    ensures { Stored (encode word head ++ response_bytes l.now) out.old result out.new }
{
    xdr::put_word(out, 0, head);
    4 + xdr::put_bytes(out, 4, l)
}

// A header and the Repository, and where they end: in the old edition there is none.
fn store_front(edition: Edition, out: &mut [u8], head: u32, repository: &[u8]) -> usize
    requires { (length (given_bytes edition repository.now) ≤ 68)
        × (4 + length (given_bytes edition repository.now) ≤ length out.old) }
    ensures { Stored (encode word head ++ given_bytes edition repository.now)
        out.old result out.new }
{
    match edition {
        Edition::Old => xdr::put_word(out, 0, head),
        Edition::New => store_opaque(out, head, repository),
    }
}

// A header and the first bytes of the body of an Index or an IndexUpdate, n with the header's.
fn store_index(
    edition: Edition,
    out: &mut [u8],
    head: u32,
    repository: &[u8],
    files: &[u8],
    n: usize,
)
    requires repository_len_bound { (length (given_bytes edition repository.now) ≤ 68) × (n ≤ length out.old) }
    requires repository_bound { (4 + length (given_bytes edition repository.now) ≤ n)
        × (n ≤ 4 + length (given_bytes edition repository.now) + length files.now) }
    ensures { out.new ≡ filled out.old (take n (encode word head ++
        index_bytes edition (repository_of edition repository.now) files.now)) }
{
    let files_at = store_front(edition, out, head, repository);
    xdr::put_raw(out, files_at, &files[0..n - files_at]);
}

// A header and the body of a Request.
fn store_request(
    edition: Edition,
    out: &mut [u8],
    head: u32,
    repository: &[u8],
    name: &[u8],
    offset: u64,
    size: u32,
    hash: &[u8],
)
    requires repository_len_bound { (length (given_bytes edition repository.now) ≤ 68) × (length name.now ≤ 255) × (length hash.now ≤ 32) }
    requires hash_in_bounds { 4 + length (request_bytes edition (repository_of edition repository.now) name.now offset size hash.now)
        ≤ length out.old }
    ensures { out.new
        ≡ filled out.old (encode word head ++
        request_bytes edition (repository_of edition repository.now) name.now offset size hash.now) }
{
    let name_at = store_front(edition, out, head, repository);
    let offset_at = name_at + xdr::put_bytes(out, name_at, name);
    xdr::put_hyper(out, offset_at, offset);
    xdr::put_word(out, offset_at + 8, size);
    xdr::put_bytes(out, offset_at + 12, hash);
}

// An Index or an IndexUpdate: its files are an encoded array, and bytes after the array's end do not count. The type is the header's number.
fn put_index(
    edition: Edition,
    out: &mut [u8],
    id: u32,
    kind: u32,
    repository: &[u8],
    files: &[u8],
) -> Result<usize, Refusal>
    requires { (eqb kind 1 || eqb kind 6) ≡ true }
    ensures { Fills
        (writing (message edition) id kind
        (index_bytes edition (repository_of edition repository.now) files.now))
        out.old result out.new }
{
    let n = admitted(id, check_index(edition, repository, files), out.len())?;
    store_index(edition, out, header_of(id, kind), repository, files, n);
    Ok(n)
}

// A Request.
fn put_request(
    edition: Edition,
    out: &mut [u8],
    id: u32,
    repository: &[u8],
    name: &[u8],
    offset: u64,
    size: u32,
    hash: &[u8],
) -> Result<usize, Refusal>
    ensures { Fills
        (writing (message edition) id 2
        (request_bytes edition (repository_of edition repository.now) name.now offset size hash.now))
        out.old result out.new }
{
    let n = admitted(
        id,
        check_request(edition, repository, name, size, hash),
        out.len(),
    )?;
    store_request(
        edition,
        out,
        header_of(id, 2),
        repository,
        name,
        offset,
        size,
        hash,
    );
    Ok(n)
}

// A Ping or a Pong: nothing behind the header. The type is the number that the header has.
fn put_nothing(out: &mut [u8], id: u32, kind: u32) -> Result<usize, Refusal>
    requires { (eqb kind 4 || eqb kind 5) ≡ true }
    ensures { Fills (writing (message Edition.New) id kind []) out.old result out.new }
{
    let n = admitted(id, Ok(4), out.len())?;
    xdr::put_word(out, 0, header_of(id, kind));
    Ok(n)
}

// An Index.
pub fn write_index(
    out: &mut [u8],
    id: u32,
    repository: &[u8],
    files: &[u8],
) -> Result<usize, Refusal>
    ensures { Fills
        (writing (message Edition.New) id 1 (index_bytes Edition.New repository.now files.now))
        out.old result out.new }
{
    put_index(Edition::New, out, id, 1, repository, files)
}

// An IndexUpdate.
pub fn write_index_update(
    out: &mut [u8],
    id: u32,
    repository: &[u8],
    files: &[u8],
) -> Result<usize, Refusal>
    ensures { Fills
        (writing (message Edition.New) id 6 (index_bytes Edition.New repository.now files.now))
        out.old result out.new }
{
    put_index(Edition::New, out, id, 6, repository, files)
}

// A Request.
pub fn write_request(
    out: &mut [u8],
    id: u32,
    repository: &[u8],
    name: &[u8],
    offset: u64,
    size: u32,
    hash: &[u8],
) -> Result<usize, Refusal>
    ensures { Fills
        (writing (message Edition.New) id 2
        (request_bytes Edition.New repository.now name.now offset size hash.now))
        out.old result out.new }
{
    put_request(Edition::New, out, id, repository, name, offset, size, hash)
}

// An Index of the old edition.
pub fn write_old_index(out: &mut [u8], id: u32, files: &[u8]) -> Result<usize, Refusal>
    ensures { Fills (writing (message Edition.Old) id 1 (index_bytes Edition.Old tt files.now))
        out.old result out.new }
{
    put_index(Edition::Old, out, id, 1, &files[0..0], files)
}

// An IndexUpdate of the old edition.
pub fn write_old_index_update(out: &mut [u8], id: u32, files: &[u8]) -> Result<usize, Refusal>
    ensures { Fills (writing (message Edition.Old) id 6 (index_bytes Edition.Old tt files.now))
        out.old result out.new }
{
    put_index(Edition::Old, out, id, 6, &files[0..0], files)
}

// A Request of the old edition.
pub fn write_old_request(
    out: &mut [u8],
    id: u32,
    name: &[u8],
    offset: u64,
    size: u32,
    hash: &[u8],
) -> Result<usize, Refusal>
    ensures { Fills
        (writing (message Edition.Old) id 2
        (request_bytes Edition.Old tt name.now offset size hash.now))
        out.old result out.new }
{
    put_request(Edition::Old, out, id, &name[0..0], name, offset, size, hash)
}

// A Response.
pub fn write_response(out: &mut [u8], id: u32, data: &[u8]) -> Result<usize, Refusal>
    ensures { Fills (writing (message Edition.New) id 3 (response_bytes «data».now)) out.old result out.new }
{
    let n = admitted(id, check_response(data), out.len())?;
    store_opaque(out, header_of(id, 3), data);
    Ok(n)
}

// A Ping.
pub fn write_ping(out: &mut [u8], id: u32) -> Result<usize, Refusal>
    ensures { Fills (writing (message Edition.New) id 4 []) out.old result out.new }
{
    put_nothing(out, id, 4)
}

// A Pong.
pub fn write_pong(out: &mut [u8], id: u32) -> Result<usize, Refusal>
    ensures { Fills (writing (message Edition.New) id 5 []) out.old result out.new }
{
    put_nothing(out, id, 5)
}

// An Options message: its options are an encoded array, and bytes after the array's end do not count.
pub fn write_options(out: &mut [u8], id: u32, options: &[u8]) -> Result<usize, Refusal>
    ensures { Fills (writing (message Edition.New) id 7 options.now) out.old result out.new }
{
    let n = admitted(id, check_options(options), out.len())?;
    let used = n - 4;
    store_raw(out, header_of(id, 7), &options[0..used]);
    Ok(n)
}
