// The ruling on an incoming Request: it is served, or gets a reply with no data.
ghost use Rattle.std.specs.Prelude.{◌≡◌, true};
ghost use Rattle.table.specs.Table.{is_good, records};
ghost use Rattle.message.specs.Answers.{span_bytes};
ghost use Rattle.want.specs.Listing.{lists_there, block_with};
ghost use Rattle.serve.specs.Ruling.{is_ours as is_ours_of, ruling_of, Rules};

use message::{Edition, RequestSpan, Span};
use xdr::Refusal;

// To serve: the file's name, the offset and the Length. Or how many bytes of a reply were filled in.
#[derive(Clone, Copy)]
pub enum Serving {
    Served { name: Span, offset: u64, size: u32 },
    Replied(usize),
}

// Whether a good table lists a block there.
fn lists(table: &[u8], name: &[u8], offset: u64, size: u32, hash: &[u8]) -> bool
    requires { is_good table.now ≡ true }
    ensures { result ≡ lists_there (records table.now) name.now offset (block_with size hash.now) }
{
    let mut at = 4;
    while let Some(f) = record::outline_at(table, at) {
        if order::compare_bytes(order::part(table, f.name, f.stop), name).is_eq() {
            return want::places::lists_at(table, at, name, offset, size, hash);
        }
        at = f.past;
    }
    false
}

// The bytes of a span, as far as there are any.
fn bytes_of(s: &[u8], x: Span) -> &[u8]
    ensures { result.now ≡ span_bytes s.now x }
{
    let start = x.start;
    let count = x.length;
    let len = s.len();
    if len < start {
        return &s[len..len];
    }
    if len - start < count {
        return &s[start..len];
    }
    &s[start..start + count]
}

// Whether a Request names our Repository and our table lists that block there.
fn is_ours(table: &[u8], repository: &[u8], message: &[u8], x: RequestSpan) -> bool
    requires { is_good table.now ≡ true }
    ensures { result ≡ is_ours_of table.now repository.now message.now x }
{
    let named = x.repository;
    let name = x.name;
    let hash = x.hash;
    order::compare_bytes(bytes_of(message, named), repository).is_eq()
        && lists(
            table,
            bytes_of(message, name),
            x.offset,
            x.size,
            bytes_of(message, hash),
        )
}

// The ruling on a message: whether it is to be served out of our table, or a reply with no data in the first bytes of the buffer.
pub fn serve(
    table: &[u8],
    repository: &[u8],
    message: &[u8],
    out: &mut [u8],
) -> Result<Serving, Refusal>
    ensures { Rules (ruling_of table.now repository.now message.now)
        out.old result out.new }
{
    if !table::is_good(table) {
        return Err(Refusal::at_start(15));
    }
    let asked = message::request_in(message::read(Edition::New, message))?;
    let x = asked.request;
    if is_ours(table, repository, message, x) {
        return Ok(Serving::Served {
            name: x.name,
            offset: x.offset,
            size: x.size,
        });
    }
    let n = message_write::write_response(out, asked.id, &message[0..0])?;
    Ok(Serving::Replied(n))
}
