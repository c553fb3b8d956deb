// Up, with a Repository that is given, and down, without the Repository: the header and the other fields are the same bytes in both editions.
ghost use Rattle.std.specs.Prelude.{◌≤◌, length, IfSome};
ghost use Rattle.xdr.specs.Filling.{gives, Fills};
ghost use Rattle.edition.specs.Steps.{ResponseTo, with_repository, without_repository};
ghost use Rattle.edition.specs.Turning.{upgrading, downgrading};

use crate::extent::{Extent, extent_of, is_options};
use message::header::{read_header, type_of};
use message::{DATA_LIMIT, Edition, REPOSITORY_LIMIT};
use message_write::check_text;
use xdr::Refusal;

// A message as it is.
fn whole(m: &[u8], out: &mut [u8]) -> Result<usize, Refusal>
    ensures { Fills (gives m.now) out.old result out.new }
{
    let n = m.len();
    if out.len() < n {
        return xdr::refused(14);
    }
    xdr::put_raw(out, 0, m);
    Ok(n)
}

// An old message with a Repository behind its header, once that is checked.
fn with_repository(m: &[u8], repository: &[u8], out: &mut [u8]) -> Result<usize, Refusal>
    requires { 4 ≤ length m.now }
    ensures { Fills (with_repository m.now repository.now) out.old result out.new }
{
    let size = match check_text(repository, REPOSITORY_LIMIT) {
        Ok((_, size)) => size,
        Err(r) => {
            return Err(Refusal {
                number: r.number,
                place: 4 + r.place,
            });
        }
    };
    let n = size + m.len();
    if out.len() < n {
        return xdr::refused(14);
    }
    xdr::put_raw(out, 0, &m[0..4]);
    xdr::put_bytes(out, 4, repository);
    xdr::put_raw(out, 4 + size, &m[4..]);
    Ok(n)
}

// A new message without the Repository behind its header.
fn without_repository(m: &[u8], out: &mut [u8]) -> Result<usize, Refusal>
    requires { 4 ≤ length m.now }
    ensures { Fills (without_repository m.now) out.old result out.new }
{
    let (_, rest) = xdr::read_bytes(m, 4, REPOSITORY_LIMIT)?;
    let n = 4 + (m.len() - rest);
    if out.len() < n {
        return xdr::refused(14);
    }
    xdr::put_raw(out, 0, &m[0..4]);
    xdr::put_raw(out, 4, &m[rest..]);
    Ok(n)
}

// Where a Response at the front of some bytes ends, if there is one: it is the same in both editions, and long, so that its copy should be all
// there is to do.
fn response_end(edition: Edition, m: &[u8]) -> Option<usize>
    ensures { IfSome result (λ end. ResponseTo edition m.now end) }
{
    let (h, _) = read_header(edition, m).ok()?;
    if type_of(h) != 3 {
        return None;
    }
    let (_, end) = xdr::read_bytes(m, 4, DATA_LIMIT).ok()?;
    Some(end)
}

// An old message becomes a new one: it is read, then the Repository is checked if the message is to have one.
pub fn upgrade(message: &[u8], repository: &[u8], out: &mut [u8]) -> Result<usize, Refusal>
    ensures { Fills (upgrading message.now repository.now) out.old result out.new }
{
    if let Some(end) = response_end(Edition::Old, message) {
        return whole(&message[..end], out);
    }
    match extent_of(message::read(Edition::Old, message))? {
        Extent::Named(end) => with_repository(&message[..end], repository, out),
        Extent::Same(end) => whole(&message[..end], out),
    }
}

// A new message becomes an old one, without its Repository: Options have no meaning there.
pub fn downgrade(message: &[u8], out: &mut [u8]) -> Result<usize, Refusal>
    ensures { Fills (downgrading message.now) out.old result out.new }
{
    if let Some(end) = response_end(Edition::New, message) {
        return whole(&message[..end], out);
    }
    let m = message::read(Edition::New, message);
    if is_options(m) {
        return xdr::refused(18);
    }
    match extent_of(m)? {
        Extent::Named(end) => without_repository(&message[..end], out),
        Extent::Same(end) => whole(&message[..end], out),
    }
}
