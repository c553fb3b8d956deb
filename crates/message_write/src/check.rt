// The checks of a message's fields before anything is written: what reading the message would answer, places counted in it.
ghost use Rattle.std.specs.Prelude.{◌≡◌, ℕ, ◌+◌, ◌<◌};
ghost use Rattle.xdr.specs.Answers.{bytes_answer};
ghost use Rattle.xdr.specs.Fields.{word, opaque, text};
ghost use Rattle.xdr.specs.Format.{bytes, encode, read_at};
ghost use Rattle.record.specs.Block.{hash as hash_field};
ghost use Rattle.record.specs.File.{name as name_field};
ghost use Rattle.record.specs.KeyValue.{options as options_field};
ghost use Rattle.message.specs.Limits.{options_limit};
ghost use Rattle.message.specs.Message.{repository as repository_field, index, request, response};
ghost use Rattle.message.specs.Steps.{repository_answer};
ghost use Rattle.message_write.specs.Steps.{repository_of, given_bytes, body_check, admitted_answer};
ghost use Rattle.message_write.specs.Writing.{index_bytes, request_bytes, response_bytes};

use message::{DATA_LIMIT, Edition, FILES_LIMIT, ID_LIMIT, OPTIONS_LIMIT, REPOSITORY_LIMIT};
use record::NAME_LIMIT;
use xdr::Refusal;

// Contents that are to become an opaque: their length and the bytes that it will take.
pub fn check_bytes(l: &[u8], limit: u32) -> Result<(usize, usize), Refusal>
    ensures { result ≡ bytes_answer (read_at (opaque limit) (encode (bytes word) l.now) 0) }
{
    let n = l.len();
    if (limit as usize) < n {
        return Err(Refusal {
            number: 5,
            place: 0,
        });
    }
    Ok((n, 4 + n + xdr::pad_after(n)))
}

// The same for a string.
pub fn check_text(l: &[u8], limit: u32) -> Result<(usize, usize), Refusal>
    ensures { result ≡ bytes_answer (read_at (text limit) (encode (bytes word) l.now) 0) }
{
    let answer = check_bytes(l, limit);
    let Ok((n, size)) = answer else {
        return Err(xdr::refusal_of(answer));
    };
    let sound = xdr::sound_up_to(l);
    if sound == n {
        Ok((n, size))
    } else {
        Err(Refusal {
            number: 7,
            place: 4 + sound,
        })
    }
}

// The same for a name.
pub fn check_name(l: &[u8]) -> Result<(usize, usize), Refusal>
    ensures { result ≡ bytes_answer (read_at name_field (encode (bytes word) l.now) 0) }
{
    let answer = check_text(l, NAME_LIMIT);
    let Ok((n, size)) = answer else {
        return Err(xdr::refusal_of(answer));
    };
    if let Some(number) = record::name_fault(l) {
        return Err(Refusal::at_start(number));
    }
    Ok((n, size))
}

// The same for a hash.
pub fn check_hash(l: &[u8]) -> Result<(usize, usize), Refusal>
    ensures { result ≡ bytes_answer (read_at hash_field (encode (bytes word) l.now) 0) }
{
    if l.len() != 32 {
        return Err(Refusal {
            number: 9,
            place: 0,
        });
    }
    Ok((32, 36))
}

// The same for the Repository of a message: in the old edition there is none, whatever is given.
pub fn check_repository(edition: Edition, repository: &[u8]) -> Result<(usize, usize), Refusal>
    ensures { result ≡ repository_answer edition
        (read_at (repository_field edition) (given_bytes edition repository.now) 0) }
{
    match edition {
        Edition::Old => Ok((0, 0)),
        Edition::New => check_text(repository, REPOSITORY_LIMIT),
    }
}

// A refusal of a field that begins at a place.
fn moved(r: Refusal, at: usize) -> Refusal
    requires { at + r.place < 18446744073709551616 }
    ensures { result ≡ record { number = r.number; place = at + r.place } }
{
    Refusal {
        number: r.number,
        place: at + r.place,
    }
}

// The body of an Index or an IndexUpdate.
pub fn check_index(edition: Edition, repository: &[u8], files: &[u8]) -> Result<usize, Refusal>
    ensures { result ≡ body_check (index edition)
        (index_bytes edition (repository_of edition repository.now) files.now) }
{
    let text = check_repository(edition, repository);
    let Ok((_, size)) = text else {
        return Err(moved(xdr::refusal_of(text), 4));
    };
    let array = record::read_files(files, FILES_LIMIT);
    let Ok((_, used)) = array else {
        return Err(moved(xdr::refusal_of(array), 4 + size));
    };
    Ok(4 + size + used)
}

// The body of a Request, whatever its offset.
pub fn check_request(
    edition: Edition,
    repository: &[u8],
    name: &[u8],
    size: u32,
    hash: &[u8],
) -> Result<usize, Refusal>
    ensures { (offset : ℕ)
        → result ≡ body_check (request edition) (request_bytes edition (repository_of edition repository.now)
        name.now offset size hash.now) }
{
    let first = check_repository(edition, repository);
    let Ok((_, repository_size)) = first else {
        return Err(moved(xdr::refusal_of(first), 4));
    };
    let name_at = 4 + repository_size;
    let second = check_name(name);
    let Ok((_, name_size)) = second else {
        return Err(moved(xdr::refusal_of(second), name_at));
    };
    let size_at = name_at + name_size + 8;
    if !record::is_size(size) {
        return Err(Refusal {
            number: 10,
            place: size_at,
        });
    }
    let hash_at = size_at + 4;
    let third = check_hash(hash);
    let Ok((_, hash_size)) = third else {
        return Err(moved(xdr::refusal_of(third), hash_at));
    };
    Ok(hash_at + hash_size)
}

// The body of a Response.
pub fn check_response(data: &[u8]) -> Result<usize, Refusal>
    ensures { result ≡ body_check response (response_bytes «data».now) }
{
    let opaque = check_bytes(data, DATA_LIMIT);
    let Ok((_, size)) = opaque else {
        return Err(moved(xdr::refusal_of(opaque), 4));
    };
    Ok(4 + size)
}

// The body of an Options message.
pub fn check_options(options: &[u8]) -> Result<usize, Refusal>
    ensures { result ≡ body_check (options_field options_limit) options.now }
{
    let array = record::read_options(options, OPTIONS_LIMIT);
    let Ok((_, used)) = array else {
        return Err(moved(xdr::refusal_of(array), 4));
    };
    Ok(4 + used)
}

// A check's answer, with the Message ID before it and the room behind it.
pub fn admitted(id: u32, checked: Result<usize, Refusal>, room: usize) -> Result<usize, Refusal>
    ensures { result ≡ admitted_answer id room checked }
{
    if ID_LIMIT < id {
        return xdr::refused(5);
    }
    let Ok(n) = checked else {
        return checked;
    };
    if room < n {
        return xdr::refused(14);
    }
    Ok(n)
}
