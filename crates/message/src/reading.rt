// Reading a message: the numbers as numbers, and spans into the bytes for the rest.
ghost use Rattle.std.specs.Prelude.{◌≡◌, ◌≤◌, length};
ghost use Rattle.xdr.specs.Format.{read_at};
ghost use Rattle.record.specs.KeyValue.{options};
ghost use Rattle.message.specs.Answers.{repository_start, index_answer, request_answer, response_answer, options_answer, message_in};
ghost use Rattle.message.specs.Limits.{options_limit};
ghost use Rattle.message.specs.Message.{repository, index, request, response};
ghost use Rattle.message.specs.Steps.{repository_answer};

use crate::answer::{IndexSpan, Message, OptionsSpan, RequestSpan, ResponseSpan, Span};
use crate::edition::Edition;
use crate::header::{id_of, read_header, type_of};
use crate::limits::{DATA_LIMIT, FILES_LIMIT, OPTIONS_LIMIT, REPOSITORY_LIMIT};
use xdr::Refusal;

// Where the Repository's contents begin.
fn repository_start(edition: Edition) -> usize
    ensures { result ≡ repository_start edition }
{
    match edition {
        Edition::Old => 4,
        Edition::New => 8,
    }
}

// The Repository: the length of its contents and the place after it. In the old edition there is none.
fn read_repository(edition: Edition, s: &[u8]) -> Result<(usize, usize), Refusal>
    ensures { result ≡ repository_answer edition (read_at (repository edition) s.now 4) }
{
    match edition {
        Edition::Old => Ok((0, 4)),
        Edition::New => xdr::read_text(s, 4, REPOSITORY_LIMIT),
    }
}

// The body of an Index or an IndexUpdate: the files are read from the part that begins there.
fn read_index(edition: Edition, s: &[u8]) -> Result<IndexSpan, Refusal>
    requires { 4 ≤ length s.now }
    ensures { result ≡ index_answer edition (read_at (index edition) s.now 4) }
{
    let repository = read_repository(edition, s);
    let Ok((length, files_at)) = repository else {
        return Err(xdr::refusal_of(repository));
    };
    let files = record::read_files(&s[files_at..], FILES_LIMIT);
    let Ok((count, used)) = files else {
        let refusal = xdr::refusal_of(files);
        return Err(Refusal {
            number: refusal.number,
            place: files_at + refusal.place,
        });
    };
    Ok(IndexSpan {
        repository: Span {
            start: repository_start(edition),
            length,
        },
        files: Span {
            start: files_at,
            length: used,
        },
        count,
        end: files_at + used,
    })
}

// A Request with an ID.
fn read_request(edition: Edition, s: &[u8], id: u32) -> Result<Message, Refusal>
    ensures { result ≡ request_answer edition id (read_at (request edition) s.now 4) }
{
    let repository = read_repository(edition, s);
    let Ok((repository_length, name_at)) = repository else {
        return Err(xdr::refusal_of(repository));
    };
    let name = record::read_name(s, name_at);
    let Ok((name_length, offset_at)) = name else {
        return Err(xdr::refusal_of(name));
    };
    let offset = xdr::read_hyper(s, offset_at);
    let Ok((from, size_at)) = offset else {
        return Err(xdr::refusal_of(offset));
    };
    let length = record::read_size(s, size_at);
    let Ok((size, hash_at)) = length else {
        return Err(xdr::refusal_of(length));
    };
    let hash = record::read_hash(s, hash_at);
    let Ok((hash_length, end)) = hash else {
        return Err(xdr::refusal_of(hash));
    };
    let span = RequestSpan {
        repository: Span {
            start: repository_start(edition),
            length: repository_length,
        },
        name: Span {
            start: name_at + 4,
            length: name_length,
        },
        offset: from,
        size,
        hash: Span {
            start: hash_at + 4,
            length: hash_length,
        },
        end,
    };
    Ok(Message::Request(id, span))
}

// A Response with an ID.
fn read_response(s: &[u8], id: u32) -> Result<Message, Refusal>
    ensures { result ≡ response_answer id (read_at response s.now 4) }
{
    let data = xdr::read_bytes(s, 4, DATA_LIMIT);
    let Ok((length, end)) = data else {
        return Err(xdr::refusal_of(data));
    };
    let span = ResponseSpan {
        data: Span { start: 8, length },
        end,
    };
    Ok(Message::Response(id, span))
}

// Options with an ID: the array is read from the part that begins there.
fn read_options(s: &[u8], id: u32) -> Result<Message, Refusal>
    requires { 4 ≤ length s.now }
    ensures { result ≡ options_answer id (read_at (options options_limit) s.now 4) }
{
    let options = record::read_options(&s[4..], OPTIONS_LIMIT);
    let Ok((count, used)) = options else {
        let refusal = xdr::refusal_of(options);
        return Err(Refusal {
            number: refusal.number,
            place: 4 + refusal.place,
        });
    };
    let span = OptionsSpan {
        options: Span {
            start: 4,
            length: used,
        },
        count,
        end: 4 + used,
    };
    Ok(Message::Options(id, span))
}

// The message of an edition at the front of some bytes: whatever follows its end belongs to the next one.
pub fn read(edition: Edition, s: &[u8]) -> Result<Message, Refusal>
    ensures { result ≡ message_in edition s.now }
{
    let head = read_header(edition, s);
    let Ok((h, _)) = head else {
        return Err(xdr::refusal_of(head));
    };
    let id = id_of(h);
    let kind = type_of(h);
    match kind {
        1 => Ok(Message::Index(id, read_index(edition, s)?)),
        2 => read_request(edition, s, id),
        3 => read_response(s, id),
        4 => Ok(Message::Ping(id, 4)),
        5 => Ok(Message::Pong(id, 4)),
        6 => Ok(Message::IndexUpdate(id, read_index(edition, s)?)),
        _ => read_options(s, id),
    }
}
