// Reading a message.
ghost use Rattle.std.specs.Prelude.{◌≡◌};
ghost use Rattle.message.specs.Answers.{message_in};
ghost use Rattle.bep.specs.Words.{index_words, request_words, response_words, ping_words, options_words, place_words, read_words, read_number};

use message::{Edition, IndexSpan, Message, OptionsSpan, RequestSpan, ResponseSpan};
use xdr::Refusal;

// An Index or an IndexUpdate, by its type.
fn index_words(kind: u64, id: u32, x: IndexSpan) -> [u64; 11]
    ensures { result ≡ index_words kind id x }
{
    let repository = x.repository;
    let files = x.files;
    [
        x.end as u64,
        kind,
        id as u64,
        repository.start as u64,
        repository.length as u64,
        files.start as u64,
        files.length as u64,
        x.count as u64,
        0,
        0,
        0,
    ]
}

// A Request.
fn request_words(id: u32, x: RequestSpan) -> [u64; 11]
    ensures { result ≡ request_words id x }
{
    let repository = x.repository;
    let name = x.name;
    let hash = x.hash;
    [
        x.end as u64,
        2,
        id as u64,
        repository.start as u64,
        repository.length as u64,
        name.start as u64,
        name.length as u64,
        x.offset,
        x.size as u64,
        hash.start as u64,
        hash.length as u64,
    ]
}

// A Response.
fn response_words(id: u32, x: ResponseSpan) -> [u64; 11]
    ensures { result ≡ response_words id x }
{
    let data = x.data;
    [
        x.end as u64,
        3,
        id as u64,
        data.start as u64,
        data.length as u64,
        0,
        0,
        0,
        0,
        0,
        0,
    ]
}

// A Ping or a Pong, by its type.
fn ping_words(kind: u64, id: u32, end: usize) -> [u64; 11]
    ensures { result ≡ ping_words kind id end }
{
    [end as u64, kind, id as u64, 0, 0, 0, 0, 0, 0, 0, 0]
}

// Options.
fn options_words(id: u32, x: OptionsSpan) -> [u64; 11]
    ensures { result ≡ options_words id x }
{
    let options = x.options;
    [
        x.end as u64,
        7,
        id as u64,
        0,
        0,
        options.start as u64,
        options.length as u64,
        x.count as u64,
        0,
        0,
        0,
    ]
}

// A message that is refused: the place and zeros.
fn place_words(place: usize) -> [u64; 11]
    ensures { result ≡ place_words place }
{
    [place as u64, 0, 0, 0, 0, 0, 0, 0, 0, 0, 0]
}

// The words of a message.
fn read_words(m: Result<Message, Refusal>) -> [u64; 11]
    ensures { result ≡ read_words m }
{
    match m {
        Ok(Message::Index(id, x)) => index_words(1, id, x),
        Ok(Message::Request(id, x)) => request_words(id, x),
        Ok(Message::Response(id, x)) => response_words(id, x),
        Ok(Message::Ping(id, end)) => ping_words(4, id, end),
        Ok(Message::Pong(id, end)) => ping_words(5, id, end),
        Ok(Message::IndexUpdate(id, x)) => index_words(6, id, x),
        Ok(Message::Options(id, x)) => options_words(id, x),
        Err(r) => place_words(r.place),
    }
}

// The number that reading a message returns.
fn read_number(m: Result<Message, Refusal>) -> u32
    ensures { result ≡ read_number m }
{
    match m {
        Ok(_) => 0,
        Err(r) => r.number,
    }
}

// Reads the message at the front of some bytes: whatever follows its end belongs to the next one.
pub fn bep_read(input: &[u8], answer: &mut [u64; 11]) -> u32
    ensures { (result ≡ read_number (message_in Edition.New input.now))
        × (answer.new ≡ read_words (message_in Edition.New input.now)) }
{
    let m = message::read(Edition::New, input);
    *answer = read_words(m);
    read_number(m)
}

// The same of the old edition. A message has no Repository there: its start is 4 and its length 0.
pub fn bep_read_old(input: &[u8], answer: &mut [u64; 11]) -> u32
    ensures { (result ≡ read_number (message_in Edition.Old input.now))
        × (answer.new ≡ read_words (message_in Edition.Old input.now)) }
{
    let m = message::read(Edition::Old, input);
    *answer = read_words(m);
    read_number(m)
}
