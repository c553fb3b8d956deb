// The message of the type that a call takes: another type is refused with 18, and a refused reading as it is.
ghost use Rattle.std.specs.Prelude.{◌≡◌};
ghost use Rattle.message.specs.Kinds.{index_in, request_in, response_in};

use crate::answer::{IndexSpan, Message, RequestSpan, ResponseSpan};
use xdr::Refusal;

// An Index, or an IndexUpdate where the first is true.
#[derive(Clone, Copy)]
pub struct IndexIn {
    pub update: bool,
    pub index: IndexSpan,
}

// A Request with its ID.
#[derive(Clone, Copy)]
pub struct RequestIn {
    pub id: u32,
    pub request: RequestSpan,
}

// A Response with its ID.
#[derive(Clone, Copy)]
pub struct ResponseIn {
    pub id: u32,
    pub response: ResponseSpan,
}

// The Index or IndexUpdate that a message is.
pub fn index_in(m: Result<Message, Refusal>) -> Result<IndexIn, Refusal>
    ensures { result ≡ index_in m }
{
    match m? {
        Message::Index(_, index) => Ok(IndexIn {
            update: false,
            index,
        }),
        Message::IndexUpdate(_, index) => Ok(IndexIn {
            update: true,
            index,
        }),
        _ => Err(Refusal::at_start(18)),
    }
}

// The Response that a message is.
pub fn response_in(m: Result<Message, Refusal>) -> Result<ResponseIn, Refusal>
    ensures { result ≡ response_in m }
{
    match m? {
        Message::Response(id, response) => Ok(ResponseIn { id, response }),
        _ => Err(Refusal::at_start(18)),
    }
}

// The Request that a message is.
pub fn request_in(m: Result<Message, Refusal>) -> Result<RequestIn, Refusal>
    ensures { result ≡ request_in m }
{
    match m? {
        Message::Request(id, request) => Ok(RequestIn { id, request }),
        _ => Err(Refusal::at_start(18)),
    }
}
