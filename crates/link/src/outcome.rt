// What a call hands back: the link, and what came of the call.
use crate::list::Link;
use message::Span;
use xdr::Refusal;

// The link after an issue, the ID that was next, and what writing the Request under it answered.
#[derive(Clone, Copy)]
pub struct LinkIssued {
    pub link: Link,
    pub id: u32,
    pub filling: Result<usize, Refusal>,
}

// What an answer released, by its length: ID and Length of a request and, where the data are as long as asked, where they stand in the
// message.
#[derive(Clone, Copy)]
pub enum Release {
    Data { id: u32, size: u32, data: Span },
    NotAvailable { id: u32, size: u32 },
    WrongSize { id: u32, size: u32 },
}

// The link after an answer.
#[derive(Clone, Copy)]
pub struct LinkAnswered {
    pub link: Link,
    pub release: Result<Release, Refusal>,
}

// What an answer brought, once data as long as asked were held to the hash that was asked for.
#[derive(Clone, Copy)]
pub enum Arrival {
    Data { id: u32, size: u32, data: Span },
    NotAvailable { id: u32, size: u32 },
    WrongSize { id: u32, size: u32 },
    WrongContent { id: u32, size: u32 },
}
