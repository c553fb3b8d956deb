// What a call hands back: the queue, and what came of the call.
use crate::queue::RequestQueue;
use link::Arrival;
use xdr::Refusal;

// The queue after an opening or a drop: without requests, if it was accepted.
#[derive(Clone, Copy)]
pub struct Emptied {
    pub queue: RequestQueue,
    pub verdict: Result<(), Refusal>,
}

// The queue after an issue, the ID that was next, and what writing the Request under it answered.
#[derive(Clone, Copy)]
pub struct Issued {
    pub queue: RequestQueue,
    pub id: u32,
    pub filling: Result<usize, Refusal>,
}

// The queue after an answer, and what it brought.
#[derive(Clone, Copy)]
pub struct Answered {
    pub queue: RequestQueue,
    pub arrival: Result<Arrival, Refusal>,
}
