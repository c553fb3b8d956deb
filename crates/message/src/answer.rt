// What reading a message answers: the numbers as numbers, and spans into the bytes for the rest.
// Bytes of the input: where they start, and how many there are.
#[derive(Clone, Copy)]
pub struct Span {
    pub start: usize,
    pub length: usize,
}

// An Index or an IndexUpdate: its files are an encoded array, its count word included.
#[derive(Clone, Copy)]
pub struct IndexSpan {
    pub repository: Span,
    pub files: Span,
    pub count: u32,
    pub end: usize,
}

// A Request: its strings and its hash by their contents, its numbers, and the place after it.
#[derive(Clone, Copy)]
pub struct RequestSpan {
    pub repository: Span,
    pub name: Span,
    pub offset: u64,
    pub size: u32,
    pub hash: Span,
    pub end: usize,
}

// A Response: its Data, and the place after it.
#[derive(Clone, Copy)]
pub struct ResponseSpan {
    pub data: Span,
    pub end: usize,
}

// Options: an encoded array, its count word included.
#[derive(Clone, Copy)]
pub struct OptionsSpan {
    pub options: Span,
    pub count: u32,
    pub end: usize,
}

// A message: its ID and its fields, of Ping and Pong only the end.
#[derive(Clone, Copy)]
pub enum Message {
    Index(u32, IndexSpan),
    Request(u32, RequestSpan),
    Response(u32, ResponseSpan),
    Ping(u32, usize),
    Pong(u32, usize),
    IndexUpdate(u32, IndexSpan),
    Options(u32, OptionsSpan),
}
