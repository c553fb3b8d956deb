// The state between two runs.
use message::Edition;
use xdr::Refusal;

// A word that is to be read next. A number of files or blocks counts those after the one at hand.
#[derive(Clone, Copy)]
pub enum WordField {
    Start(Edition),
    FileCount,
    Flags(u32),
    BlockCount(bool, u32),
    Block(u32, u32),
    HashLength(u32, u32),
    OptionCount,
}

// A string or an opaque that is to be read next. A number of files or options counts those after the one at hand.
#[derive(Clone, Copy)]
pub enum StringField {
    Index,
    Request,
    RequestName,
    Data,
    File(u32),
    Key(u32),
    Value(u32),
}

// The rule of a string: any bytes, the text rule, or the text rule and the name rule.
#[derive(Clone, Copy)]
pub enum Rule {
    Opaque,
    Text,
    Name,
}

// Bytes that are passed over, by what comes after them: so many blocks and then so many files.
#[derive(Clone, Copy)]
pub enum Gap {
    Offset,
    Times(bool, u32),
    Hash(u32, u32),
}

// What is to be read next; of bytes that are passed over how many are still to come.
#[derive(Clone, Copy)]
pub enum Goal {
    Word(WordField),
    String(StringField),
    Skip(u32, Gap),
    Ended,
    Stopped(u32),
}

// What the rules have made of a string so far: the followers that the text rule still wants (4 where it is broken), the range of the next
// one, the position of that sequence's lead byte, and the part of a name that the last byte belongs to (0 empty, 1 a dot, 2 two dots, 3 one
// that leads down, 4 where the name does not).
// Both stay numbers: a host's words hold each as a byte of any value, and what they are at another value is left as it came.
#[derive(Clone, Copy)]
pub struct Scan {
    pub left: u8,
    pub low: u8,
    pub high: u8,
    pub start: u32,
    pub part: u8,
}

// Where the reading stands: what is to be read next, where that field begins and what is kept of it. Of a word: how many of its bytes have
// come and the number that they are. Of a string, where 4 have come: its length, how many bytes of its contents have come and are still to
// come, how many of its pad are, what the rules made of it, how many zeros are at the front of its pad, and whether a pad byte was not zero.
#[derive(Clone, Copy)]
pub struct Cursor {
    pub goal: Goal,
    pub place: usize,
    pub have: u32,
    pub value: u32,
    pub at: u32,
    pub todo: u32,
    pub pad: u32,
    pub scan: Scan,
    pub zeros: u32,
    pub bad: bool,
}

// What a run led to: where the reading stands, the answer (no place while it is waiting, the place where a message has ended, or the refusal),
// and how many bytes of the run were taken.
#[derive(Clone, Copy)]
pub struct Led {
    pub state: Cursor,
    pub answer: Result<Option<usize>, Refusal>,
    pub taken: usize,
}

// Where the reading stands after so many bytes.
#[derive(Clone, Copy)]
pub struct Moved {
    pub state: Cursor,
    pub taken: usize,
}

// The first four bytes of a message, its header: how many of them have come, and the number that they are.
#[derive(Clone, Copy)]
pub struct Front {
    pub have: u32,
    pub value: u32,
}

// A message that is read run by run: where the reading stands, and the message's first bytes.
#[derive(Clone, Copy)]
pub struct Feed {
    pub cursor: Cursor,
    pub front: Front,
}

// What a run gives: the state to go on with, the answer (no place while it is waiting, the place where a message has ended, or the refusal),
// and how many bytes of the run were taken.
#[derive(Clone, Copy)]
pub struct Fed {
    pub state: Feed,
    pub answer: Result<Option<usize>, Refusal>,
    pub taken: usize,
}

// What a message's header tells: its type and its ID. The type is a number, since it may be one that no message has.
#[derive(Clone, Copy)]
pub struct Header {
    pub kind: u32,
    pub id: u32,
}
