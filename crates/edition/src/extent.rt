// What of a message's bytes stays when it is turned.
ghost use Rattle.std.specs.Prelude.{◌≡◌};
ghost use Rattle.edition.specs.Steps.{extent_of, is_options_in};

use message::Message;
use xdr::Refusal;

// A message that has a Repository in the new edition, or one that is the same in both, with its end.
#[derive(Clone, Copy)]
pub enum Extent {
    Named(usize),
    Same(usize),
}

// The extent of a message that was read.
pub fn extent_of(m: Result<Message, Refusal>) -> Result<Extent, Refusal>
    ensures { result ≡ extent_of m }
{
    match m? {
        Message::Index(_, x) => Ok(Extent::Named(x.end)),
        Message::Request(_, x) => Ok(Extent::Named(x.end)),
        Message::Response(_, x) => Ok(Extent::Same(x.end)),
        Message::Ping(_, end) => Ok(Extent::Same(end)),
        Message::Pong(_, end) => Ok(Extent::Same(end)),
        Message::IndexUpdate(_, x) => Ok(Extent::Named(x.end)),
        Message::Options(_, x) => Ok(Extent::Same(x.end)),
    }
}

// Whether it is Options, which the old edition doesn't have.
pub fn is_options(m: Result<Message, Refusal>) -> bool
    ensures { result ≡ is_options_in m }
{
    matches!(m, Ok(Message::Options(_, _)))
}
