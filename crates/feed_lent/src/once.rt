// What reading at once says.
ghost use Rattle.std.specs.Prelude.{◌≡◌};
ghost use Rattle.feed.specs.AtOnce.{at_once};
ghost use Rattle.feed_lent.specs.Steps.{message_end};

use message::{Edition, Message};
use xdr::Refusal;

// Where a message ends.
fn message_end(m: Message) -> usize
    ensures { result ≡ message_end m }
{
    match m {
        Message::Index(_, x) => x.end,
        Message::Request(_, x) => x.end,
        Message::Response(_, x) => x.end,
        Message::Ping(_, end) => end,
        Message::Pong(_, end) => end,
        Message::IndexUpdate(_, x) => x.end,
        Message::Options(_, x) => x.end,
    }
}

// What reading at once says: with 1 more bytes are waited for.
pub(crate) fn at_once(edition: Edition, run: &[u8]) -> Result<Option<usize>, Refusal>
    ensures { result ≡ at_once edition run.now }
{
    match message::read(edition, run) {
        Ok(m) => Ok(Some(message_end(m))),
        Err(r) => { if r.number == 1 { Ok(None) } else { Err(r) } }
    }
}
