// Feeding a run to a state.
ghost use Rattle.std.specs.Prelude.{◌≡◌, ◌-◌, true};
ghost use Rattle.feed.specs.Sound.{Sound, is_sound};
ghost use Rattle.feed.specs.Feeding.{Feeding, FedBy, unsound as unsound_state};
ghost use Rattle.feed.specs.Front.{header_in};
ghost use Rattle.feed.specs.Missing.{missing_in};
ghost use Rattle.feed.specs.Opened.{opened};
ghost use Rattle.feed.specs.Steps.Next.{says as says_state};
ghost use Rattle.feed.specs.Steps.Moves.{taken_by};

use crate::front::front_after;
use crate::goals::at_goal;
use crate::moves::{through, wants};
use crate::sound::is_sound;
use crate::state::{Cursor, Fed, Feed, Front, Goal, Header, Led, WordField};
use message::Edition;
use message::header::{id_of, type_of};
use xdr::Refusal;

// What a state says.
fn says(state: Cursor) -> Result<Option<usize>, Refusal>
    ensures { result ≡ says_state state }
{
    let goal = state.goal;
    match goal {
        Goal::Word(_) => Ok(None),
        Goal::String(_) => Ok(None),
        Goal::Skip(_, _) => Ok(None),
        Goal::Ended => Ok(Some(state.place)),
        Goal::Stopped(number) => Err(Refusal {
            number,
            place: state.place,
        }),
    }
}

// How many bytes of a run of so many were taken.
fn taken_by(goal: Goal, i: usize, size: usize) -> usize
    ensures { result ≡ taken_by goal i size }
{
    match goal {
        Goal::Word(_) => i,
        Goal::String(_) => i,
        Goal::Skip(_, _) => i,
        Goal::Ended => i,
        Goal::Stopped(_) => size,
    }
}

// The bytes that are missing of a word.
pub fn word_missing(have: u32) -> usize
    ensures { result ≡ 4 - have }
{
    if 4 <= have {
        return 0;
    }
    4 - (have as usize)
}

// The bytes that are missing of the field at hand.
fn missing_at(cursor: Cursor) -> usize
    ensures { result ≡ missing_in cursor }
{
    let goal = cursor.goal;
    match goal {
        Goal::Word(_) => word_missing(cursor.have),
        Goal::String(_) => {
            if cursor.have <= 3 {
                word_missing(cursor.have)
            } else {
                (cursor.todo as usize) + (cursor.pad as usize)
            }
        }
        Goal::Skip(n, _) => n as usize,
        Goal::Ended => 0,
        Goal::Stopped(_) => 0,
    }
}

// A sound state, fed.
fn feed_sound(state: Cursor, run: &[u8]) -> Led
    requires { Sound state }
    ensures { Feeding state run.now result }
{
    let goal = state.goal;
    if !wants(goal) {
        return Led {
            state,
            answer: says(state),
            taken: 0,
        };
    }
    let moved = through(state, run);
    let next = moved.state;
    let end = next.goal;
    Led {
        state: next,
        answer: says(next),
        taken: taken_by(end, moved.taken, run.len()),
    }
}

// A state that is not sound, handed back.
fn unsound(state: Feed) -> Fed
    ensures { result ≡ unsound_state state }
{
    Fed {
        state,
        answer: Err(Refusal::at_start(22)),
        taken: 0,
    }
}

// A run fed to a sound state.
fn feed_rest(state: Feed, run: &[u8]) -> Fed
    requires { is_sound state ≡ true }
    ensures { FedBy state run.now result }
{
    let cursor = state.cursor;
    let front = state.front;
    let led = feed_sound(cursor, run);
    let next = led.state;
    let answer = led.answer;
    Fed {
        state: Feed {
            cursor: next,
            front: front_after(front, run),
        },
        answer,
        taken: led.taken,
    }
}

impl Feed {
    // A state for a message of an edition, before any byte.
    pub fn open(edition: Edition) -> Feed
        ensures { result ≡ opened edition }
    {
        Feed {
            cursor: at_goal(Goal::Word(WordField::Start(edition)), 0),
            front: Front { have: 0, value: 0 },
        }
    }

    // A run fed to a state: the state to go on with, what is said, and how many bytes of the run were taken. A state that is not sound is
    // handed back, refused with 22.
    pub fn feed(self, run: &[u8]) -> Fed
        ensures { FedBy self run.now result }
    {
        if !is_sound(self) {
            return unsound(self);
        }
        feed_rest(self, run)
    }

    // The type and the ID of the message, once its header has come.
    pub fn header(self) -> Option<Header>
        ensures { result ≡ header_in self.front }
    {
        let front = self.front;
        if front.have != 4 {
            return None;
        }
        Some(Header {
            kind: type_of(front.value),
            id: id_of(front.value),
        })
    }

    // So many bytes are surely still missing: with fewer it would still wait.
    pub fn missing(self) -> usize
        ensures { result ≡ missing_in self.cursor }
    {
        let cursor = self.cursor;
        missing_at(cursor)
    }
}
