// States that no call handed back.
use crate::line;
use feed::Feed;
use feed::state::{Cursor, Front, Gap, Goal, Scan, WordField};
use std::io;

// A state at a goal, of whose word so many bytes have come, in an Options message.
fn at(goal: Goal, place: usize, have: u32) -> Feed {
    Feed {
        cursor: Cursor {
            goal,
            place,
            have,
            value: 0,
            at: 0,
            todo: 0,
            pad: 0,
            scan: Scan {
                left: 0,
                low: 128,
                high: 191,
                start: 0,
                part: 0,
            },
            zeros: 0,
            bad: false,
        },
        front: Front {
            have: 4,
            value: 1792,
        },
    }
}

fn forged(rt: &impl Print, label: &str, state: Feed, runs: &[&[u8]]) -> io::Result<()> {
    print!(rt; "forged, {label}:")?;
    line::all(rt, state, runs)
}

// Two that aren't sound are refused and stay so. One that is sound is gone on with: the number of options at place 100.
pub fn run(rt: &impl Print) -> io::Result<()> {
    let passing = at(Goal::Skip(0, Gap::Offset), 0, 0);
    forged(
        rt,
        "no bytes to pass over",
        passing,
        &[b"\x00\x00\x04\x00", b"\x00"],
    )?;
    let whole = at(Goal::Word(WordField::FileCount), 4, 4);
    forged(rt, "a word that is whole", whole, &[b"\x00", b""])?;
    let count = at(Goal::Word(WordField::OptionCount), 100, 0);
    forged(
        rt,
        "the number of options",
        count,
        &[b"\x00\x00", b"\x00\x00"],
    )
}
