// Moves over the front of a run: a byte, a whole word, bytes that are passed over.
ghost use Rattle.std.specs.Prelude.{◌≡◌, true, ◌+◌, ◌*◌, ◌<◌, ◌≤◌, length};
ghost use Rattle.feed.specs.declared.state.Goal.TheVariants as G;
ghost use Rattle.feed.specs.declared.state.WordField.TheVariants as F;
ghost use Rattle.feed.specs.declared.state.StringField.TheVariants as L;
ghost use Rattle.feed.specs.Sound.{Sound};
ghost use Rattle.feed.specs.Steps.Next.{wants as wants_bytes};
ghost use Rattle.xdr.specs.Answers.{bytes_answer};
ghost use Rattle.xdr.specs.Format.{read_at};
ghost use Rattle.feed.specs.Steps.Moves.{string_format, Moves, Through};

use crate::goals::{
    at_goal, behind_string, blocks_goal, files_goal, limit_of, options_goal, rule_of,
};
use crate::scan::scan_over;
use crate::state::{Cursor, Gap, Goal, Moved, StringField, WordField};
use crate::steps::{after_length, gap_after, settled, step};
use crate::words::after_word;
use xdr::Refusal;

// Whether a goal wants more bytes.
pub(crate) fn wants(goal: Goal) -> bool
    ensures { result ≡ wants_bytes goal }
{
    match goal {
        Goal::Word(_) => true,
        Goal::String(_) => true,
        Goal::Skip(_, _) => true,
        Goal::Ended => false,
        Goal::Stopped(_) => false,
    }
}

// Over a byte.
fn byte_move(state: Cursor, part: &[u8]) -> Moved
    requires { Sound state × (wants_bytes state.goal ≡ true) × (0 < length part.now) }
    ensures { Moves state part.now result }
{
    Moved {
        state: step(state, part[0]),
        taken: 1,
    }
}

// Over a word that is whole.
fn whole_word(field: WordField, state: Cursor, part: &[u8]) -> Moved
    requires { Sound state × (state.goal ≡ G.Word field) × (state.have ≡ 0) × (0 < length part.now) }
    ensures { Moves state part.now result }
{
    let Ok((w, _)) = xdr::read_word(part, 0) else {
        return byte_move(state, part);
    };
    Moved {
        state: after_word(field, state.place, w),
        taken: 4,
    }
}

// Over the blocks that are there and in order, or else over the first word.
fn block_move(blocks: u32, files: u32, state: Cursor, part: &[u8]) -> Moved
    requires { Sound state × (state.goal ≡ G.Word (F.Block blocks files)) × (state.have ≡ 0) × (0 < length part.now) }
    ensures { Moves state part.now result }
{
    let all = blocks + 1;
    let n = record::sound_front(part, least(all, part.len() / 40));
    if n == 0 {
        return whole_word(WordField::Block(blocks, files), state, part);
    }
    let size = (n as usize) * 40;
    Moved {
        state: at_goal(blocks_goal(all - n, files), state.place + size),
        taken: size,
    }
}

// Over a word, where it is whole, or over blocks.
fn word_move(field: WordField, state: Cursor, part: &[u8]) -> Moved
    requires { Sound state × (state.goal ≡ G.Word field) × (0 < length part.now) }
    ensures { Moves state part.now result }
{
    if state.have != 0 {
        return byte_move(state, part);
    }
    let WordField::Block(m, k) = field else {
        return whole_word(field, state, part);
    };
    block_move(m, k, state, part)
}

// The smaller of two numbers.
fn least(a: u32, b: usize) -> u32
    ensures { (result ≤ a) × (result ≤ b) × (1 ≤ a → 1 ≤ b → 1 ≤ result) }
{
    if b < a as usize {
        return b as u32;
    }
    a
}

// Over the contents that are there. What the rule makes of them is a variable of its own: written into the state, each byte took longer.
fn contents_move(string: StringField, state: Cursor, part: &[u8]) -> Moved
    requires { Sound state × (state.goal ≡ G.String string) × (3 < state.have) × (0 < length part.now) }
    ensures { Moves state part.now result }
{
    let todo = state.todo;
    if todo == 0 {
        return byte_move(state, part);
    }
    let k = least(todo, part.len());
    let e = k as usize;
    let q = scan_over(rule_of(string), state.scan, state.at, &part[..e]);
    Moved {
        state: settled(
            string,
            Cursor {
                at: state.at + k,
                todo: todo - k,
                scan: q,
                ..state
            },
        ),
        taken: e,
    }
}

// Over a length word that is whole.
fn whole_length(string: StringField, state: Cursor, part: &[u8]) -> Moved
    requires { Sound state × (state.goal ≡ G.String string) × (state.have ≡ 0) × (0 < length part.now) }
    ensures { Moves state part.now result }
{
    let Ok((w, _)) = xdr::read_word(part, 0) else {
        return byte_move(state, part);
    };
    Moved {
        state: after_length(string, state.place, w),
        taken: 4,
    }
}

// The string at the front of a part.
fn read_string(string: StringField, part: &[u8]) -> Result<(usize, usize), Refusal>
    ensures { result ≡ bytes_answer (read_at (string_format string) part.now 0) }
{
    match string {
        StringField::Index => xdr::read_text(part, 0, 64),
        StringField::Request => xdr::read_text(part, 0, 64),
        StringField::RequestName => record::read_name(part, 0),
        StringField::Data => xdr::read_bytes(part, 0, 131072),
        StringField::File(_) => record::read_name(part, 0),
        StringField::Key(_) => xdr::read_text(part, 0, 64),
        StringField::Value(_) => xdr::read_text(part, 0, 255),
    }
}

// Over a string, where it is whole, or else over its length.
fn string_leap(string: StringField, state: Cursor, part: &[u8]) -> Moved
    requires { Sound state × (state.goal ≡ G.String string) × (state.have ≡ 0) × (0 < length part.now) }
    ensures { Moves state part.now result }
{
    let Ok((_, n)) = read_string(string, part) else {
        return whole_length(string, state, part);
    };
    if (limit_of(string) as usize) + 8 < n {
        return whole_length(string, state, part);
    }
    Moved {
        state: at_goal(behind_string(string), state.place + n),
        taken: n,
    }
}

// Over a file, where it is whole, or else over its Name.
fn file_move(files: u32, state: Cursor, part: &[u8]) -> Moved
    requires { Sound state × (state.goal ≡ G.String (L.File files)) × (state.have ≡ 0) × (0 < length part.now) }
    ensures { Moves state part.now result }
{
    let Ok(file) = record::read_file(part) else {
        return string_leap(StringField::File(files), state, part);
    };
    if 42000 < file.next {
        return string_leap(StringField::File(files), state, part);
    }
    Moved {
        state: at_goal(files_goal(files), state.place + file.next),
        taken: file.next,
    }
}

// Over an option, where it is whole, or else over its Key.
fn option_move(options: u32, state: Cursor, part: &[u8]) -> Moved
    requires { Sound state × (state.goal ≡ G.String (L.Key options)) × (state.have ≡ 0) × (0 < length part.now) }
    ensures { Moves state part.now result }
{
    let Ok(option) = record::read_option(part) else {
        return string_leap(StringField::Key(options), state, part);
    };
    if 400 < option.next {
        return string_leap(StringField::Key(options), state, part);
    }
    Moved {
        state: at_goal(options_goal(options), state.place + option.next),
        taken: option.next,
    }
}

// Over what begins with a string: a file, an option or the string.
fn leap(string: StringField, state: Cursor, part: &[u8]) -> Moved
    requires { Sound state × (state.goal ≡ G.String string) × (state.have ≡ 0) × (0 < length part.now) }
    ensures { Moves state part.now result }
{
    match string {
        StringField::Index => string_leap(string, state, part),
        StringField::Request => string_leap(string, state, part),
        StringField::RequestName => string_leap(string, state, part),
        StringField::Data => string_leap(string, state, part),
        StringField::File(k) => file_move(k, state, part),
        StringField::Key(k) => option_move(k, state, part),
        StringField::Value(_) => string_leap(string, state, part),
    }
}

// Over contents, or what begins with a string.
fn string_move(string: StringField, state: Cursor, part: &[u8]) -> Moved
    requires { Sound state × (state.goal ≡ G.String string) × (0 < length part.now) }
    ensures { Moves state part.now result }
{
    if 3 < state.have {
        return contents_move(string, state, part);
    }
    if state.have != 0 {
        return byte_move(state, part);
    }
    leap(string, state, part)
}

// Over as many of n bytes as are there.
fn gap_move(n: u32, gap: Gap, state: Cursor, part: &[u8]) -> Moved
    requires { Sound state × (state.goal ≡ G.Skip n gap) × (0 < length part.now) }
    ensures { Moves state part.now result }
{
    let len = part.len();
    if len < n as usize {
        return Moved {
            state: gap_after(n, gap, state.place, len as u32),
            taken: len,
        };
    }
    Moved {
        state: gap_after(n, gap, state.place, n),
        taken: n as usize,
    }
}

// Over the front of a part.
fn advance(state: Cursor, part: &[u8]) -> Moved
    requires { Sound state × (wants_bytes state.goal ≡ true) × (0 < length part.now) }
    ensures { Moves state part.now result }
{
    let goal = state.goal;
    match goal {
        Goal::Word(field) => word_move(field, state, part),
        Goal::String(string) => string_move(string, state, part),
        Goal::Skip(n, gap) => gap_move(n, gap, state, part),
        Goal::Ended => byte_move(state, part),
        Goal::Stopped(_) => byte_move(state, part),
    }
}

// As far as a run goes, or the message. Each move takes as many bytes as it finds, so that no iterator goes along with it.
pub(crate) fn through(state: Cursor, run: &[u8]) -> Moved
    requires { Sound state }
    ensures { Through state run.now result }
{
    let mut st = state;
    let mut i = 0;
    while i < run.len() {
        let goal = st.goal;
        if !wants(goal) {
            return Moved {
                state: st,
                taken: i,
            };
        }
        let moved = advance(st, &run[i..]);
        let next = moved.state;
        st = next;
        i += moved.taken;
    }
    Moved {
        state: st,
        taken: i,
    }
}
