// After a word that is whole.
ghost use Rattle.std.specs.Prelude.{◌≡◌, ◌≤◌};
ghost use Rattle.feed.specs.declared.state.WordField.TheVariants as F;
ghost use Rattle.feed.specs.Steps.Next.{after_word};

use crate::goals::{at_goal, blocks_goal, body_goal, files_goal, options_goal, stopped};
use crate::state::{Cursor, Gap, Goal, WordField};
use message::Edition;
use message::header::{last_type, reserved_of, type_of, version_of};

// After the header.
fn after_start(edition: Edition, place: usize, h: u32) -> Cursor
    requires { place ≤ 22000000 }
    ensures { result ≡ after_word (F.Start edition) place h }
{
    if version_of(h) != 0 {
        return stopped(2, place);
    }
    let kind = type_of(h);
    if kind == 0 {
        return stopped(3, place);
    }
    if last_type(edition) < kind {
        return stopped(3, place);
    }
    if reserved_of(h) != 0 {
        return stopped(4, place);
    }
    at_goal(body_goal(edition, kind), place + 4)
}

// After the number of files.
fn after_file_count(place: usize, n: u32) -> Cursor
    requires { place ≤ 22000000 }
    ensures { result ≡ after_word F.FileCount place n }
{
    if n <= 512 {
        at_goal(files_goal(n), place + 4)
    } else {
        stopped(5, place)
    }
}

// After Flags.
fn after_flags(files: u32, place: usize, f: u32) -> Cursor
    requires { place ≤ 22000000 }
    ensures { result ≡ after_word (F.Flags files) place f }
{
    if f < 16384 {
        at_goal(
            Goal::Skip(12, Gap::Times(record::is_deleted(f), files)),
            place + 4,
        )
    } else {
        stopped(11, place)
    }
}

// After the number of blocks.
fn after_block_count(deleted: bool, files: u32, place: usize, n: u32) -> Cursor
    requires { place ≤ 22000000 }
    ensures { result ≡ after_word (F.BlockCount deleted files) place n }
{
    if 1024 < n {
        return stopped(5, place);
    }
    if !record::may_have(deleted, n) {
        return stopped(12, place);
    }
    at_goal(blocks_goal(n, files), place + 4)
}

// After the Length of a block.
fn after_size(blocks: u32, files: u32, place: usize, n: u32) -> Cursor
    requires { place ≤ 22000000 }
    ensures { result ≡ after_word (F.Block blocks files) place n }
{
    if record::is_size(n) {
        at_goal(Goal::Word(WordField::HashLength(blocks, files)), place + 4)
    } else {
        stopped(10, place)
    }
}

// After the length of a hash.
fn after_hash_length(blocks: u32, files: u32, place: usize, n: u32) -> Cursor
    requires { place ≤ 22000000 }
    ensures { result ≡ after_word (F.HashLength blocks files) place n }
{
    if n == 32 {
        at_goal(Goal::Skip(32, Gap::Hash(blocks, files)), place + 4)
    } else {
        stopped(9, place)
    }
}

// After the number of options.
fn after_option_count(place: usize, n: u32) -> Cursor
    requires { place ≤ 22000000 }
    ensures { result ≡ after_word F.OptionCount place n }
{
    if n <= 64 {
        at_goal(options_goal(n), place + 4)
    } else {
        stopped(5, place)
    }
}

// After a word.
pub(crate) fn after_word(field: WordField, place: usize, w: u32) -> Cursor
    requires { place ≤ 22000000 }
    ensures { result ≡ after_word field place w }
{
    match field {
        WordField::Start(e) => after_start(e, place, w),
        WordField::FileCount => after_file_count(place, w),
        WordField::Flags(k) => after_flags(k, place, w),
        WordField::BlockCount(d, k) => after_block_count(d, k, place, w),
        WordField::Block(m, k) => after_size(m, k, place, w),
        WordField::HashLength(m, k) => after_hash_length(m, k, place, w),
        WordField::OptionCount => after_option_count(place, w),
    }
}
