// Files to read, and what is said where lines can't be written. A file that is no regular one is not opened: a pipe would be waited for without end.
#![tactic(auto)]

mod lost;
mod status;
mod table;

pub use lost::told;
use std::fs;
use std::io::ErrorKind;
use std::rt::Files;
pub use table::{Sizes, first, load, read_full};

// Why there is no file to read: there is none of that name, or there is one that can't be read.
#[derive(Clone, Copy, PartialEq, Eq, Debug)]
pub enum OpenError {
    Absent,
    Unreadable,
}

// Opens a regular file for reading. A name that is no text is of no file that can be read.
pub fn open<R: Files>(rt: &R, name: &[u8]) -> Result<R::File, OpenError> {
    let path = status::path_of(name).ok_or(OpenError::Unreadable)?;
    if status::is_other(status::mode_of(rt, path)) {
        return Err(OpenError::Unreadable);
    }
    fs::open(rt, path).map_err(|e| match e.kind() {
        ErrorKind::NotFound => OpenError::Absent,
        _ => OpenError::Unreadable,
    })
}
