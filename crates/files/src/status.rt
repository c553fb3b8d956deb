// What is known of a file before it is opened.
ghost use Rattle.std.specs.Prelude.{◌≡◌, IfSome};
ghost use Rattle.files.specs.Mode.{is_other};

use std::fs;
use std::os::unix::fs::MetadataExt;
use std::rt::Files;

// A name as a path, which is text.
pub fn path_of(name: &[u8]) -> Option<&str>
    ensures { IfSome result (λ path. path.now ≡ name.now) }
{
    str::from_utf8(name).ok()
}

// A file's mode, or 0 where there is no such file.
pub fn mode_of(rt: &impl Files, path: &str) -> u32 {
    fs::metadata(rt, path).map_or(0, |status| status.mode())
}

// Whether a mode is of a file that is there and is no regular one.
pub fn is_other(mode: u32) -> bool
    ensures { result ≡ is_other mode }
{
    let kind = mode / 4096 % 16;
    kind != 0 && kind != 8
}
