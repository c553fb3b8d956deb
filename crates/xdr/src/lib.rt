// XDR: words, hypers, opaques and strings, read at a place of a slice or put into a lent buffer; the text rule.
#![tactic(auto)]

pub mod answer;
pub mod filling;
mod number;
pub mod pad;
pub mod put;
pub mod read;
pub mod text;

pub use answer::{Refusal, refusal_of};
pub use filling::refused;
pub use pad::pad_after;
pub use put::{put_bytes, put_hyper, put_raw, put_word};
pub use read::{read_bytes, read_hyper, read_text, read_word};
pub use text::sound_up_to;
