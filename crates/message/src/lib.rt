// The header and the seven messages of BEP v1.0: read from a slice.
#![tactic(auto)]

pub mod answer;
pub mod edition;
pub mod header;
pub mod kind;
pub mod limits;
pub mod reading;

pub use answer::{IndexSpan, Message, OptionsSpan, RequestSpan, ResponseSpan, Span};
pub use edition::Edition;
pub use header::header_of;
pub use kind::{IndexIn, RequestIn, ResponseIn, index_in, request_in, response_in};
pub use limits::{DATA_LIMIT, FILES_LIMIT, ID_LIMIT, OPTIONS_LIMIT, REPOSITORY_LIMIT};
pub use reading::read;
