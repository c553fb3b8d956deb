// Writing the seven messages of BEP v1.0 into a lent buffer, and those of the old edition that differ: its Response, Ping and Pong are the same.
//
// Each writer takes any fields and any buffer. It checks the Message ID, then the fields as reading the message would, then the room; only
// a message that passes all of them changes the buffer, and only its first bytes, as many as the answer says.
#![tactic(auto)]

pub mod check;
pub mod write;

pub use check::check_text;
pub use write::{
    write_index, write_index_update, write_old_index, write_old_index_update, write_old_request,
    write_options, write_ping, write_pong, write_request, write_response,
};
