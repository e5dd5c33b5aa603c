// The lines of messages inside: one that is taken apart and written back, and one that is written from its fields.
#![tactic(auto)]

mod one_message;
mod one_write;

pub use one_message::message_at;
pub use one_write::write_at;
