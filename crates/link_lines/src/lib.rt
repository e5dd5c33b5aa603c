// The lines of inputs on a link: one step over two links, and one packet that is written.
#![tactic(auto)]

mod one_packet;
mod one_step;

pub use one_packet::packet_at;
pub use one_step::step_at;
