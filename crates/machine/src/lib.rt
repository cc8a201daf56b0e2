// Pieces of a stream, and the law of a machine: a filter that takes pieces in and puts pieces out.
#![tactic(auto)]

pub use appending::{append, append_byte, clear_and_shrink, room_for};
pub use blocks::Blocks;
pub use count::add_count;
pub use front::front_lines;
pub use in_order::InOrder;
pub use laws::{
    a_finished_machine_has_made_its_answer, lines_go_on, made_stays_right,
    streams_have_one_list_of_lines,
};
pub use lines::{find_from, line_content, newlines};
pub use lists::{prefix, skip, split_first};
pub use memory::NoMemory;
pub use one_input::OneInput;
pub use piece::{Item, Piece};
pub use protocol::{Machine, Presence, StageFault, Want, status};
pub use queue::Pieces;
pub use run::run_whole;

mod appending;
mod blocks;
mod count;
mod front;
mod in_order;
mod laws;
mod lines;
mod lists;
mod memory;
mod one_input;
mod piece;
mod protocol;
mod queue;
mod run;
