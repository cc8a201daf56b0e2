// The text of a script, read into the commands of its pipelines.
#![tactic(auto)]

pub use fault::{TextFault, TextFaultKind};
pub use laws::single_quotes_keep_their_text;
pub use reader::read_script;
pub use script::{Cmd, Pipeline, Script, Target};

mod command;
mod fault;
mod fifo;
mod laws;
mod lexer;
mod mark;
mod moves;
mod parser;
mod reader;
mod scanner;
mod script;
mod shape;
mod token;
