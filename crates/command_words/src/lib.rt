// The words of a command: its options, operands and numbers.
#![tactic(auto)]

pub use arguments::{
    argument, excluded, input_names, is_given, names_input_once, number_given, place_of_input,
    place_of_word,
};
pub use blank::is_blank;
pub use fault::{ArgFault, BadWords};
pub use letter::Letter;
pub use numbers::read_number;
pub use options::{Options, copies, split_options};
pub use sequence::Sequence;
pub use span::Span;
pub use streams::{is_dash, is_input_path, is_output_path, is_standard_input, is_standard_output};
pub use texts::same_bytes;
pub use word::Word;

mod arguments;
mod blank;
mod fault;
mod letter;
mod numbers;
mod options;
mod sequence;
mod span;
mod streams;
mod texts;
mod word;
