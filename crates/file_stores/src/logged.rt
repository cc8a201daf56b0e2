// Open inputs, each with a record of the bytes that its reads returned. An input is reached by its methods alone, so nothing goes through
// it that is not recorded, and nothing is recorded that did not go through it. Outputs have such a record in `waiting_outputs`.
pub(crate) use input::{LoggedInput, Waiting};

mod input;
