use run_types::{InName, OutName};

/// An opening and its answer: the number of the open file, or none if it was refused.
#[derive(Debug, Drop)]
pub enum Opening {
    /// Of an input.
    Input(InName, Option<usize>),
    /// Of an output.
    Output(OutName, Option<usize>),
}
