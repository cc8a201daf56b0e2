/// When the outputs of a run get what is written to them.
#[derive(Clone, Copy, Debug, PartialEq, Eq)]
pub enum Placing {
    /// As it is written.
    AsWritten,
    /// Once the run has finished: all of them, or none.
    AtEnd,
    /// The same, and the files and their folders are stored then, so that they outlast a power cut.
    AtEndStored,
}
