use command_words::Word;

// What joins a branch to an input.
#[derive(Clone, Copy, Debug, PartialEq, Eq)]
pub(crate) enum Channel {
    // The FIFO that has this place among those that are made.
    Fifo(usize),
    // The `|` before the stage with this index.
    Bar(usize),
}

// What an input reads, or what a branch is written to: nothing, the standard input or output of the
// run, a file, or what comes or goes by a channel. No branch goes to nothing, and no input appends.
#[derive(Drop)]
pub(crate) enum Place {
    Nothing,
    Standard,
    File { name: Word, append: bool },
    Through(Channel),
}

// An end of a stage, which is an input or a branch: its number among those of the stage, and its place.
#[derive(Drop)]
pub(crate) struct End {
    pub(crate) stage: usize,
    pub(crate) number: usize,
    pub(crate) place: Place,
}
