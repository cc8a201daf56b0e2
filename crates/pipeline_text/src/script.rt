use command_words::{Sequence, Word};

/// The file that a command's output goes to.
#[derive(Drop)]
pub struct Target {
    pub name: Word,
    /// Whether it is written after what the file holds.
    pub append: bool,
}

/// A command: its words, and the files that its input and its output are redirected to.
#[derive(Drop)]
pub struct Cmd {
    pub words: Sequence<Word>,
    pub source: Option<Word>,
    pub target: Option<Target>,
}

/// Commands that are joined by `|`.
#[derive(Drop)]
pub struct Pipeline {
    /// Whether `!` comes before it.
    pub negated: bool,
    /// Whether `&` comes after it.
    pub background: bool,
    pub commands: Sequence<Cmd>,
}

/// A script: the names that it gives `mkfifo`, and its pipelines. The last one is in the foreground.
#[derive(Drop)]
pub struct Script {
    pub fifos: Sequence<Word>,
    pub pipelines: Sequence<Pipeline>,
}
