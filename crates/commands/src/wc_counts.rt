/// The newlines, words and bytes of a stream (POSIX.1-2017 XCU wc, DESCRIPTION).
#[derive(Clone, Copy, Debug, PartialEq, Eq)]
pub struct Counts {
    pub lines: u64,
    pub words: u64,
    pub bytes: u64,
}
