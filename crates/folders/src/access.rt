/// Who may open a new file, until it gets its rights.
#[derive(Clone, Copy, Debug, PartialEq, Eq)]
pub enum Access {
    /// Its owner alone.
    Private,
    /// Those whom the system allows by default (POSIX.1-2017 XCU 2.7.2, and umask).
    Ordinary,
}
