/// The number of an error of the system (POSIX.1-2017 XSH errno). None if the system gave none.
pub type ErrorNumber = Option<i32>;

/// The number if the system lets nobody do this, or only another user (Linux, EPERM).
pub const NOT_PERMITTED: i32 = 1;

/// The number if there is no file of a name (Linux, ENOENT).
pub const NO_ENTRY: i32 = 2;

// The number if there is a file of a name (Linux, EEXIST).
pub(crate) const IS_THERE: i32 = 17;
