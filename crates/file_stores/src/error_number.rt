pub use held_outputs::ErrorNumber;

// The number if the reader of a pipe has ended (Linux, EPIPE).
pub(crate) const BROKEN_PIPE: i32 = 32;
