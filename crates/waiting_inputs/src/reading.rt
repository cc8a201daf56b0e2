use crate::chunk::{Buffer, Chunk};

// How far an input is with its next read.
#[derive(Drop)]
pub(crate) enum Reading {
    // The thread has not been asked. This is the buffer for the read. If there is none, the thread makes one.
    Idle(Option<Buffer>),
    // The thread has been asked.
    Asked,
    // The read gave these bytes, or the end.
    Gave(Chunk),
    // The read failed. This is its buffer, if there was memory for one.
    Failed(Option<Buffer>),
    // The thread takes no requests.
    Lost,
}
