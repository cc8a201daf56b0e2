/// Why a node cannot go on.
#[derive(Clone, Copy, Debug, PartialEq, Eq)]
pub enum NodeFault {
    /// A read of the source's file failed.
    ReadFault,
    /// A write to the sink's file failed.
    WriteFault,
    /// A number that the stage is to write is above 2^63 - 1.
    CountTooLarge,
    /// Memory was refused.
    NoMemory,
}

/// How a node is doing.
#[derive(Clone, Copy, Debug, PartialEq, Eq)]
pub enum NodeState {
    /// It can still be stepped.
    Running,
    /// It has put all that it had to put, or written all that it had to write.
    Ended,
    /// Nobody reads its output any more.
    Broken,
    /// It cannot go on.
    Failed(NodeFault),
}
