use std::fs::File;
use std::io::StdinLock;
use std::rt;
use std::rt::Clock;
use std::sync::Wait;

/// What the files of the host ask of a runtime: the files of the system, its standard streams, a clock, and leave to wait for its threads.
pub trait HostHandle: rt::Files<File = File>
    + Input<Reader = StdinLock<'static>>
    + Print
    + Wait
    + Clock
    + Copy
    + Drop {}

impl<
    R: rt::Files<File = File>
        + Input<Reader = StdinLock<'static>>
        + Print
        + Wait
        + Clock
        + Copy
        + Drop,
> HostHandle for R {}
