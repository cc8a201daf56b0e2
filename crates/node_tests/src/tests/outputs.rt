// Outputs that are written here, or by a thread.
ghost use Rattle.std.specs.Prelude.{◌≤◌, length};

use collector::Batch;
use std::alloc::Global;
use std::io::{self, ErrorKind, Write};
use std::marker::Send;
use std::mem::drop;
use std::process::Abort;
use std::sync::Wait;
use std::test::Fail;
use std::thread;
use std::thread::Threads;
use waiting_outputs::{Output, tasks};

// A file that takes few bytes at a time, and fails once it is full.
#[derive(Drop)]
struct Few {
    taken: Vec<u8>,
    most: usize,
    room: usize,
}

impl Write for Few {
    fn write(&mut self, from: &[u8]) -> io::Result<usize> {
        let count = from.len().min(self.most).min(self.room);
        if count == 0 {
            return Err(io::Error::from(ErrorKind::StorageFull));
        }
        if self.taken.extend_from_slice(&from[..count]).is_err() {
            return Err(io::Error::from(ErrorKind::OutOfMemory));
        }
        self.room -= count;
        Ok(count)
    }

    fn flush(&mut self) -> io::Result<()> {
        Ok(())
    }
}

// The bytes that are handed over.
const BYTES: &[u8] = b"one\ntwo\n";

// A file that nothing was written to.
fn empty_file(alloc: Global, most: usize, room: usize) -> Few {
    Few {
        taken: Vec::new(alloc),
        most,
        room,
    }
}

// Hands bytes over to a thread that writes them to such a file. Whether all of them were written, and the bytes of the file.
fn handed_over<R: Abort + Threads + Wait + Copy + Send + 'static>(
    rt: &R,
    alloc: Global,
    most: usize,
    room: usize,
) -> Result<(bool, Vec<u8>), Fail> {
    let (giver, mut taker) = tasks(alloc)?;
    let there = *rt;
    let begun = thread::spawn(rt, move || taker.do_next(&there));
    assert!(rt; begun.is_ok());
    let mut output = Output::new(empty_file(alloc, most, room));
    let batch = Batch::Joined(Vec::from_slice(alloc, BYTES)?);
    let back = output.hand_over(rt, alloc, &giver, batch);
    assert!(rt; back.is_none());
    assert!(rt; output.is_out());
    let is_whole = output.settle(rt).is_ok();
    let Some(file) = output.into_file() else {
        return Err("the file is away")?;
    };
    Ok((is_whole, file.taken))
}

#[test]
fn a_thread_writes_all_that_is_handed_over(rt: HostRuntime) -> Result<(), Fail> {
    let (is_whole, bytes) = handed_over(&rt, rt.alloc(), 3, 100)?;
    assert!(rt; is_whole);
    assert_eq!(rt; bytes.as_slice(), BYTES);
    Ok(())
}

#[test]
fn bytes_before_a_failure_count(rt: HostRuntime) -> Result<(), Fail> {
    let (is_whole, bytes) = handed_over(&rt, rt.alloc(), 3, 5)?;
    assert!(rt; !is_whole);
    assert_eq!(rt; bytes.as_slice(), b"one\nt".as_slice());
    Ok(())
}

#[test]
fn an_output_is_written_here(rt: HostRuntime) -> Result<(), Fail> {
    let alloc = rt.alloc();
    let mut output = Output::new(empty_file(alloc, 3, 5));
    let first = output.write(BYTES).ok();
    let second = output.write(&BYTES[3..]).ok();
    assert_eq!(rt; (first, second), (Some(3), Some(2)));
    assert!(rt; output.write(&BYTES[5..]).is_err());
    assert!(rt; output.settle(&rt).is_ok() && output.finish().is_ok());
    let Some(file) = output.into_file() else {
        return Err("the file is away")?;
    };
    assert_eq!(rt; file.taken.as_slice(), b"one\nt".as_slice());
    Ok(())
}

#[test]
fn nothing_is_not_handed_over(rt: HostRuntime) -> Result<(), Fail> {
    let alloc = rt.alloc();
    let (giver, taker) = tasks(alloc)?;
    let mut output = Output::new(empty_file(alloc, 3, 5));
    let back = output.hand_over(&rt, alloc, &giver, Batch::Joined(Vec::new(alloc)));
    assert!(rt; back.is_some() && !output.is_out());
    drop(taker);
    let back = output.hand_over(
        &rt,
        alloc,
        &giver,
        Batch::Joined(Vec::from_slice(alloc, BYTES)?),
    );
    assert!(rt; back.is_some() && !output.is_out());
    Ok(())
}
