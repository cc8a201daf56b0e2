ghost use Rattle.std.specs.Prelude.{◌≡◌, ◌≤◌, length, take, None, IfOk, IfErr};
ghost use Rattle.std.specs.List.{concat};
ghost use Rattle.std.specs.Io.KnownBytes.{Appends};
ghost use Rattle.collector.specs.Files.{batch_bytes};

use crate::done::{Done, Failed};
use crate::line::{Debtor, Owing, ends};
use collector::Batch;
use crossbeam_channel::{Receiver, Sender, bounded};
use machine::{Piece, split_first};
use std::alloc::{AllocError, Global};
use std::io::Write;
use std::marker::{Brand, Model};
use std::sync::Wait;

// A file, bytes to write to it, and who is owed the answer. Contracts see the bytes, and what is owed.
#[derive(Drop)]
struct Task<F: Write + Drop> {
    file: F,
    batch: Batch,
    debtor: Debtor<F>,
}

impl<F: Write + Drop> Model for Task<F> {
    ghost use Rattle.std.specs.Prelude.{◌≡◌};
    ghost use Rattle.collector.specs.Files.{batch_bytes};
    ghost use Rattle.waiting_outputs.specs.inner.Writes.{Tasked};

    ghost Value = { Tasked };

    ghost view = { λ t. record { owed = t.debtor; batch = t.batch } };

    ghost invariant = { λ t. t.debtor
        ≡ record { before = F.contents t.file; bytes = batch_bytes t.batch } };
}

/// Hands bytes over to one thread.
#[derive(Drop)]
pub struct Giver<F: Write + Drop> {
    to: Sender<Task<F>>,
}

/// What is handed over to one thread, as it takes that.
#[derive(Drop)]
pub struct Taker<F: Write + Drop> {
    from: Receiver<Task<F>>,
}

// At most one task waits for the thread.
const TASKS: usize = 1;

/// The two ends of a channel to one thread: one hands bytes over, and the other writes them.
pub fn tasks<F: Write + Drop>(alloc: Global) -> Result<(Giver<F>, Taker<F>), AllocError> {
    let (to, from) = bounded(alloc, TASKS)?;
    Ok((Giver { to }, Taker { from }))
}

impl<F: Write + Drop> Taker<F> {
    /// Waits until bytes are handed over, writes them, and gives the answer. Returns false if nobody hands any over any more, or nobody takes the
    /// answer.
    pub fn do_next<R: Wait>(&mut self, rt: &R) -> bool {
        match self.from.recv(rt) {
            Ok(task) => task.write_and_answer(rt),
            Err(_) => false,
        }
    }
}

// Hands bytes over, to be written to this file. File and bytes come back if memory was refused or the thread has ended.
pub(crate) fn hand<R: Wait, F: Write + Drop>(
    rt: &R,
    alloc: Global,
    hand: &Giver<F>,
    file: F,
    batch: Batch,
) -> Result<Owing<F>, (F, Batch)>
    ensures owed { IfOk result
        (λ owing. owing ≡ record { before = F.contents file; bytes = batch_bytes batch }) }
    ensures refused { IfErr result (λ back. (F.contents back.0 ≡ F.contents file) × (back.1 ≡ batch)) }
{
    let Ok((owing, debtor)) = ends::<F, Brand>(alloc, &file, &batch) else {
        return Err((file, batch));
    };
    let task = Task {
        file,
        batch,
        debtor,
    };
    match hand.to.send(rt, task) {
        Ok(()) => Ok(owing),
        Err(refused) => Err(refused.into_inner().into_parts()),
    }
}

impl<F: Write + Drop> Task<F> {
    // The file and the bytes again.
    fn into_parts(self) -> (F, Batch)
        ensures owed { self.owed ≡ record { before = F.contents result.0; bytes = batch_bytes result.1 } }
        ensures batch { result.1 ≡ self.batch }
    {
        let Task {
            file,
            batch,
            debtor: _,
        } = self;
        (file, batch)
    }

    // Writes the bytes, and gives the answer. Returns false if nobody takes it.
    fn write_and_answer<R: Wait>(self, rt: &R) -> bool {
        let Task {
            mut file,
            batch,
            debtor,
        } = self;
        let (count, error) = write_batch(&mut file, &batch);
        let done = Done {
            file,
            batch,
            count,
            error,
        };
        debtor.give(rt, done)
    }
}

// Writes all of a batch. Returns how many bytes were taken, and the failure if those are not all.
fn write_batch<F: Write>(file: &mut F, batch: &Batch) -> (usize, Option<Failed>)
    ensures count { result.0 ≤ length (batch_bytes batch.now) }
    ensures written { Appends (F.contents file.old) (F.contents file.new)
        (take result.0 (batch_bytes batch.now)) }
    ensures whole { result.1 ≡ None → result.0 ≡ length (batch_bytes batch.now) }
{
    match batch {
        Batch::Joined(bytes) => write_whole(file, bytes.as_slice()),
        Batch::Single(piece) => write_whole(file, piece.bytes()),
        Batch::Several(pieces) => write_pieces(file, pieces.as_slice()),
    }
}

// Writes all of these pieces, one after the other. Returns how many bytes were taken, and the failure if those are not all.
fn write_pieces<F: Write>(file: &mut F, pieces: &[Piece]) -> (usize, Option<Failed>)
    requires few { length pieces.now ≤ 8 }
    ensures count { result.0 ≤ length (concat pieces.now) }
    ensures written { Appends (F.contents file.old) (F.contents file.new)
        (take result.0 (concat pieces.now)) }
    ensures whole { result.1 ≡ None → result.0 ≡ length (concat pieces.now) }
{
    let mut left = pieces;
    let mut taken = 0;
    while let Some((first, after)) = split_first(left) {
        let (count, error) = write_whole(file, first.bytes());
        taken += count;
        if error.is_some() {
            return (taken, error);
        }
        left = after;
    }
    (taken, None)
}

// Writes all of the bytes, each short write followed by the rest. Returns how many were taken, and the failure if those are not all.
fn write_whole<F: Write>(file: &mut F, bytes: &[u8]) -> (usize, Option<Failed>)
    ensures count { result.0 ≤ length bytes.now }
    ensures written { Appends (F.contents file.old) (F.contents file.new) (take result.0 bytes.now) }
    ensures whole { result.1 ≡ None → result.0 ≡ length bytes.now }
{
    let mut at = 0;
    while at < bytes.len() {
        match file.write(&bytes[at..]) {
            Ok(0) => return (at, Some(Failed { number: None })),
            Ok(count) => at += count,
            Err(error) => return (at, Some(Failed::of(&error))),
        }
    }
    (at, None)
}
