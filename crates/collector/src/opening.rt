ghost use Rattle.std.specs.Prelude.{◌≡◌, ◌≤◌, ℕ, Bool, [], ◌++◌, length, take, None, Some, IsSome, IfSome, IfNone, IfOk, IfErr, IsOk, IsErr, IsErrOf, OnOk, OnErr, IsTrue, false};
ghost use Rattle.collector.specs.InputEnds.{LeavesOut, LeavesRest};
ghost use Rattle.collector.specs.Places.{BeginsOutputs, PutsInPlace, LeavesOutputs};
ghost use Rattle.collector.specs.Files.{batch_bytes, FilesShown, HandsOver, log_of, nothing_read, out_of, reads_of, writes_of, SameFiles, SettlesAll, SettlesSome, OpensInput, OpensOutput, OpensDestination, OpensHeld, Refuses, OpensNothing, ReadsOnly, WritesOnly, Reads, one_more};

use crate::batch::Batch;
use crate::names::Opening;
use crate::needed::NeededEnd;
use machine::NoMemory;
use run_types::{InName, OutName, Placing};
use std::alloc::AllocError;
use thiserror::Error;

/// Why a file was not opened.
#[derive(Clone, Copy, Debug, PartialEq, Eq, Error)]
pub enum NotOpened {
    /// It cannot be opened.
    #[error("refused")]
    Refused,
    /// Memory was refused.
    #[error("NoMemory")]
    NoMemory,
}

impl From<NoMemory> for NotOpened {
    ghost use Rattle.std.specs.Prelude.{◌≡◌};
    ghost use Rattle.collector.specs.declared.opening.NotOpened.TheVariants as not_opened;

    ghost from_gives = { λ _ given. given ≡ not_opened.NoMemory };

    fn from(_error: NoMemory) -> NotOpened {
        NotOpened::NoMemory
    }
}

impl From<AllocError> for NotOpened {
    ghost use Rattle.std.specs.Prelude.{◌≡◌};
    ghost use Rattle.collector.specs.declared.opening.NotOpened.TheVariants as not_opened;

    ghost from_gives = { λ _ given. given ≡ not_opened.NoMemory };

    fn from(_error: AllocError) -> NotOpened {
        NotOpened::NoMemory
    }
}

/// A read or a write failed.
#[derive(Clone, Copy, Debug, PartialEq, Eq, Error)]
#[error("failed")]
pub struct IoFailed;

/// The files of a run. An opening returns the number of the open file.
pub trait Files: Drop {
    /// Whether contracts know what the file of each name holds, and what the standard input has to give.
    ghost contents_known: { Bool };

    /// What the files show of themselves.
    ghost shows: { Self → FilesShown };

    /// Opens an input.
    fn open_in(&mut self, name: &InName) -> Result<usize, NotOpened>
        ensures ok { IfOk result
            (λ file. OpensInput name.now file (shows self.old) (shows self.new)) }
        ensures held { IsTrue contents_known
            → IfOk result
            (λ file. OpensHeld name.now file (shows self.old) (shows self.new)) }
        ensures refused { IsErrOf result NotOpened.Refused
            → Refuses (Opening.Input name.now None) (shows self.old) (shows self.new) }
        ensures no_memory { IsErrOf result NotOpened.NoMemory
            → OpensNothing (shows self.old) (shows self.new) };

    /// Leaves out a front of an input that has not been read, if its reader needs only this end of
    /// it. It may leave out nothing, and does so if it cannot tell how much. No read counts as failed.
    fn leave_out_front(&mut self, _file: usize, _needed: NeededEnd)
        requires opened { IsSome ((shows self.old).inputs _file) }
        requires unread { reads_of (shows self.old) _file ≡ nothing_read }
        ensures { LeavesOut _file _needed (shows self.old) (shows self.new) }
    {}

    /// Leaves what follows the first lines of an input, this many, in its file, if its reader needs
    /// those lines alone and nothing of it has been read. A read that would take more of it ends with
    /// the last of these lines, and the next one is at the end. No read counts as failed.
    fn leave_rest(&mut self, file: usize, lines: u64)
        requires opened { IsSome ((shows self.old).inputs file) }
        requires unread { reads_of (shows self.old) file ≡ nothing_read }
        ensures { LeavesRest file lines (shows self.old) (shows self.new) };

    /// From now on, outputs that are opened get their content at the time of `placing`. No file is touched.
    fn begin_outputs(&mut self, placing: Placing) -> Result<(), NoMemory>
        ensures ok { OnOk result
            (BeginsOutputs placing (shows self.old) (shows self.new)) }
        ensures no_memory { OnErr result (OpensNothing (shows self.old) (shows self.new)) };

    /// Puts an output in place, if it is held back: its file holds all that was written to it from now on. It fails if the system refuses
    /// that. Then it counts as not in place. Files in memory are unchanged then. A name of the system is the old file or the new one (rename(2), BUGS).
    fn put_in_place(&mut self, file: usize) -> Result<(), IoFailed>
        ensures ok { OnOk result (PutsInPlace file (shows self.old) (shows self.new)) }
        ensures failed { OnErr result
            (SameFiles (shows self.old) (shows self.new)
            × ((shows self.new).failures ≡ one_more (shows self.old).failures)) }
        ensures unheld { (shows self.old).held_back ≡ false → OnErr result ⊥ };

    /// Leaves each output that is held back and is not in place: its file is unchanged. No output is held back from now on.
    fn leave_outputs(&mut self)
        ensures { LeavesOutputs (shows self.old) (shows self.new) };

    /// Opens an output.
    fn open_out(&mut self, name: &OutName) -> Result<usize, NotOpened>
        ensures ok { IfOk result
            (λ file. OpensOutput name.now file (shows self.old) (shows self.new)) }
        ensures holds { IsTrue contents_known
            → IfOk result
            (λ file. OpensDestination name.now file (shows self.old) (shows self.new)) }
        ensures refused { IsErrOf result NotOpened.Refused
            → Refuses (Opening.Output name.now None) (shows self.old) (shows self.new) }
        ensures no_memory { IsErrOf result NotOpened.NoMemory
            → OpensNothing (shows self.old) (shows self.new) };

    /// Reads into the slice, and returns how many bytes of it were read: 0 for a nonempty slice
    /// only at the end.
    fn read(&mut self, file: usize, into: &mut [u8]) -> Result<usize, IoFailed>
        requires opened { IsSome ((shows self.old).inputs file) }
        ensures count { IfOk result (λ n. n ≤ length into.new) }
        ensures only { ReadsOnly file (shows self.old) (shows self.new) }
        ensures told { IfOk result
            (λ n. Reads (length into.new) (take n into.new) (reads_of (shows self.old) file)
            (reads_of (shows self.new) file)) }
        ensures failed { OnErr result
            (SameFiles (shows self.old) (shows self.new)
            × ((shows self.new).failures ≡ one_more (shows self.old).failures)) }
        ensures failures { OnOk result ((shows self.new).failures ≡ (shows self.old).failures) };

    /// Takes the bytes of a read that was made ahead, without copying them, if there are some, and at most this many. Otherwise nothing
    /// happens.
    fn take_read(&mut self, _file: usize, _most: usize) -> Option<Vec<u8>>
        requires opened { IsSome ((shows self.old).inputs _file) }
        ensures only { ReadsOnly _file (shows self.old) (shows self.new) }
        ensures long { IfSome result
            (λ bytes. (1 ≤ length bytes.items) × (length bytes.items ≤ _most)) }
        ensures told { IfSome result
            (λ bytes. Reads (length bytes.items) bytes.items (reads_of (shows self.old) _file)
            (reads_of (shows self.new) _file)) }
        ensures none { IfNone result (shows self.new ≡ shows self.old) }
        ensures failures { (shows self.new).failures ≡ (shows self.old).failures }
    {
        None
    }

    /// Writes from the slice, and returns how many bytes of it, from the first, were taken: at
    /// least 1 of a nonempty one. It fails if bytes are out that were handed over.
    fn write(&mut self, file: usize, from: &[u8]) -> Result<usize, IoFailed>
        requires opened { IsSome ((shows self.old).outputs file) }
        ensures count { IfOk result (λ n. (n ≤ length from.now) × (1 ≤ length from.now → 1 ≤ n)) }
        ensures only { WritesOnly file (shows self.old) (shows self.new) }
        ensures told { IfOk result
            (λ n. writes_of (shows self.new) file
            ≡ writes_of (shows self.old) file ++ take n from.now) }
        ensures free { IsOk result → out_of (shows self.old) file ≡ [] }
        ensures out { out_of (shows self.new) file ≡ out_of (shows self.old) file }
        ensures failed { OnErr result
            (SameFiles (shows self.old) (shows self.new)
            × ((shows self.new).failures ≡ one_more (shows self.old).failures)) }
        ensures failures { OnOk result ((shows self.new).failures ≡ (shows self.old).failures) };

    /// Hands bytes over that are to be written to this output, and does not wait for that. None counts as written until `settle`
    /// says so. They come back, and nothing changed, if they are to be written by `write`, or if others are out.
    fn hand_over(&mut self, _file: usize, batch: Batch) -> Result<(), Batch>
        requires opened { IsSome ((shows self.old).outputs _file) }
        ensures handed { OnOk result
            (HandsOver _file (batch_bytes batch) (shows self.old) (shows self.new)) }
        ensures back { IfErr result (λ back. back ≡ batch) }
        ensures same { OnErr result (shows self.new ≡ shows self.old) }
    {
        Err(batch)
    }

    /// Waits until all that was handed over to this output is written, or a write of it failed. Returns it, as room for other bytes. If
    /// nothing is out, or no such output is open, nothing happens.
    fn settle(&mut self, file: usize) -> Result<Option<Batch>, IoFailed>
        ensures only { IsSome ((shows self.old).outputs file)
            → WritesOnly file (shows self.old) (shows self.new) }
        ensures all { OnOk result (SettlesAll (log_of (shows self.old) file) (log_of (shows self.new) file)) }
        ensures some { OnErr result
            (SettlesSome (log_of (shows self.old) file) (log_of (shows self.new) file)) }
        ensures idle { out_of (shows self.old) file ≡ [] → IsOk result × (shows self.new ≡ shows self.old) }
        ensures failed { OnErr result
            ((shows self.new).failures ≡ one_more (shows self.old).failures) }
        ensures failures { OnOk result ((shows self.new).failures ≡ (shows self.old).failures) };

    /// Ends an output after all that is written to it, before it is closed. It fails if the system says
    /// only now that the bytes are not stored (POSIX.1-2017 XSH close, EIO). No byte is written.
    fn finish_output(&mut self, _file: usize) -> Result<(), IoFailed>
        requires opened { IsSome ((shows self.old).outputs _file) }
        ensures same { SameFiles (shows self.old) (shows self.new) }
        ensures failed { OnErr result
            ((shows self.new).failures ≡ one_more (shows self.old).failures) }
        ensures failures { OnOk result ((shows self.new).failures ≡ (shows self.old).failures) }
    {
        Ok(())
    }

    /// How many reads, writes and ends of outputs have failed, up to 2^64 - 1.
    fn failures(&self) -> u64
        ensures { result ≡ (shows self.now).failures };

    /// Learns that the pipe with this number grew, and how many items it can hold now. Nothing that
    /// the files show changes.
    fn note_growth(&mut self, _pipe: usize, _capacity: usize)
        ensures { shows self.new ≡ shows self.old }
    {}
}
