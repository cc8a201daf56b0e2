ghost use Rattle.std.specs.Prelude.{◌≡◌, ◌+◌, ◌<◌, ◌≤◌, ◌↔◌, [], ◌∷◌, ◌++◌, length, true, false, None, Some, IfOk, OnOk, OnErr, IsOk, IsErr, IsErrOf, IsSome, IsTrue, take, min, option_and_then, List, ℕ};
ghost use Rattle.std.specs.Option.{option_copied};
ghost use Rattle.collector.specs.Files.{one_more, nothing_read};
ghost use Rattle.collector.specs.InputEnds.{IsLeftOf};
ghost use Rattle.file_stores.specs.inner.Counts.{no_calls, one_call, is_failing};
ghost use Rattle.file_stores.specs.inner.Memory.{Stored, content_of, Holds, MemoryShown, is_forbidden, input_content, is_output_refused, OpensContent, OpensTarget, with_opening, ReadsContent, WritesContent, open_input, open_output, target_of, Prepares, Grows, LeavesOutInMemory, LeavesRestInMemory};
ghost use Rattle.file_stores.specs.inner.Ends.{end_of};
ghost use Rattle.file_stores.specs.inner.Opened.{IsWithin, read_log, target_at};
ghost use Rattle.file_stores.specs.inner.Former.{Puts, BeginsInMemory, PlacesInMemory, LeavesInMemory};

use crate::calls::Calls;
use crate::contents::Contents;
use crate::former::{former_of, put_in};
use crate::opened::{OpenInput, OpenOutput, target_at};
use collector::{Batch, Files, IoFailed, NeededEnd, NotOpened, Opening, Readiness};
use command_words::Word;
use machine::NoMemory;
use run_types::{InName, OutName, Placing};
use std::alloc::Global;
use std::marker::Model;

/// Files that are kept in memory, with a standard input and output. They tell which bytes they gave and took.
#[derive(Drop)]
pub struct MemoryFiles {
    alloc: Global,
    contents: Contents,
    input: Vec<u8>,
    output: Vec<u8>,
    forbidden: Vec<Word>,
    openings: Vec<Opening>,
    inputs: Vec<OpenInput>,
    outputs: Vec<OpenOutput>,
    failures: u64,
    reads: Calls,
    writes: Calls,
    // If outputs are held back: what each file held when that began, and what was put in place since.
    former: Option<Contents>,
}

impl Model for MemoryFiles {
    ghost use Rattle.std.specs.Prelude.{◌≤◌};
    ghost use Rattle.file_stores.specs.inner.Memory.{MemoryShown};

    ghost Value = { MemoryShown };

    ghost view = { λ m. record {
      contents = m.contents;
      input = m.input.items;
      output = m.output.items;
      forbidden = m.forbidden.items;
      openings = m.openings.items;
      inputs = m.inputs.items;
      outputs = m.outputs.items;
      failures = m.failures;
      reads = m.reads;
      writes = m.writes;
      former = m.former;
    } };

    ghost invariant = { λ m. (1 ≤ m.reads.most) × (1 ≤ m.writes.most) };
}

impl MemoryFiles {
    ghost use Rattle.std.specs.Prelude.{◌-◌, ◌^◌};

    /// No file, an empty standard input, and no limit on a read or a write.
    pub fn new(alloc: Global) -> MemoryFiles
        ensures { result
            ≡ record {
              contents = [];
              input = [];
              output = [];
              forbidden = [];
              openings = [];
              inputs
                  = [];
              outputs = [];
              failures = 0;
              reads = no_calls;
              writes = no_calls;
              former = None;
            } }
    {
        MemoryFiles {
            alloc,
            contents: Contents::new(alloc),
            input: Vec::new(alloc),
            output: Vec::new(alloc),
            forbidden: Vec::new(alloc),
            openings: Vec::new(alloc),
            inputs: Vec::new(alloc),
            outputs: Vec::new(alloc),
            failures: 0,
            reads: Calls::new(),
            writes: Calls::new(),
            former: None,
        }
    }

    /// The file of this name holds these bytes from now on.
    pub fn add(&mut self, name: &[u8], bytes: &[u8]) -> Result<(), NoMemory>
        ensures content { OnOk result
            (Holds name.now bytes.now self.old.contents self.new.contents) }
        ensures rest { OnOk result (self.new ≡ record self.old { contents = self.new.contents }) }
        ensures err { OnErr result (self.new ≡ self.old) }
    {
        self.contents.put(name, false, bytes)
    }

    /// The standard input holds these bytes from now on.
    pub fn set_input(&mut self, bytes: &[u8]) -> Result<(), NoMemory>
        ensures ok { OnOk result (self.new ≡ record self.old { input = bytes.now }) }
        ensures err { OnErr result (self.new ≡ self.old) }
    {
        self.input = Vec::from_slice(self.alloc, bytes)?;
        Ok(())
    }

    /// No opening is given this name from now on.
    pub fn forbid(&mut self, name: &[u8]) -> Result<(), NoMemory>
        ensures ok { OnOk result
            (self.new ≡ record self.old { forbidden = self.old.forbidden ++ name.now ∷ [] }) }
        ensures err { OnErr result (self.new ≡ self.old) }
    {
        let word = Word::from_vec(Vec::from_slice(self.alloc, name)?);
        self.forbidden.push(word)?;
        Ok(())
    }

    /// A read returns at most this many bytes from now on.
    pub fn limit_reads(&mut self, most: usize)
        requires { 1 ≤ most }
        ensures { self.new ≡ record self.old { reads = record self.old.reads { most = most } } }
    {
        self.reads.most = most;
    }

    /// A write takes at most this many bytes from now on.
    pub fn limit_writes(&mut self, most: usize)
        requires { 1 ≤ most }
        ensures { self.new ≡ record self.old { writes = record self.old.writes { most = most } } }
    {
        self.writes.most = most;
    }

    /// The read of this number, counted from 1, is to fail.
    pub fn fail_read(&mut self, call: u64)
        ensures { self.new
            ≡ record self.old { reads = record self.old.reads { failing = Some call } } }
    {
        self.reads.failing = Some(call);
    }

    /// The write of this number, counted from 1, is to fail.
    pub fn fail_write(&mut self, call: u64)
        ensures { self.new
            ≡ record self.old { writes = record self.old.writes { failing = Some call } } }
    {
        self.writes.failing = Some(call);
    }

    /// What the file of this name holds, if there is one.
    pub fn content(&self, name: &[u8]) -> Option<&[u8]>
        ensures { option_copied result ≡ content_of self.now.contents name.now }
    {
        self.contents.get(name)
    }

    /// What was written to the standard output.
    pub fn output(&self) -> &[u8]
        ensures { result.now ≡ self.now.output }
    {
        self.output.as_slice()
    }

    /// How many reads there were, up to 2^64 - 1.
    pub fn reads(&self) -> u64
        ensures { result ≡ self.now.reads.made }
    {
        self.reads.made
    }

    // Whether no opening is given this name.
    fn is_forbidden(&self, name: &Word) -> bool
        ensures { result ≡ is_forbidden self.now name.now }
    {
        self.forbidden
            .iter()
            .any(|word| word.bytes() == name.bytes())
    }

    // What an input of this name is to give, if it may be opened.
    fn input_content(&self, name: &InName) -> Option<&[u8]>
        ensures { option_copied result ≡ input_content self.now name.now }
    {
        match name {
            InName::Standard => Some(self.input.as_slice()),
            InName::File(name) => {
                if self.is_forbidden(name) {
                    return None;
                }
                self.contents.get(name.bytes())
            }
        }
    }

    // Opens an input.
    fn open_input(&mut self, name: &InName) -> Result<usize, NotOpened>
        ensures ok { IfOk result (λ file. OpensContent name.now file self.old self.new) }
        ensures refused { IsErrOf result NotOpened.Refused
            → (input_content self.old name.now ≡ None)
            × (self.new ≡ with_opening (Opening.Input name.now None) self.old) }
        ensures no_memory { IsErrOf result NotOpened.NoMemory → self.new ≡ self.old }
    {
        let entry = name.copied(self.alloc)?;
        self.openings.reserve(1)?;
        self.inputs.reserve(1)?;
        let Some(content) = self.input_content(name) else {
            self.openings.push_reserved(Opening::Input(entry, None));
            return Err(NotOpened::Refused);
        };
        let opened = OpenInput::new(self.alloc, content)?;
        let number = self.inputs.len();
        self.openings
            .push_reserved(Opening::Input(entry, Some(number)));
        self.inputs.push_reserved(opened);
        Ok(number)
    }

    // Leaves out the front of an open input that is not needed. Nothing of it has been read.
    fn leave_out_content(&mut self, file: usize, needed: NeededEnd)
        requires opened { file < length self.old.inputs }
        requires unread { read_log (open_input self.old file) ≡ nothing_read }
        ensures after { LeavesOutInMemory file needed self.old self.new }
        ensures left { IsLeftOf needed (open_input self.old file).content
            (end_of needed (open_input self.old file).content) }
        ensures first { (open_input self.old file).at ≡ 0 }
    {
        self.inputs[file].leave_out_front(needed);
    }

    // Keeps the first lines of an open input. Nothing of it has been read.
    fn leave_rest_content(&mut self, file: usize, lines: u64)
        requires opened { file < length self.old.inputs }
        requires unread { read_log (open_input self.old file) ≡ nothing_read }
        ensures after { LeavesRestInMemory file lines self.old self.new }
        ensures first { (open_input self.old file).at ≡ 0 }
    {
        self.inputs[file].leave_rest(lines);
    }

    // Holds outputs back from now on, or not.
    fn begin_former(&mut self, placing: Placing) -> Result<(), NoMemory>
        ensures { BeginsInMemory placing result self.old self.new }
    {
        self.former = former_of(&self.contents, placing)?;
        Ok(())
    }

    // Puts what the file of an output holds in its place, if outputs are held back. A failure is counted.
    fn place_content(&mut self, file: usize) -> Result<(), IoFailed>
        ensures { PlacesInMemory file result self.old self.new }
    {
        if self.put_content(file).is_err() {
            self.failures = self.failures.saturating_add(1);
            return Err(IoFailed);
        }
        Ok(())
    }

    // The same, and no failure is counted.
    fn put_content(&mut self, file: usize) -> Result<(), NoMemory>
        ensures puts { OnOk result
            (Puts (target_at self.old.outputs file) self.old.contents self.old.former
            self.new.former) }
        ensures only { OnOk result (self.new ≡ record self.old { former = self.new.former }) }
        ensures needs { OnErr result
            (IsSome self.old.former
            × IsSome (option_and_then (content_of self.old.contents)
            (target_at self.old.outputs file))) }
        ensures err { OnErr result (self.new ≡ self.old) }
    {
        match target_at(self.outputs.as_slice(), file) {
            Some(name) => put_in(&mut self.former, &self.contents, name),
            None => Ok(()),
        }
    }

    // Each file holds what it held in its place, if outputs are held back. None is held back any longer.
    fn leave_former(&mut self)
        ensures { LeavesInMemory self.old self.new }
    {
        if let Some(former) = self.former.take() {
            self.contents = former;
        }
    }

    // Opens an output.
    fn open_output(&mut self, name: &OutName) -> Result<usize, NotOpened>
        ensures ok { IfOk result (λ file. OpensTarget name.now file self.old self.new) }
        ensures refused { IsErrOf result NotOpened.Refused
            → (is_output_refused self.old name.now ≡ true)
            × (self.new ≡ with_opening (Opening.Output name.now None) self.old) }
        ensures no_memory { IsErrOf result NotOpened.NoMemory → self.new ≡ self.old }
    {
        let entry = name.copied(self.alloc)?;
        self.openings.reserve(1)?;
        self.outputs.reserve(1)?;
        if self.is_output_refused(name) {
            self.openings.push_reserved(Opening::Output(entry, None));
            return Err(NotOpened::Refused);
        }
        let opened = prepare(self.alloc, &mut self.contents, name)?;
        let number = self.outputs.len();
        self.openings
            .push_reserved(Opening::Output(entry, Some(number)));
        self.outputs.push_reserved(opened);
        Ok(number)
    }

    // Whether an output of this name is refused.
    fn is_output_refused(&self, name: &OutName) -> bool
        ensures { result ≡ is_output_refused self.now name.now }
    {
        match name {
            OutName::Standard => false,
            OutName::File { name, append: _ } => self.is_forbidden(name),
        }
    }

    // Gives the next bytes of an open input.
    fn read_content(&mut self, file: usize, into: &mut [u8]) -> Result<usize, IoFailed>
        requires opened { file < length self.old.inputs }
        ensures ok { IfOk result
            (λ count. ReadsContent file count into.old into.new self.old self.new) }
        ensures within { IfOk result (λ count. IsWithin (open_input self.old file)) }
        ensures most { 1 ≤ self.old.reads.most }
        ensures fails { IsErr result ↔ IsTrue (is_failing self.old.reads) }
        ensures failed { OnErr result
            ((self.new
            ≡ record self.old
            { reads = one_call self.old.reads; failures = one_more self.old.failures })
            × (into.new ≡ into.old)) }
    {
        let most = self.reads.most;
        if self.reads.begin() {
            self.failures = self.failures.saturating_add(1);
            return Err(IoFailed);
        }
        Ok(self.inputs[file].read(into, most))
    }

    // Takes bytes for an open output.
    fn write_content(&mut self, file: usize, from: &[u8]) -> Result<usize, IoFailed>
        requires opened { file < length self.old.outputs }
        ensures ok { IfOk result
            (λ count. (count ≡ min (length from.now) self.old.writes.most)
            × WritesContent file (take count from.now) self.old self.new) }
        ensures most { 1 ≤ self.old.writes.most }
        ensures fails { IsTrue (is_failing self.old.writes) → IsErr result }
        ensures failed { OnErr result
            (self.new
            ≡ record self.old
            { writes = one_call self.old.writes; failures = one_more self.old.failures }) }
    {
        let count = from.len().min(self.writes.most);
        if !self.writes.begin() && self.take(file, &from[..count]).is_ok() {
            return Ok(count);
        }
        self.failures = self.failures.saturating_add(1);
        Err(IoFailed)
    }

    // Puts bytes after what was written to an open output.
    fn take(&mut self, file: usize, bytes: &[u8]) -> Result<(), NoMemory>
        requires opened { file < length self.old.outputs }
        ensures ok { OnOk result
            (WritesContent file bytes.now self.old
            (record self.new { writes = one_call self.old.writes })) }
        ensures calls { self.new.writes ≡ self.old.writes }
        ensures err { OnErr result (self.new ≡ self.old) }
    {
        self.outputs[file].record(bytes)?;
        let grown = grow(
            &mut self.contents,
            &mut self.output,
            &self.outputs[file],
            bytes,
        );
        if grown.is_err() {
            self.outputs[file].forget(bytes.len());
        }
        grown
    }
}

impl Files for MemoryFiles {
    ghost use Rattle.std.specs.Prelude.{false};
    ghost use Rattle.collector.specs.InputEnds.{LeavesOut, LeavesRest};
    ghost use Rattle.collector.specs.Places.{BeginsOutputs, PutsInPlace, LeavesOutputs};
    ghost use Rattle.collector.specs.Files.{FilesShown, out_of, reads_of, writes_of, SameFiles, OpensInput, OpensOutput, OpensDestination, OpensHeld, Refuses, OpensNothing, ReadsOnly, WritesOnly, Reads};
    ghost use Rattle.file_stores.specs.inner.Memory.{shown_files, ReadsInMemory, WritesInMemory};

    ghost contents_known = { true };

    ghost shows = { shown_files };

    fn open_in(&mut self, name: &InName) -> Result<usize, NotOpened>
        ensures ok { IfOk result
            (λ file. OpensInput name.now file (shown_files self.old) (shown_files self.new)) }
        ensures held { IsTrue true
            → IfOk result
            (λ file. OpensHeld name.now file (shown_files self.old) (shown_files self.new)) }
        ensures refused { IsErrOf result NotOpened.Refused
            → Refuses (Opening.Input name.now None) (shown_files self.old) (shown_files self.new) }
        ensures no_memory { IsErrOf result NotOpened.NoMemory
            → OpensNothing (shown_files self.old) (shown_files self.new) }

        // Of files in memory: what is opened, and what is refused.
        ensures opened { IfOk result (λ file. OpensContent name.now file self.old self.new) }
        ensures missing { IsErrOf result NotOpened.Refused
            → (input_content self.old name.now ≡ None)
            × (self.new ≡ with_opening (Opening.Input name.now None) self.old) }
        ensures unchanged { IsErrOf result NotOpened.NoMemory → self.new ≡ self.old }
    {
        self.open_input(name)
    }

    fn leave_out_front(&mut self, file: usize, needed: NeededEnd)
        requires opened { IsSome ((shown_files self.old).inputs file) }
        requires unread { reads_of (shown_files self.old) file ≡ nothing_read }
        ensures only { LeavesOut file needed (shown_files self.old) (shown_files self.new) }

        // Of files in memory: which front is left out.
        ensures left { LeavesOutInMemory file needed self.old self.new }
    {
        self.leave_out_content(file, needed);
    }

    fn leave_rest(&mut self, file: usize, lines: u64)
        requires opened { IsSome ((shown_files self.old).inputs file) }
        requires unread { reads_of (shown_files self.old) file ≡ nothing_read }
        ensures only { LeavesRest file lines (shown_files self.old) (shown_files self.new) }

        // Of files in memory: which lines are kept.
        ensures kept { LeavesRestInMemory file lines self.old self.new }
    {
        self.leave_rest_content(file, lines);
    }

    fn begin_outputs(&mut self, placing: Placing) -> Result<(), NoMemory>
        ensures ok { OnOk result
            (BeginsOutputs placing (shown_files self.old) (shown_files self.new)) }
        ensures no_memory { OnErr result
            (OpensNothing (shown_files self.old) (shown_files self.new)) }

        // Of files in memory: what they hold in their places from now on, and when memory is refused.
        ensures begun { BeginsInMemory placing result self.old self.new }
    {
        self.begin_former(placing)
    }

    fn put_in_place(&mut self, file: usize) -> Result<(), IoFailed>
        ensures ok { OnOk result
            (PutsInPlace file (shown_files self.old) (shown_files self.new)) }
        ensures failed { OnErr result
            (SameFiles (shown_files self.old) (shown_files self.new)
            × ((shown_files self.new).failures ≡ one_more (shown_files self.old).failures)) }
        ensures unheld { (shown_files self.old).held_back ≡ false → OnErr result ⊥ }

        // Of files in memory: what is put in place, and when that fails.
        ensures placed { PlacesInMemory file result self.old self.new }
    {
        self.place_content(file)
    }

    fn leave_outputs(&mut self)
        ensures only { LeavesOutputs (shown_files self.old) (shown_files self.new) }

        // Of files in memory: what they hold then.
        ensures left { LeavesInMemory self.old self.new }
    {
        self.leave_former();
    }

    fn open_out(&mut self, name: &OutName) -> Result<usize, NotOpened>
        ensures ok { IfOk result
            (λ file. OpensOutput name.now file (shown_files self.old) (shown_files self.new)) }
        ensures holds { IsTrue true
            → IfOk result
            (λ file. OpensDestination name.now file (shown_files self.old)
            (shown_files self.new)) }
        ensures refused { IsErrOf result NotOpened.Refused
            → Refuses (Opening.Output name.now None) (shown_files self.old) (shown_files self.new) }
        ensures no_memory { IsErrOf result NotOpened.NoMemory
            → OpensNothing (shown_files self.old) (shown_files self.new) }

        // Of files in memory: what is opened, and what is refused.
        ensures opened { IfOk result (λ file. OpensTarget name.now file self.old self.new) }
        ensures forbidden { IsErrOf result NotOpened.Refused
            → (is_output_refused self.old name.now ≡ true)
            × (self.new ≡ with_opening (Opening.Output name.now None) self.old) }
        ensures unchanged { IsErrOf result NotOpened.NoMemory → self.new ≡ self.old }
    {
        self.open_output(name)
    }

    fn read(&mut self, file: usize, into: &mut [u8]) -> Result<usize, IoFailed>
        requires opened { IsSome ((shown_files self.old).inputs file) }
        ensures count { IfOk result (λ n. n ≤ length into.new) }
        ensures only { ReadsOnly file (shown_files self.old) (shown_files self.new) }
        ensures told { IfOk result
            (λ n. Reads (length into.new) (take n into.new) (reads_of (shown_files self.old) file)
            (reads_of (shown_files self.new) file)) }
        ensures failed { OnErr result
            (SameFiles (shown_files self.old) (shown_files self.new)
            × ((shown_files self.new).failures ≡ one_more (shown_files self.old).failures)) }
        ensures failures { OnOk result
            ((shown_files self.new).failures ≡ (shown_files self.old).failures) }

        // Of files in memory: which bytes are given, and when a read fails.
        ensures given { ReadsInMemory file result into.old into.new self.old self.new }
    {
        self.read_content(file, into)
    }

    fn write(&mut self, file: usize, from: &[u8]) -> Result<usize, IoFailed>
        requires opened { IsSome ((shown_files self.old).outputs file) }
        ensures count { IfOk result (λ n. (n ≤ length from.now) × (1 ≤ length from.now → 1 ≤ n)) }
        ensures only { WritesOnly file (shown_files self.old) (shown_files self.new) }
        ensures told { IfOk result
            (λ n. writes_of (shown_files self.new) file
            ≡ writes_of (shown_files self.old) file ++ take n from.now) }
        ensures free { IsOk result → out_of (shown_files self.old) file ≡ [] }
        ensures out { out_of (shown_files self.new) file ≡ out_of (shown_files self.old) file }
        ensures failed { OnErr result
            (SameFiles (shown_files self.old) (shown_files self.new)
            × ((shown_files self.new).failures ≡ one_more (shown_files self.old).failures)) }
        ensures failures { OnOk result
            ((shown_files self.new).failures ≡ (shown_files self.old).failures) }

        // Of files in memory: the place of the bytes, and which call fails.
        ensures written { WritesInMemory file result from.now self.old self.new }
    {
        self.write_content(file, from)
    }

    #[tactic(auto, using(crate::proofs::lemmas::Settled::memory_out, crate::proofs::lemmas::Settled::memory_settles, crate::proofs::lemmas::Settled::memory_stays))]
    fn settle(&mut self, _file: usize) -> Result<Option<Batch>, IoFailed> {
        Ok(None)
    }

    fn failures(&self) -> u64
        ensures { result ≡ (shown_files self.now).failures }
    {
        self.failures
    }
}

impl Readiness for MemoryFiles {}

// Empties the file of an output, or keeps what it holds; a new one is empty.
fn prepare(alloc: Global, contents: &mut Contents, name: &OutName) -> Result<OpenOutput, NoMemory>
    ensures opened { IfOk result
        (λ opened. opened ≡ record { target = target_of name.now; taken = [] }) }
    ensures ok { OnOk result (Prepares name.now contents.old contents.new) }
    ensures err { OnErr result (contents.new ≡ contents.old) }
{
    match name {
        OutName::Standard => Ok(OpenOutput::new(alloc, None)),
        OutName::File { name, append } => {
            let target = name.copied(alloc)?;
            contents.put(name.bytes(), *append, &[])?;
            Ok(OpenOutput::new(alloc, Some(target)))
        }
    }
}

// Puts bytes after what the file of an open output holds.
fn grow(
    contents: &mut Contents,
    output: &mut Vec<u8>,
    opened: &OpenOutput,
    bytes: &[u8],
) -> Result<(), NoMemory>
    ensures ok { OnOk result
        (Grows opened.now.target bytes.now contents.old output.old.items contents.new
        output.new.items) }
    ensures err { OnErr result
        ((contents.new ≡ contents.old) × (output.new.items ≡ output.old.items)) }
{
    match opened.target() {
        Some(name) => contents.put(name.bytes(), true, bytes),
        None => {
            output.extend_from_slice(bytes)?;
            Ok(())
        }
    }
}
