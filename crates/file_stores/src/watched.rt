ghost use Rattle.std.specs.Prelude.{◌≡◌};

use collector::{Batch, Files, IoFailed, NeededEnd, NotOpened, Readiness};
use machine::NoMemory;
use run_types::{InName, OutName, Placing};
use std::marker::Model;

/// It is notified of the reads and writes of a run's files.
pub trait Watch: Drop {
    /// An input of this name was opened.
    fn note_input(&mut self, name: &InName);

    /// A front of an input may be left out, so its size does not say how much of it is read.
    fn note_front(&mut self) {}

    /// This many bytes were read.
    fn note_read(&mut self, count: usize);

    /// This many bytes were written.
    fn note_written(&mut self, count: usize);

    /// The standard output is about to be written.
    fn begin_output(&mut self) {}

    /// Whether it has to know of each write to the standard output before that is made, so that no thread may make it meanwhile.
    fn minds_output(&self) -> bool {
        false
    }

    /// These bytes were written to the standard output. They are counted by `note_written`, which comes next.
    fn note_output(&mut self, _bytes: &[u8]) {}

    /// A pipe grew.
    fn note_growth(&mut self);

    /// The run is over.
    fn finish(&mut self);
}

// If there is no watch, nobody is notified.
impl<W: Watch> Watch for Option<W> {
    fn note_input(&mut self, name: &InName) {
        if let Some(watch) = self {
            watch.note_input(name);
        }
    }

    fn note_front(&mut self) {
        if let Some(watch) = self {
            watch.note_front();
        }
    }

    fn note_read(&mut self, count: usize) {
        if let Some(watch) = self {
            watch.note_read(count);
        }
    }

    fn note_written(&mut self, count: usize) {
        if let Some(watch) = self {
            watch.note_written(count);
        }
    }

    fn begin_output(&mut self) {
        if let Some(watch) = self {
            watch.begin_output();
        }
    }

    fn minds_output(&self) -> bool {
        match self {
            Some(watch) => watch.minds_output(),
            None => false,
        }
    }

    fn note_output(&mut self, bytes: &[u8]) {
        if let Some(watch) = self {
            watch.note_output(bytes);
        }
    }

    fn note_growth(&mut self) {
        if let Some(watch) = self {
            watch.note_growth();
        }
    }

    fn finish(&mut self) {
        if let Some(watch) = self {
            watch.finish();
        }
    }
}

/// Files that hand each call on to those inside, and notify a watch of the result. Contracts see the files inside.
#[derive(Drop)]
pub struct Watched<F: Files, W: Watch> {
    inside: F,
    watch: W,
    // The number of the standard output, if it is open.
    standard: Option<usize>,
}

impl<F: Files, W: Watch> Model for Watched<F, W> {
    ghost Value = { F };

    ghost view = { λ w. w.inside };
}

impl<F: Files, W: Watch> Watched<F, W> {
    /// These files, whose calls this watch is notified of.
    pub fn new(files: F, watch: W) -> Watched<F, W>
        ensures { result ≡ files }
    {
        Watched {
            inside: files,
            watch,
            standard: None,
        }
    }

    /// From now on this watch is notified.
    pub fn set_watch(&mut self, watch: W)
        ensures { self.new ≡ self.old }
    {
        self.watch = watch;
    }

    /// Tells the watch that the run is over.
    pub fn end_watch(&mut self)
        ensures { self.new ≡ self.old }
    {
        self.watch.finish();
    }

    /// The files inside.
    pub fn inside(&self) -> &F
        ensures { result.now ≡ self.now }
    {
        &self.inside
    }

    /// Tells the watch that the run is over, and gives both back.
    pub fn finish(self) -> (F, W)
        ensures { result.0 ≡ self }
    {
        let Watched {
            inside,
            mut watch,
            ..
        } = self;
        watch.finish();
        (inside, watch)
    }
}

// Tells a watch that a file is about to be written, if it is the standard output.
fn begin_write<W: Watch>(watch: &mut W, is_standard: bool) {
    if is_standard {
        watch.begin_output();
    }
}

// Tells a watch that a file took this many of these bytes.
fn note_write<W: Watch>(watch: &mut W, is_standard: bool, bytes: &[u8], count: usize) {
    if is_standard {
        watch.note_output(bytes.get(..count).unwrap_or(bytes));
    }
    watch.note_written(count);
}

// Tells a watch that a file took all of what was handed over.
fn note_settled<W: Watch>(watch: &mut W, is_standard: bool, batch: &Batch) {
    match batch {
        Batch::Joined(bytes) => note_write(watch, is_standard, bytes.as_slice(), bytes.len()),
        Batch::Single(piece) => note_write(watch, is_standard, piece.bytes(), piece.len()),
        Batch::Several(pieces) => {
            for piece in pieces.as_slice() {
                note_write(watch, is_standard, piece.bytes(), piece.len());
            }
        }
    }
}

impl<F: Files, W: Watch> Files for Watched<F, W> {
    ghost contents_known = { F.contents_known };

    ghost shows = { F.shows };

    fn open_in(&mut self, name: &InName) -> Result<usize, NotOpened> {
        let opened = self.inside.open_in(name);
        if opened.is_ok() {
            self.watch.note_input(name);
        }
        opened
    }

    fn leave_out_front(&mut self, file: usize, needed: NeededEnd) {
        self.watch.note_front();
        self.inside.leave_out_front(file, needed);
    }

    fn leave_rest(&mut self, file: usize, lines: u64) {
        self.inside.leave_rest(file, lines);
    }

    fn begin_outputs(&mut self, placing: Placing) -> Result<(), NoMemory> {
        self.inside.begin_outputs(placing)
    }

    fn put_in_place(&mut self, file: usize) -> Result<(), IoFailed> {
        self.inside.put_in_place(file)
    }

    fn leave_outputs(&mut self) {
        self.inside.leave_outputs();
    }

    fn open_out(&mut self, name: &OutName) -> Result<usize, NotOpened> {
        let opened = self.inside.open_out(name);
        if let (OutName::Standard, Ok(file)) = (name, &opened) {
            self.standard = Some(*file);
        }
        opened
    }

    fn read(&mut self, file: usize, into: &mut [u8]) -> Result<usize, IoFailed> {
        let read = self.inside.read(file, into);
        if let Ok(count) = read {
            self.watch.note_read(count);
        }
        read
    }

    fn take_read(&mut self, file: usize, most: usize) -> Option<Vec<u8>> {
        let bytes = self.inside.take_read(file, most)?;
        self.watch.note_read(bytes.len());
        Some(bytes)
    }

    fn write(&mut self, file: usize, from: &[u8]) -> Result<usize, IoFailed> {
        let is_standard = self.standard == Some(file);
        begin_write(&mut self.watch, is_standard);
        let written = self.inside.write(file, from);
        if let Ok(count) = written {
            note_write(&mut self.watch, is_standard, from, count);
        }
        written
    }

    // The standard output is written by the caller, if the watch is to know before that.
    fn hand_over(&mut self, file: usize, batch: Batch) -> Result<(), Batch> {
        if self.standard == Some(file) && self.watch.minds_output() {
            return Err(batch);
        }
        self.inside.hand_over(file, batch)
    }

    fn settle(&mut self, file: usize) -> Result<Option<Batch>, IoFailed> {
        let settled = self.inside.settle(file);
        if let Ok(Some(batch)) = &settled {
            note_settled(&mut self.watch, self.standard == Some(file), batch);
        }
        settled
    }

    fn finish_output(&mut self, file: usize) -> Result<(), IoFailed> {
        self.inside.finish_output(file)
    }

    fn failures(&self) -> u64 {
        self.inside.failures()
    }

    fn note_growth(&mut self, pipe: usize, capacity: usize) {
        self.inside.note_growth(pipe, capacity);
        self.watch.note_growth();
    }
}

impl<F: Readiness, W: Watch> Readiness for Watched<F, W> {
    fn would_wait(&mut self, file: usize) -> bool {
        self.inside.would_wait(file)
    }

    fn ask_for_input(&mut self, files: &[usize]) {
        self.inside.ask_for_input(files);
    }

    fn output_would_wait(&mut self, file: usize) -> bool {
        self.inside.output_would_wait(file)
    }

    fn wait_for_files(&mut self, inputs: &[usize], outputs: &[usize]) {
        self.inside.wait_for_files(inputs, outputs);
    }
}
