use crate::line::Line;
use crate::shown::{Form, Shown};
use crate::tally::Tally;
use crate::writer::{Errand, LineThread, NoThread};
use file_stores::Watch;
use run_types::InName;
use std::os::unix::fs::{FileTypeExt, MetadataExt};
use std::rt::Clock;
use std::time::Instant;
use std::{fs, rt, str};

// How many milliseconds a line that is redrawn is shown at least before the next one.
const PAUSE: u128 = 250;

// How many milliseconds pass at least between two plain lines.
const LONG_PAUSE: u128 = 2_000;

/// A watch that shows how far the run is on the standard error of the host, after a read, a write or a growth. One line is redrawn at most four
/// times a second, for the first time a quarter of a second after it began. Plain lines come at most every two seconds, the first after two
/// seconds. If the clock or the standard error fails, it shows nothing.
///
/// If the standard output is the same file, a redrawn line is erased before bytes are written there. A line is shown only once they have ended
/// a line.
#[derive(Drop)]
pub struct HostWatch<R: rt::Files + Clock + Eprint, W = NoThread> {
    rt: R,
    tally: Tally,
    // How the figures are shown.
    form: Form,
    // The thread that writes the line, if one does.
    writer: Option<W>,
    // None if the clock failed, or the thread was refused.
    begun: Option<Instant>,
    // When the last line was printed; at first, when it began.
    last: Option<Instant>,
    is_shown: bool,
    // Whether the standard output and the standard error are one file, as a terminal.
    is_shared: bool,
    // Whether the standard output may be amid a line there.
    is_amid_line: bool,
}

impl<R: rt::Files + Clock + Eprint + Drop> HostWatch<R, NoThread> {
    /// The run begins now. One line is redrawn by the thread that reads and writes.
    pub fn new(rt: R) -> HostWatch<R, NoThread> {
        HostWatch::begun(rt, Form::Redrawn)
    }
}

impl<R: rt::Files + Clock + Eprint + Drop, W: LineThread> HostWatch<R, W> {
    /// The run begins now. The line is written by this thread if a write to the standard error may wait, and the standard output is another
    /// file. If the thread is refused, nothing is shown.
    pub fn with_writer(rt: R, form: Form, writer: W) -> HostWatch<R, W> {
        let mut watch = HostWatch::begun(rt, form);
        if watch.is_shared || !may_wait(&watch.rt, "/dev/stderr") {
            return watch;
        }
        if !writer.serve(Errand::Begin) {
            watch.begun = None;
        }
        watch.writer = Some(writer);
        watch
    }

    // The run begins now. No thread writes the line.
    fn begun(rt: R, form: Form) -> HostWatch<R, W> {
        let begun = Instant::now(&rt).ok();
        let is_shared = are_one_file(&rt, "/dev/stdout", "/dev/stderr");
        HostWatch {
            rt,
            tally: Tally::new(),
            form,
            writer: None,
            begun,
            last: begun,
            is_shown: false,
            is_shared,
            is_amid_line: false,
        }
    }

    // The size of an input, if it is a file that has one.
    fn size_of(&self, name: &InName) -> Option<u64> {
        let path = match name {
            InName::Standard => "/dev/stdin",
            InName::File(name) => str::from_utf8(name.bytes()).ok()?,
        };
        let metadata = fs::metadata(&self.rt, path).ok()?;
        if metadata.is_file() {
            Some(metadata.len())
        } else {
            None
        }
    }

    // Shows the line, if the last one has been shown long enough, and nothing of the result would be overwritten.
    fn show(&mut self) {
        let (Some(begun), Some(last), false) = (self.begun, self.last, self.is_amid_line) else {
            return;
        };
        let Ok(now) = Instant::now(&self.rt) else {
            return;
        };
        let pause = match self.form {
            Form::Redrawn => PAUSE,
            Form::Plain => LONG_PAUSE,
        };
        if now.duration_since(last).as_millis() < pause {
            return;
        }
        let millis = now.duration_since(begun).as_millis();
        let line = Line {
            tally: self.tally,
            millis: u64::try_from(millis).unwrap_or(u64::MAX),
        };
        self.last = Some(now);
        self.is_shown = true;
        match &self.writer {
            Some(writer) => {
                writer.serve(Errand::Show(line, self.form));
            }
            None => {
                let _ = self.rt.eprint(Shown::Line(line, self.form));
            }
        }
    }

    // Ends the line, if one was shown: a redrawn one is erased.
    fn erase(&mut self) {
        if self.is_shown {
            self.is_shown = false;
            match &self.writer {
                Some(writer) => {
                    writer.serve(Errand::End(self.form));
                }
                None => {
                    let _ = self.rt.eprint(Shown::End(self.form));
                }
            }
        }
    }
}

// Whether two paths lead to one file, as far as the system says.
fn are_one_file<R: rt::Files>(rt: &R, one: &str, other: &str) -> bool {
    match (fs::metadata(rt, one), fs::metadata(rt, other)) {
        (Ok(one), Ok(other)) => one.dev() == other.dev() && one.ino() == other.ino(),
        _ => false,
    }
}

// Whether a write to this file may wait for a reader: if it is a pipe or a socket, or the system does not say.
fn may_wait<R: rt::Files>(rt: &R, path: &str) -> bool {
    match fs::metadata(rt, path) {
        Ok(found) => found.file_type().is_fifo() || found.file_type().is_socket(),
        Err(_) => true,
    }
}

impl<R: rt::Files + Clock + Eprint + Drop, W: LineThread> Watch for HostWatch<R, W> {
    fn note_input(&mut self, name: &InName) {
        let size = self.size_of(name);
        self.tally.add_input(size);
    }

    fn note_front(&mut self) {
        self.tally.add_input(None);
    }

    fn note_read(&mut self, count: usize) {
        self.tally.add_read(count);
        self.show();
    }

    fn note_written(&mut self, count: usize) {
        self.tally.add_written(count);
        self.show();
    }

    fn begin_output(&mut self) {
        if self.is_shared {
            self.erase();
        }
    }

    fn minds_output(&self) -> bool {
        self.is_shared
    }

    fn note_output(&mut self, bytes: &[u8]) {
        if let (true, Some(last)) = (self.is_shared, bytes.last()) {
            self.is_amid_line = *last != b'\n';
        }
    }

    fn note_growth(&mut self) {
        self.tally.add_growth();
        self.show();
    }

    fn finish(&mut self) {
        self.erase();
    }
}
