// How far a run is. `line READ WRITTEN WHOLE MILLIS` returns the line that says it; ? is a whole
// that is not known. `growths GROWTHS READ WRITTEN WHOLE MILLIS` returns the line of a run whose
// pipes grew this often. `grow GROWTHS` notifies files of this many growths, and returns what the
// watch learned of them. `copy ROOM` opens the file `abcdef` of watched files, reads into this much
// room, writes what it read to the standard output, and returns what the watch learned: how many inputs
// were opened, how many bytes were read, written, and written to the standard output, and that the run
// is over. `save ROOM` does the same with an output that has a name.
ghost use Rattle.std.specs.Prelude.{◌≤◌};

use super::*;
use collector::Files;
use file_stores::{MemoryFiles, Watch, Watched};
use progress::{Line, Tally};
use std::fmt;

// What a watch was told.
#[derive(Clone, Copy, Debug, PartialEq, Eq)]
struct Told {
    inputs: usize,
    tally: Tally,
    // Whether the standard output is about to be written, and how many bytes were written there.
    is_begun: bool,
    output: usize,
    is_over: bool,
}

impl Told {
    fn new() -> Told {
        Told {
            inputs: 0,
            tally: Tally::new(),
            is_begun: false,
            output: 0,
            is_over: false,
        }
    }
}

impl Watch for Told {
    fn note_input(&mut self, _name: &InName) {
        self.inputs = self.inputs.saturating_add(1);
    }

    fn note_read(&mut self, count: usize) {
        self.tally.add_read(count);
    }

    fn note_written(&mut self, count: usize) {
        self.tally.add_written(count);
    }

    fn begin_output(&mut self) {
        self.is_begun = true;
    }

    fn note_output(&mut self, bytes: &[u8]) {
        if self.is_begun {
            self.is_begun = false;
            self.output = self.output.saturating_add(bytes.len());
        }
    }

    fn note_growth(&mut self) {
        self.tally.add_growth();
    }

    fn finish(&mut self) {
        self.is_over = true;
    }
}

impl fmt::Display for Told {
    fn fmt<W: fmt::Write>(&self, f: &mut fmt::Formatter<W>) -> fmt::Result {
        let inputs = self.inputs;
        let read = self.tally.read;
        let written = self.tally.written;
        let output = self.output;
        let is_over = self.is_over;
        write!(f, "{inputs} {read} {written} {output} {is_over}")
    }
}

#[derive(Drop)]
struct Watching;

impl Bench for Watching {
    fn act(&mut self, alloc: Global, action: &str, with: &str) -> Result<Vec<u8>, Fail> {
        match action {
            "line" => shown(alloc, &line_of(with, 0)?),
            "growths" => shown(alloc, &grown_line_of(with)?),
            "grow" => shown(alloc, &grown(alloc, number(with)?)),
            "input" => shown(alloc, &with_inputs(with)),
            "copy" => shown(alloc, &copied(alloc, &OutName::Standard, number(with)?)?),
            "save" => shown(
                alloc,
                &copied(alloc, &out_name(alloc, "saved", false)?, number(with)?)?,
            ),
            _ => unknown(),
        }
    }
}

fn grown_line_of(with: &str) -> Result<Line, Fail> {
    let (growths, with) = halves(with, " ");
    line_of(with, growths.parse()?)
}

fn line_of(with: &str, growths: u64) -> Result<Line, Fail> {
    let (read, with) = halves(with, " ");
    let (written, with) = halves(with, " ");
    let (whole, millis) = halves(with, " ");
    let tally = Tally {
        read: read.parse()?,
        written: written.parse()?,
        whole: whole.parse().ok(),
        growths,
    };
    Ok(Line {
        tally,
        millis: millis.parse()?,
    })
}

// What a line says of the inputs of these two sizes, once 1,000 bytes of them were read.
fn with_inputs(with: &str) -> Line {
    let (one, other) = halves(with, " ");
    let mut tally = Tally::new();
    tally.add_input(one.parse().ok());
    tally.add_input(other.parse().ok());
    tally.add_read(1_000);
    Line {
        tally,
        millis: 1_000,
    }
}

// How many growths a watch learned of, if files were notified of this many.
fn grown(alloc: Global, growths: usize) -> u64 {
    let mut files = Watched::new(MemoryFiles::new(alloc), Told::new());
    for _ in 0..growths {
        files.note_growth(0, 2);
    }
    let (_, told) = files.finish();
    told.tally.growths
}

fn copied(alloc: Global, to: &OutName, room: usize) -> Result<Told, Fail> {
    let mut files = MemoryFiles::new(alloc);
    files.add(b"abcdef", b"abcdef")?;
    let mut files = Watched::new(files, Told::new());
    let bytes = read_once(alloc, &mut files, room)?;
    write_once(&mut files, to, bytes.as_slice())?;
    let (_, told) = files.finish();
    Ok(told)
}

// Opens a file, and reads of it once.
fn read_file<F: Files>(files: &mut F, name: &InName, into: &mut [u8]) -> Result<usize, Fail> {
    let file = files.open_in(name)?;
    Ok(files.read(file, into)?)
}

fn read_once<F: Files>(alloc: Global, files: &mut F, room: usize) -> Result<Vec<u8>, Fail> {
    let name = in_name(alloc, "abcdef")?;
    let mut bytes = vec![in alloc; 0; room]?;
    let count = read_file(files, &name, bytes.as_mut_slice())?;
    bytes.truncate(count);
    Ok(bytes)
}

fn write_once<F: Files>(files: &mut F, name: &OutName, bytes: &[u8]) -> Result<(), Fail> {
    let file = files.open_out(name)?;
    files.write(file, bytes)?;
    Ok(())
}

#[test]
fn lines_of_progress(rt: HostRuntime) -> Result<(), Fail> {
    play(
        rt.alloc(),
        &mut Watching,
        27,
        r"line 0 0 ? 0 -> plrun: read 0 B, written 0 B, 0 B/s
line 999 1000 ? 1000 -> plrun: read 999 B, written 1.0 kB, 999 B/s
line 12345678 4500000 27434840 125 -> plrun: read 12.3 MB, written 4.5 MB, 98.7 MB/s, 45%25, 1 s left
line 800000 0 1000000 1000 -> plrun: read 800.0 kB, written 0 B, 800.0 kB/s, 80%25, 1 s left
line 999999 0 1000000 1000 -> plrun: read 999.9 kB, written 0 B, 999.9 kB/s, 99%25, 1 s left
line 999999 1099999 ? 250 -> plrun: read 999.9 kB, written 1.0 MB, 3.9 MB/s
line 1000000 0 1000000 1000 -> plrun: read 1.0 MB, written 0 B, 1.0 MB/s, 100%25, 0 s left
line 3000000 0 1000000 1000 -> plrun: read 3.0 MB, written 0 B, 3.0 MB/s, 100%25, 0 s left
line 1000 0 61000 1000 -> plrun: read 1.0 kB, written 0 B, 1.0 kB/s, 1%25, 1 min 0 s left
line 1000 0 60000 1000 -> plrun: read 1.0 kB, written 0 B, 1.0 kB/s, 1%25, 59 s left
line 1000 0 3601000 1000 -> plrun: read 1.0 kB, written 0 B, 1.0 kB/s, 0%25, 1 h 0 min left
line 1000 0 3600000 1000 -> plrun: read 1.0 kB, written 0 B, 1.0 kB/s, 0%25, 59 min 59 s left
line 1000 0 360000000 1000 -> plrun: read 1.0 kB, written 0 B, 1.0 kB/s, 0%25, 99 h 59 min left
line 1000 0 360001000 1000 -> plrun: read 1.0 kB, written 0 B, 1.0 kB/s, 0%25, over 99 h left
line 0 0 10 250 -> plrun: read 0 B, written 0 B, 0 B/s, 0%25
line 5 5 0 1000 -> plrun: read 5 B, written 5 B, 5 B/s
line 1000000000 1000000000000 1000000000000000 1000 -> plrun: read 1.0 GB, written 1.0 TB, 1.0 GB/s, 0%25, over 99 h left
line 18446744073709551615 1000000000000000 18446744073709551615 1 -> plrun: read 18.4 EB, written 1.0 PB, 18.4 EB/s, 100%25, 0 s left
input 1000 1000 -> plrun: read 1.0 kB, written 0 B, 1.0 kB/s, 50%25, 1 s left
input 2000 ? -> plrun: read 1.0 kB, written 0 B, 1.0 kB/s
input 2000 0 -> plrun: read 1.0 kB, written 0 B, 1.0 kB/s
growths 1 12345678 4500000 27434840 125 -> plrun: read 12.3 MB, written 4.5 MB, 98.7 MB/s, 45%25, 1 growth
growths 12288 999 1000 ? 1000 -> plrun: read 999 B, written 1.0 kB, 999 B/s, 12288 growths
grow 3 -> 3
copy 4 -> 1 4 4 4 true
copy 8 -> 1 6 6 6 true
save 4 -> 1 4 4 0 true",
    )
}
