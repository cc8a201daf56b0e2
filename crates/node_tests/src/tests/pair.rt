// A source and a sink that are joined by a pipe, and the files that both work on. `source` and
// `sink` step one of them, `run` both in turn until neither moves, and each returns the state;
// `look` returns how many items are in the pipe, `hang-up` hangs its reader up, `source-fault` and
// `sink-fault` return why a node failed.
ghost use Rattle.std.specs.Prelude.{◌≤◌, IsSome};
ghost use Rattle.std.specs.Option.{ForSome};
ghost use Rattle.bounded_pipe.specs.Ends.{AreEnds, IsCapacity};
ghost use Rattle.file_stores.specs.inner.Memory.{shown_files};
ghost use Rattle.machine.specs.Pieces.{IsBlock};

use super::memory::set;
use super::*;
use bounded_pipe::{beside, pipe};
use collector::{Files, RunFault, Sink, Source};
use file_stores::MemoryFiles;
use machine::NoMemory;
use run_types::Step;

#[derive(Drop)]
struct Joined {
    files: MemoryFiles,
    source: Source,
    sink: Sink,
    ghost input: { ForSome source.file (λ file. IsSome ((shown_files files).inputs file)) },
    ghost output: { IsSome ((shown_files files).outputs sink.file) },
    ghost ends: { AreEnds source.end sink.end },
}

// A source that reads the open file `input`, and a sink that writes the open file `output`, with a pipe of this number between
// them, which can hold `capacity` items. The first read asks for `first` bytes.
fn join(
    alloc: Global,
    files: MemoryFiles,
    number: usize,
    input: (Option<usize>, Option<InName>),
    output: (usize, OutName),
    capacity: usize,
    block: usize,
    first: usize,
) -> Result<Joined, NoMemory>
    requires capacity { IsCapacity capacity }
    requires block { IsBlock block }
    requires first { (1 ≤ first) × (first ≤ block) }
    requires named { IsSome input.0 → IsSome input.1 }
    requires input { ForSome input.0 (λ file. IsSome ((shown_files files).inputs file)) }
    requires output { IsSome ((shown_files files).outputs output.0) }
{
    let (writer, reader) = pipe(alloc, capacity, 65536)?;
    let source = Source::new(alloc, number, writer, input.0, input.1, block, first);
    Ok(Joined {
        files,
        source,
        sink: Sink::new(alloc, number, reader, output.0, output.1, 65_536),
    })
}

// The file `in`, which holds these bytes, is read in pieces of at most `block` bytes, at first of `first`, and `out` is written.
fn copy(
    alloc: Global,
    mut files: MemoryFiles,
    number: usize,
    capacity: usize,
    block: usize,
    first: usize,
) -> Result<Joined, Fail>
    requires capacity { IsCapacity capacity }
    requires block { IsBlock block }
    requires first { (1 ≤ first) × (first ≤ block) }
{
    let read = in_name(alloc, "in")?;
    let write = out_name(alloc, "out", false)?;
    let input = files.open_in(&read)?;
    let output = (files.open_out(&write)?, write);
    let input = (Some(input), Some(read));
    Ok(join(alloc, files, number, input, output, capacity, block, first)?)
}

fn files_with(alloc: Global, bytes: &[u8]) -> Result<MemoryFiles, NoMemory> {
    let mut files = MemoryFiles::new(alloc);
    files.add(b"in", bytes)?;
    Ok(files)
}

// Plays a script of `count` lines on a source of a file with these bytes and a sink.
fn play_copy(
    alloc: Global,
    bytes: &[u8],
    shape: (usize, usize, usize),
    lines: usize,
    script: &str,
) -> Result<(), Fail>
    requires capacity { (1 ≤ shape.1) × (shape.1 ≤ 4096) }
    requires block { (1 ≤ shape.2) × (shape.2 ≤ 65536) }
{
    let (number, capacity, block) = shape;
    let files = files_with(alloc, bytes)?;
    let mut joined = copy(alloc, files, number, capacity, block, block)?;
    play(alloc, &mut joined, lines, script)
}

impl Joined {
    // Steps both in turn, until neither moves any more. Returns the state of both.
    fn run(&mut self) -> (Step, Step) {
        let mut steps = (Step::Moved, Step::Moved);
        for _ in 0..1000 {
            self.meet();
            let put = self.source.step(&mut self.files);
            self.meet();
            let took = self.sink.step(&mut self.files);
            steps = (put, took);
            if put != Step::Moved && took != Step::Moved {
                break;
            }
        }
        steps
    }

    // Looks at the pipe from both sides. Returns how many items are in it.
    fn meet(&mut self) -> usize {
        beside(self.source.pipe_end(), self.sink.pipe_end())
    }

    fn look(&mut self, alloc: Global, action: &str) -> Result<Vec<u8>, Fail> {
        match action {
            "look" => shown(alloc, &self.meet()),
            "source-fault" => fault_text(alloc, self.source.fault()),
            "sink-fault" => fault_text(alloc, self.sink.fault()),
            _ => unknown(),
        }
    }
}

// Why a node failed.
fn fault_text(alloc: Global, fault: Option<&RunFault>) -> Result<Vec<u8>, Fail> {
    match fault {
        Some(fault) => shown(alloc, fault),
        None => bytes_of(alloc, b"none"),
    }
}

impl Bench for Joined {
    fn act(&mut self, alloc: Global, action: &str, with: &str) -> Result<Vec<u8>, Fail> {
        match action {
            "run" => debugged(alloc, &self.run()),
            "source" => debugged(alloc, &self.source.step(&mut self.files)),
            "sink" => debugged(alloc, &self.sink.step(&mut self.files)),
            "hang-up" => {
                self.sink.pipe_end().hang_up();
                done(alloc)
            }
            "look" | "source-fault" | "sink-fault" => self.look(alloc, action),
            _ => set(&mut self.files, alloc, action, with),
        }
    }
}

#[test]
fn short_reads_and_writes(rt: HostRuntime) -> Result<(), Fail> {
    let script = r"limit-reads 5
limit-writes 2
run -> (Ended, Ended)
content out -> abcdef
reads -> 3";
    play_copy(rt.alloc(), b"abcdef", (0, 1, 4096), 5, script)
}

#[test]
fn failed_write(rt: HostRuntime) -> Result<(), Fail> {
    let script = r"limit-writes 1
fail-write 4
run -> (Ended, Failed)
content out -> abc
failures -> 1
sink-fault -> F2 WriteFault: out
run -> (Ended, Failed)";
    play_copy(rt.alloc(), b"abcdef", (0, 16, 4096), 7, script)
}

#[test]
fn failed_read(rt: HostRuntime) -> Result<(), Fail> {
    let script = r"fail-read 3
run -> (Failed, Waits(0))
content out -> abcd
failures -> 1
source-fault -> F1 ReadFault: in";
    play_copy(rt.alloc(), b"abcdef", (0, 16, 2), 5, script)
}

#[test]
fn a_source_waits_and_breaks(rt: HostRuntime) -> Result<(), Fail> {
    let script = r"source -> Moved
source -> Waits(7)
source -> Waits(7)
reads -> 2
look -> 1
hang-up
source -> Broken
source -> Broken
reads -> 2";
    play_copy(rt.alloc(), b"abc", (7, 1, 1), 9, script)
}

#[test]
fn reads_grow_and_short_pieces_are_written_at_once(rt: HostRuntime) -> Result<(), Fail> {
    let alloc = rt.alloc();
    let script = r"fail-write 2
source -> Moved
reads -> 1
source -> Moved
source -> Moved
source -> Moved
source -> Moved
source -> Moved
reads -> 6
look -> 6
sink -> Moved
look -> 0
content out -> abcdefghijklmnopqrstuvwxyzABCDEFGHIJKLMNOPQRSTUVWXYZ
run -> (Ended, Ended)";
    let files = files_with(
        alloc,
        b"abcdefghijklmnopqrstuvwxyzABCDEFGHIJKLMNOPQRSTUVWXYZ",
    )?;
    let mut joined = copy(alloc, files, 0, 16, 16, 2)?;
    play(alloc, &mut joined, 14, script)
}
