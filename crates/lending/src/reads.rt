ghost use Rattle.std.specs.Prelude.{◌≡◌};

use crate::apart::has_halted;
use crate::lent::LentNetwork;
use collector::Readiness;
use machine::{Machine, NoMemory};
use networks::{Actor, Link};
use run_types::NodeState;
use std::alloc::Global;

impl<M: Machine> LentNetwork<M> {
    /// Tells the files which of them the sources that are here read next.
    pub fn ask_to_read<F: Readiness>(&self, alloc: Global, files: &mut F)
        ensures { F.shows files.new ≡ F.shows files.old }
    {
        if let Ok(reads) = next_reads(alloc, &self.parts.nodes, &self.parts.pipes) {
            files.ask_for_input(reads.as_slice());
        }
    }

    /// Whether a round may step every node that is here, though its read or write waits. If each read and each of these writes would wait,
    /// this waits until one would not. If only some would wait, it returns false: the others are to go on first. That is also so
    /// if fewer sinks wait now than the last round passed over: one of those can write now.
    pub fn wait_for_files<F: Readiness>(&self, alloc: Global, files: &mut F) -> bool
        ensures { F.shows files.new ≡ F.shows files.old }
    {
        let Ok(reads) = next_reads(alloc, &self.parts.nodes, &self.parts.pipes) else {
            return true;
        };
        let Ok(writes) = waiting_writes(alloc, &self.parts.nodes, files) else {
            return true;
        };
        writes.len() >= self.passed && wait_for_any(reads.as_slice(), writes.as_slice(), files)
    }
}

// Whether a round may read these files, and write these outputs, whose writes would wait. If each would wait, it waits for one first.
fn wait_for_any<F: Readiness>(reads: &[usize], writes: &[usize], files: &mut F) -> bool
    ensures { F.shows files.new ≡ F.shows files.old }
{
    let waiting = count_waiting(reads, files);
    if waiting == 0 && writes.is_empty() {
        return true;
    }
    if waiting < reads.len() {
        files.ask_for_input(reads);
    } else {
        files.wait_for_files(reads, writes);
    }
    let waiting = (
        count_waiting(reads, files),
        count_waiting_writes(writes, files),
    );
    waiting == (0, 0) || waiting == (reads.len(), writes.len())
}

// The file that the node reads in its next step, if it is a source that is here and reads one. If its reader has ended or broken, it reads
// none.
pub(crate) fn next_read<M: Machine>(
    nodes: &[Actor<M>],
    pipes: &[Link],
    node: usize,
) -> Option<usize> {
    let Some(Actor::Source(source)) = nodes.get(node) else {
        return None;
    };
    let reader = nodes.get(pipes.get(source.pipe())?.reader)?;
    if has_halted(reader) {
        return None;
    }
    source.next_read()
}

// Whether it is a source that has put enough for its reader to begin with, while that still reads one that comes before it. Such a source is
// passed over: what it would put is not wanted yet, and would only take memory.
pub(crate) fn is_ahead<M: Machine>(nodes: &[Actor<M>], pipes: &[Link], node: usize) -> bool {
    let Some(Actor::Source(source)) = nodes.get(node) else {
        return false;
    };
    source.is_ahead() && runs_before(nodes, pipes, node, reader_of(pipes, source.pipe()))
}

// The node that reads a pipe, if there is such a pipe.
fn reader_of(pipes: &[Link], pipe: usize) -> Option<usize> {
    Some(pipes.get(pipe)?.reader)
}

// Whether a source with a lower number than this node still runs, and has this reader. The last ones are asked first: most often one of them
// is passed over, too.
fn runs_before<M: Machine>(
    nodes: &[Actor<M>],
    pipes: &[Link],
    node: usize,
    reader: Option<usize>,
) -> bool {
    for before in 0..node {
        if let Some(Actor::Source(source)) = nodes.get(node - 1 - before) {
            if source.state() == NodeState::Running && reader_of(pipes, source.pipe()) == reader {
                return true;
            }
        }
    }
    false
}

// The files that these nodes read in their next steps. A source that is passed over reads none.
fn next_reads<M: Machine>(
    alloc: Global,
    nodes: &[Actor<M>],
    pipes: &[Link],
) -> Result<Vec<usize>, NoMemory> {
    let mut reads = Vec::new(alloc);
    for node in 0..nodes.len() {
        if !is_ahead(nodes, pipes, node)
            && let Some(file) = next_read(nodes, pipes, node)
        {
            reads.push(file)?;
        }
    }
    Ok(reads)
}

// The file to which the node may write in its next step, if it is a sink that is here and runs.
pub(crate) fn next_write<M: Machine>(nodes: &[Actor<M>], node: usize) -> Option<usize> {
    match nodes.get(node) {
        Some(Actor::Sink(sink)) => sink.next_write(),
        _ => None,
    }
}

// The files to which these nodes may write in their next steps, if that would wait.
fn waiting_writes<M: Machine, F: Readiness>(
    alloc: Global,
    nodes: &[Actor<M>],
    files: &mut F,
) -> Result<Vec<usize>, NoMemory>
    ensures { F.shows files.new ≡ F.shows files.old }
{
    let mut writes = Vec::new(alloc);
    for node in 0..nodes.len() {
        if let Some(file) = next_write(nodes, node) {
            if files.output_would_wait(file) {
                writes.push(file)?;
            }
        }
    }
    Ok(writes)
}

// How many writes to these files would wait.
fn count_waiting_writes<F: Readiness>(writes: &[usize], files: &mut F) -> usize
    ensures { F.shows files.new ≡ F.shows files.old }
{
    let mut waiting = 0usize;
    for file in writes {
        waiting = waiting.saturating_add(usize::from(files.output_would_wait(*file)));
    }
    waiting
}

// How many reads of these files would wait.
fn count_waiting<F: Readiness>(reads: &[usize], files: &mut F) -> usize
    ensures { F.shows files.new ≡ F.shows files.old }
{
    let mut waiting = 0usize;
    for file in reads {
        waiting = waiting.saturating_add(usize::from(files.would_wait(*file)));
    }
    waiting
}
