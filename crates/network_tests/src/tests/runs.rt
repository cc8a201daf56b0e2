// Networks of scripts, with the files in memory that they work on. In the scripts of actions `step
// NODE` returns the result of a step of the node, `run ROUNDS` that of a run, `rerun ROUNDS` how
// many reads it had, `grow` the pipe that grew, and `capacities` those of all pipes; `amounts PIPES`
// returns how many pieces and bytes each pipe moved, if there is room for this many pipes, and
// `times NODES` how long the nodes took; `growths` returns how often a pipe grew in rounds; `missing` returns the
// operands that could not be opened, and `file NODE` the number of the node's open file.
ghost use Rattle.std.specs.Prelude.{◌≡◌, ◌<◌, IfOk};
ghost use Rattle.std.specs.List.{AllByRecursion};

use super::memory::set;
use super::plans::plan_of;
use super::*;
use bounded_pipe::BYTES_MAX;
use file_stores::MemoryFiles;
use filters::Filter;
use network_laws::{Outcome, RoundsSpent};
use networks::{Network, NoClock, Report};
use openings::{Opened, open};
use run_types::{Amount, Settings, Statistics, Step};
use std::marker::Model;
use step_scheduler::make_network;

// A network, the files that it works on, and those that were opened for it. Contracts see how many nodes it has.
#[derive(Drop)]
pub(super) struct Running {
    files: MemoryFiles,
    opened: Opened,
    network: Network<Filter>,
    count: usize,
    pipes: usize,
}

impl Model for Running {
    ghost use Rattle.std.specs.Prelude.{◌≡◌, ℕ, length};
    ghost use Rattle.file_stores.specs.inner.Memory.{shown_files};
    ghost use Rattle.networks.specs.Networks.{HasOpened};

    ghost Value = { ℕ };

    ghost view = { λ r. r.count };

    ghost invariant = { λ r. HasOpened r.network (shown_files r.files)
        × (r.count ≡ length r.network.nodes) };
}

// Files with the input `in`.
fn files_with(alloc: Global, text: &[u8]) -> Result<MemoryFiles, Fail> {
    let mut files = MemoryFiles::new(alloc);
    files.add(b"in", text)?;
    Ok(files)
}

// How many items a pipe holds, and may grow to hold; how many bytes it holds; and how many bytes a piece has at most.
#[derive(Clone, Copy)]
pub(super) struct Sizes {
    pub(super) capacity: usize,
    pub(super) most: usize,
    pub(super) bytes: usize,
    pub(super) block: usize,
}

impl Sizes {
    // The settings of these sizes, each within its bounds.
    fn settings(self) -> Settings {
        let capacity = self.capacity.clamp(1, 4096);
        let block = self.block.clamp(1, 65536);
        Settings {
            workers: 1,
            fits_workers: false,
            capacity,
            max_capacity: self.most.clamp(capacity, 4096),
            bytes: self.bytes.clamp(block, BYTES_MAX),
            block,
            first_read: block,
            turns: 1,
        }
    }
}

// The sizes of pipes that do not grow.
pub(super) fn fixed(capacity: usize, bytes: usize, block: usize) -> Sizes {
    Sizes {
        capacity,
        most: capacity,
        bytes,
        block,
    }
}

// The sizes of pipes of one item, which may grow to hold `most`.
fn growing(most: usize) -> Sizes {
    Sizes {
        most,
        ..fixed(1, BYTES_MAX, 1)
    }
}

// The network of a script over these files, which are opened.
pub(super) fn start(
    alloc: Global,
    script: &str,
    mut files: MemoryFiles,
    sizes: Sizes,
) -> Result<Running, Fail> {
    let plan = plan_of(alloc, script)?;
    let opened = open(alloc, &plan, &mut files)?;
    let network = make_network(alloc, &plan, &opened, sizes.settings())?;
    Ok(Running {
        files,
        opened,
        network,
        count: plan.order().len(),
        pipes: plan.pipes().len(),
    })
}

impl Running {
    // A step of the node with this number.
    fn step(&mut self, node: usize) -> Step
        ensures { self.new ≡ self.old }
    {
        if node < self.count {
            self.network.step(node, &mut self.files, &NoClock)
        } else {
            Step::Failed
        }
    }

    // How many of these steps moved something.
    fn moved(&mut self, nodes: &[usize]) -> usize
        ensures { self.new ≡ self.old }
    {
        let mut moved = 0usize;
        for node in nodes {
            moved = moved.saturating_add(usize::from(self.step(*node) == Step::Moved));
        }
        moved
    }

    // The same steps at once.
    fn schedule(&mut self, nodes: &[usize]) -> Report
        requires { AllByRecursion (λ k. k < self.old) nodes.now }
        ensures { self.new ≡ self.old }
    {
        self.network.run_schedule(nodes, &mut self.files)
    }

    // What an output holds.
    fn output(&self, name: &str) -> &[u8] {
        self.files.content(name.as_bytes()).unwrap_or(b"?")
    }

    // The files that it works on.
    pub(super) fn files(&self) -> &MemoryFiles {
        &self.files
    }

    // The result of a run of at most this many rounds.
    pub(super) fn run(&mut self, alloc: Global, rounds: &str) -> Result<Vec<u8>, Fail>
        ensures { self.new ≡ self.old }
    {
        let rounds = rounds.parse()?;
        told(
            alloc,
            self.network
                .run_in_turn(alloc, rounds, &mut self.files, &NoClock),
        )
    }

    // Which pipe grew, if one did.
    fn grow(&mut self, alloc: Global) -> Result<Vec<u8>, Fail>
        ensures { self.new ≡ self.old }
    {
        let grown = self.network.grow(alloc)?;
        debugged(alloc, &grown)
    }

    // How many items each pipe can hold.
    fn capacities(&self, alloc: Global) -> Result<Vec<u8>, Fail> {
        let mut capacities = Vec::new(alloc);
        for pipe in 0..self.pipes {
            capacities.push(self.network.capacity(pipe))?;
        }
        debugged(alloc, &capacities)
    }

    // What the run moved, if there is room for this many pipes and nodes.
    fn statistics(&self, alloc: Global, pipes: usize, nodes: usize) -> Statistics {
        let mut statistics = Statistics::new(alloc, pipes, nodes);
        self.network.statistics(&mut statistics);
        statistics
    }

    // How many pieces and bytes each pipe moved, if there is room for this many pipes.
    fn amounts(&self, alloc: Global, pipes: usize) -> Result<Vec<u8>, Fail> {
        let mut amounts = Vec::new(alloc);
        for Amount { pieces, bytes } in &self.statistics(alloc, pipes, 0).amounts {
            amounts.push((*pieces, *bytes))?;
        }
        debugged(alloc, &amounts)
    }

    // How many reads there were in it.
    fn rerun(&mut self, alloc: Global, rounds: &str) -> Result<Vec<u8>, Fail> {
        let before = self.files.reads();
        self.run(alloc, rounds)?;
        shown(alloc, &self.files.reads().saturating_sub(before))
    }
}

impl Bench for Running {
    fn act(&mut self, alloc: Global, action: &str, with: &str) -> Result<Vec<u8>, Fail> {
        match action {
            "step" => debugged(alloc, &self.step(with.parse()?)),
            "run" => self.run(alloc, with),
            "rerun" => self.rerun(alloc, with),
            "grow" => self.grow(alloc),
            "capacities" => self.capacities(alloc),
            "amounts" => self.amounts(alloc, with.parse()?),
            "times" => debugged(alloc, &self.statistics(alloc, 0, with.parse()?).times),
            "growths" => shown(alloc, &self.statistics(alloc, 0, 0).growths),
            "missing" => debugged(alloc, &self.opened.missing()),
            "file" => debugged(alloc, &self.opened.file(with.parse()?)),
            _ => set(&mut self.files, alloc, action, with),
        }
    }
}

// What a run came to, in words.
fn told(alloc: Global, outcome: Result<Outcome, RoundsSpent>) -> Result<Vec<u8>, Fail> {
    match outcome {
        Ok(Outcome::Finished { status }) => shown(alloc, &status),
        Ok(Outcome::Stalled { .. }) => bytes_of(alloc, b"stalled"),
        Ok(Outcome::Faulted { fault }) => shown(alloc, &fault),
        Err(RoundsSpent) => bytes_of(alloc, b"spent"),
    }
}

// Numbers below a count, of a linear congruential generator.
fn numbers(alloc: Global, seed: usize, count: usize, most: usize) -> Result<Vec<usize>, Fail>
    requires { 0 < count }
    ensures { IfOk result (λ numbers. AllByRecursion (λ k. k < count) numbers.items) }
{
    let mut numbers = Vec::new(alloc);
    let mut state = seed;
    for _ in 0..most {
        state = state
            .wrapping_mul(6364136223846793005)
            .wrapping_add(1442695040888963407);
        numbers.push((state >> 33) % count)?;
    }
    Ok(numbers)
}

// What was written is a prefix of this, or all of it if every node has ended.
fn is_part(rt: &impl Abort, content: &[u8], wanted: &[u8], line: &str, all_ended: bool) {
    assert!(rt; wanted.starts_with(content), "{line}");
    assert!(rt; !all_ended || wanted.len() == content.len(), "{line}");
}

// The output of a run has a prefix of this, or all of it if every node has ended; and the same as
// that of another run.
fn has_part(
    rt: &impl Abort,
    alloc: Global,
    one: &Running,
    other: &Running,
    line: &str,
    all_ended: bool,
) -> Result<(), Fail> {
    let (name, wanted) = halves(line, " ");
    let wanted = decoded(alloc, wanted)?;
    let content = one.output(name);
    is_part(rt, content, wanted.as_slice(), line, all_ended);
    are_same(rt, other.output(name), content, line);
    Ok(())
}

// The same steps on two networks of one plan, on one of them at once, and on the other one after another. Whether each node has
// ended.
fn compare(
    rt: &impl Abort,
    alloc: Global,
    one: &mut Running,
    other: &mut Running,
    nodes: &[usize],
    outputs: &str,
) -> Result<bool, Fail>
    requires { AllByRecursion (λ k. k < one.old) nodes.now }
{
    let report = one.schedule(nodes);
    assert_eq!(rt; other.moved(nodes), report.moved);
    for line in outputs.lines() {
        has_part(rt, alloc, one, other, line, report.all_ended)?;
    }
    Ok(report.all_ended)
}

// A schedule of two networks of one plan, the longer the greater the seed is.
fn schedule(
    rt: &impl Abort,
    alloc: Global,
    seed: usize,
    one: &mut Running,
    other: &mut Running,
    outputs: &str,
) -> Result<bool, Fail> {
    let count = one.count;
    if count == 0 {
        return Err("there is no node")?;
    }
    let nodes = numbers(alloc, seed, count, seed.saturating_mul(4))?;
    compare(rt, alloc, one, other, nodes.as_slice(), outputs)
}

// The network of a script over an input.
fn started(alloc: Global, script: &str, text: &[u8], sizes: Sizes) -> Result<Running, Fail> {
    let files = files_with(alloc, text)?;
    start(alloc, script, files, sizes)
}

// A schedule of this network of a script over an input, and of another one.
fn schedule_beside(
    rt: &impl Abort,
    alloc: Global,
    seed: usize,
    one: &mut Running,
    over: (&str, &[u8], usize),
    outputs: &str,
) -> Result<bool, Fail> {
    let (script, text, capacity) = over;
    let mut other = started(alloc, script, text, fixed(capacity, BYTES_MAX, 1))?;
    schedule(rt, alloc, seed, one, &mut other, outputs)
}

// A schedule of two networks of a script over an input.
fn schedule_both(
    rt: &impl Abort,
    alloc: Global,
    seed: usize,
    over: (&str, &[u8], usize),
    outputs: &str,
) -> Result<bool, Fail> {
    let (script, text, capacity) = over;
    let mut one = started(alloc, script, text, fixed(capacity, BYTES_MAX, 1))?;
    schedule_beside(rt, alloc, seed, &mut one, over, outputs)
}

// 100 schedules of a script over an input, with this capacity. How many of them came to the end.
fn schedules(
    rt: &impl Abort,
    alloc: Global,
    over: (&str, &[u8], usize),
    outputs: &str,
) -> Result<usize, Fail> {
    let mut ended = 0usize;
    for seed in 0..100 {
        ended = ended.saturating_add(usize::from(schedule_both(rt, alloc, seed, over, outputs)?));
    }
    Ok(ended)
}

const WAY_ROUND: &str = "mkfifo f; tee f < in | tail -n 1 | paste - f > out";

pub(super) fn are_some(rt: &impl Abort, ended: usize) {
    assert!(rt; 0 < ended && ended < 100, "{ended}");
}

#[test]
fn tee_with_closed_branch(rt: HostRuntime) -> Result<(), Fail> {
    let script = "mkfifo f; tee f < in | head -n 1 > o1 & cat f > o2";
    let ended = schedules(
        &rt,
        rt.alloc(),
        (script, b"x\ny\nz\n", 1),
        r"o1 x%0A
o2 x%0Ay%0Az%0A",
    )?;
    are_some(&rt, ended);
    Ok(())
}

// Plays lines on the network of a script over these files.
fn play_run(
    alloc: Global,
    script: &str,
    text: &[u8],
    sizes: Sizes,
    lines: usize,
    actions: &str,
) -> Result<(), Fail> {
    let mut running = started(alloc, script, text, sizes)?;
    play(alloc, &mut running, lines, actions)
}

#[test]
fn rounds_are_spent_and_then_it_finishes(rt: HostRuntime) -> Result<(), Fail> {
    let actions = r"run 0 -> spent
run 1 -> spent
run 100 -> 0
content out -> b%09a%0A%09b%0A
run 1 -> 0";
    play_run(
        rt.alloc(),
        WAY_ROUND,
        b"a\nb\n",
        fixed(8, BYTES_MAX, 1),
        5,
        actions,
    )
}

#[test]
fn small_pipes_stall_in_rounds(rt: HostRuntime) -> Result<(), Fail> {
    let actions = r"step 4 -> Waits(4)
step 3 -> Waits(3)
step 0 -> Moved
step 0 -> Waits(0)
run 1 -> spent
run 100 -> stalled
step 0 -> Waits(0)
step 1 -> Waits(2)
step 2 -> Waits(1)
content out";
    play_run(
        rt.alloc(),
        WAY_ROUND,
        b"a\nb\n",
        fixed(1, BYTES_MAX, 1),
        10,
        actions,
    )
}

#[test]
fn full_pipes_grow_in_rounds(rt: HostRuntime) -> Result<(), Fail> {
    for most in [4, 4096] {
        let actions = r"capacities -> [1, 1, 1, 1, 1]
run 100 -> 0
content out -> b%09a%0A%09b%0A
capacities -> [2, 1, 4, 1, 1]
growths -> 3
amounts 5 -> [(4, 4), (4, 4), (4, 4), (2, 2), (7, 7)]
amounts 2 -> [(4, 4), (4, 4)]
amounts 6 -> [(4, 4), (4, 4), (4, 4), (2, 2), (7, 7), (0, 0)]
amounts 18446744073709551615 -> []
times 6 -> [0, 0, 0, 0, 0, 0]
grow -> None";
        play_run(rt.alloc(), WAY_ROUND, b"a\nb\n", growing(most), 11, actions)?;
    }
    Ok(())
}

#[test]
fn pipes_grow_no_further_than_the_most(rt: HostRuntime) -> Result<(), Fail> {
    for most in ["2", "3"] {
        let actions = format!(in rt.alloc();
            r"run 100 -> stalled
step 0 -> Ended
step 1 -> Waits(2)
step 2 -> Waits(1)
step 3 -> Waits(3)
step 4 -> Waits(4)
content out
capacities -> [2, 1, {most}, 1, 1]
grow -> None"
        )?;
        play_run(
            rt.alloc(),
            WAY_ROUND,
            b"a\nb\n",
            growing(most.parse()?),
            9,
            actions.as_str(),
        )?;
    }
    Ok(())
}

// A source that has put its piece does not wait, nor does one whose pipe grew.
#[test]
fn only_a_pipe_that_is_waited_for_grows(rt: HostRuntime) -> Result<(), Fail> {
    let actions = r"grow -> None
step 0 -> Moved
grow -> None
step 0 -> Waits(0)
grow -> Some(0)
capacities -> [2, 1, 1, 1, 1]
grow -> None
step 0 -> Moved
step 0 -> Waits(0)
grow -> Some(0)
capacities -> [4, 1, 1, 1, 1]";
    play_run(rt.alloc(), WAY_ROUND, b"a\nb\n", growing(4096), 11, actions)
}

// There are places for all items. Two or three bytes are in the pipe of the FIFO, and tee holds the next one.
#[test]
fn pipes_of_few_bytes_stall_in_rounds(rt: HostRuntime) -> Result<(), Fail> {
    for bytes in [2, 3] {
        let actions = r"run 100 -> stalled
step 0 -> Ended
step 1 -> Waits(2)
step 2 -> Waits(1)
step 3 -> Waits(3)
step 4 -> Waits(4)
content out";
        play_run(
            rt.alloc(),
            WAY_ROUND,
            b"a\nb\n",
            fixed(8, bytes, 1),
            7,
            actions,
        )?;
    }
    Ok(())
}

#[test]
fn pipes_of_enough_bytes_finish(rt: HostRuntime) -> Result<(), Fail> {
    let actions = r"run 100 -> 0
content out -> b%09a%0A%09b%0A";
    play_run(rt.alloc(), WAY_ROUND, b"a\nb\n", fixed(8, 4, 1), 2, actions)
}

// The source and cat put two pieces, of four bytes and of one, and then Close, which is no piece. A list has as many numbers as there was room for.
#[test]
fn what_went_through_pipes_is_counted(rt: HostRuntime) -> Result<(), Fail> {
    let actions = r"amounts 3 -> [(0, 0), (0, 0), (0, 0)]
step 0 -> Moved
amounts 3 -> [(1, 4), (0, 0), (0, 0)]
run 100 -> 0
content out -> ABCDE
amounts 3 -> [(2, 5), (2, 5), (2, 5)]
amounts 2 -> [(2, 5), (2, 5)]
times 0 -> []
growths -> 0";
    play_run(
        rt.alloc(),
        "cat in | tr a-z A-Z > out",
        b"abcde",
        fixed(4, BYTES_MAX, 4),
        9,
        actions,
    )
}

#[test]
fn a_failed_node_steps_nothing_more(rt: HostRuntime) -> Result<(), Fail> {
    let actions = r"fail-write 4
run 100 -> F2 WriteFault: out
content out -> abc
rerun 100 -> 0
run 100 -> F2 WriteFault: out
step 3 -> Failed";
    play_run(
        rt.alloc(),
        "cat in | cat > out",
        b"abcdef",
        fixed(1, BYTES_MAX, 1),
        6,
        actions,
    )
}

#[test]
fn operands_that_cannot_be_opened(rt: HostRuntime) -> Result<(), Fail> {
    let actions = r"missing -> [0, 2]
file 0 -> None
file 1 -> Some(0)
file 2 -> None
file 3 -> None
file 4 -> Some(0)
run 100 -> 1
content out -> ab";
    play_run(
        rt.alloc(),
        "cat none in nofile > out",
        b"ab",
        fixed(16, BYTES_MAX, 1),
        8,
        actions,
    )
}

const TWO_WAYS: &str = "mkfifo f; tee f < in | tr a-z A-Z > o1 & cat f > o2";

#[test]
fn a_limited_read_fails_in_mid_stream(rt: HostRuntime) -> Result<(), Fail> {
    let actions = r"limit-reads 2
fail-read 5
run 100 -> F1 ReadFault: in
content o1 -> ABCD
content o2 -> abcd
rerun 100 -> 0";
    play_run(
        rt.alloc(),
        TWO_WAYS,
        b"abcdefghijkl",
        fixed(2, BYTES_MAX, 4),
        6,
        actions,
    )
}

#[test]
fn a_limited_write_fails_in_mid_stream(rt: HostRuntime) -> Result<(), Fail> {
    let actions = r"limit-writes 1
fail-write 6
run 100 -> F2 WriteFault: o2
content o1 -> ABCD
content o2 -> a
rerun 100 -> 0";
    play_run(
        rt.alloc(),
        TWO_WAYS,
        b"abcdefgh",
        fixed(2, BYTES_MAX, 4),
        6,
        actions,
    )
}

// Of 245 pieces it reads few before head hangs up.
#[test]
fn an_early_head_reads_little(rt: HostRuntime) -> Result<(), Fail> {
    let lines = vec![in rt.alloc(); b'\n'; 1000000]?;
    let actions = r"rerun 100 -> 2
content out -> %0A";
    let script = "head -n 1 < in > out";
    play_run(
        rt.alloc(),
        script,
        lines.as_slice(),
        fixed(16, BYTES_MAX, 4096),
        2,
        actions,
    )
}
