// Whole graphs: `CAPACITY BLOCK SCRIPT` runs a script over files in memory. The result is empty if
// the outputs and the exit status are those of its stages run one after another, each on whole
// inputs; or if it has stalled, is no forest, and each output is a prefix of that. Otherwise it
// says what differs. Its pipes have room for the most bytes, or for no more than those of one
// block, or they grow.
use super::plans::plan_of;
use super::runs::{Running, Sizes, are_some, fixed, start};
use super::scripts::SCRIPTS;
use super::*;
use bounded_pipe::BYTES_MAX;
use commands::FilterSpec;
use file_stores::MemoryFiles;
use filters::Filter;
use machine::{Machine, NoMemory, Piece, Pieces, Presence, StageFault, Want};
use planner::{Node, Plan};
use run_types::{InName, OutName};

const STANDARD_INPUT: &[u8] = b"one, two\nthree\nthree\nab\n";

// The files that each run finds, by name. There is none of the name y.
const FILES: &str = r"a b a%0Aabab%0A%0A%0A%09ab and  a b%0Azz%0A
b a%0Aa%0Ab 1%0Ab 2%0A  b 2%0Ac%0Ac%0A%0A%0Aa
in 0%090%0A1%091%0A2%094%0A3%099%0A4%0916%0A5%0925%0A6%0936%0A7%0949%0A8%0964%0A9%0981%0A10%09100%0A11%09121%0A12%09144%0A
x
- no last newline";

// The greatest number of rounds of a run.
const ROUNDS: &str = "100000";

// Adds the file that a line names.
fn add_file(alloc: Global, files: &mut MemoryFiles, line: &str) -> Result<(), Fail> {
    let (name, content) = halves(line, " ");
    let content = decoded(alloc, content)?;
    files.add(name.as_bytes(), content.as_slice())?;
    Ok(())
}

// Adds the standard input and the files that each run finds.
fn add_all(alloc: Global, files: &mut MemoryFiles) -> Result<(), Fail> {
    files.set_input(STANDARD_INPUT)?;
    for line in FILES.lines() {
        add_file(alloc, files, line)?;
    }
    Ok(())
}

// The files that a run finds.
fn all_files(alloc: Global) -> Result<MemoryFiles, Fail> {
    let mut files = MemoryFiles::new(alloc);
    add_all(alloc, &mut files)?;
    Ok(files)
}

// The sequential answer of a plan: what each node writes, in planned order, if they run one after
// another, each on whole inputs. A missing source writes None.
fn sequential_answer(alloc: Global, plan: &Plan) -> Result<Vec<Option<Vec<u8>>>, Fail> {
    let files = all_files(alloc)?;
    Ok(run_nodes(alloc, plan, &files)?)
}

// What each node writes.
fn run_nodes(
    alloc: Global,
    plan: &Plan,
    files: &MemoryFiles,
) -> Result<Vec<Option<Vec<u8>>>, StageFault> {
    let mut written = Vec::new(alloc);
    for node in plan.order() {
        run_node(alloc, plan, files, &mut written, node)?;
    }
    Ok(written)
}

// Adds what the next node writes.
fn run_node(
    alloc: Global,
    plan: &Plan,
    files: &MemoryFiles,
    written: &mut Vec<Option<Vec<u8>>>,
    node: &Node,
) -> Result<(), StageFault> {
    let output = output_of(alloc, plan, files, written.as_slice(), node)?;
    match written.push(output) {
        Ok(()) => Ok(()),
        Err(_) => Err(StageFault::NoMemory),
    }
}

// What a node writes. A sink writes to no pipe.
fn output_of(
    alloc: Global,
    plan: &Plan,
    files: &MemoryFiles,
    written: &[Option<Vec<u8>>],
    node: &Node,
) -> Result<Option<Vec<u8>>, StageFault> {
    match node {
        Node::Source(None) | Node::Sink(_) => Ok(Some(Vec::new(alloc))),
        Node::Source(Some(name)) => Ok(content(alloc, files, name)?),
        Node::Stage { spec, inputs, .. } => {
            stage_output(alloc, spec, plan, written, inputs.as_slice())
        }
    }
}

// What a source has, None if there is no such file.
fn content(alloc: Global, files: &MemoryFiles, name: &InName) -> Result<Option<Vec<u8>>, NoMemory> {
    let content = match name {
        InName::Standard => Some(STANDARD_INPUT),
        InName::File(name) => files.content(name.bytes()),
    };
    match content {
        Some(content) => Ok(Some(Vec::from_slice(alloc, content)?)),
        None => Ok(None),
    }
}

// What a pipe has, None if its writer is a missing source.
fn held<'a>(plan: &Plan, written: &'a [Option<Vec<u8>>], pipe: usize) -> Option<&'a [u8]> {
    let (writer, _) = plan.pipes().get(pipe)?;
    written_by(written, *writer)
}

// What a node has written, None if it is a missing source.
fn written_by<'a>(written: &'a [Option<Vec<u8>>], node: usize) -> Option<&'a [u8]> {
    match written.get(node) {
        Some(Some(bytes)) => Some(bytes.as_slice()),
        _ => None,
    }
}

// What a stage writes. One that has not as many inputs as it should writes nothing that is there.
fn stage_output(
    alloc: Global,
    spec: &FilterSpec,
    plan: &Plan,
    written: &[Option<Vec<u8>>],
    inputs: &[usize],
) -> Result<Option<Vec<u8>>, StageFault> {
    let whole = whole_inputs(alloc, plan, written, inputs)?;
    let told = presences(alloc, plan, written, inputs)?;
    if told.len() != spec.input_count() {
        return Ok(None);
    }
    let machine = Filter::new(alloc, spec, told.as_slice())?;
    Ok(Some(whole_answer(alloc, machine, whole)?))
}

// Whether an input is there.
fn presence(plan: &Plan, written: &[Option<Vec<u8>>], pipe: usize) -> Presence {
    match held(plan, written, pipe) {
        Some(_) => Presence::Present,
        None => Presence::Missing,
    }
}

// Which inputs of a stage are there.
fn presences(
    alloc: Global,
    plan: &Plan,
    written: &[Option<Vec<u8>>],
    inputs: &[usize],
) -> Result<Vec<Presence>, NoMemory> {
    let mut told = Vec::new(alloc);
    for pipe in inputs {
        told.push(presence(plan, written, *pipe))?;
    }
    Ok(told)
}

// The inputs of a stage, each in as few pieces as can be.
fn whole_inputs(
    alloc: Global,
    plan: &Plan,
    written: &[Option<Vec<u8>>],
    inputs: &[usize],
) -> Result<Vec<Pieces>, NoMemory> {
    let mut whole = Vec::new(alloc);
    for pipe in inputs {
        let mut pieces = Pieces::new(alloc, 65536);
        pieces.push_bytes(held(plan, written, *pipe).unwrap_or(b""))?;
        whole.push(pieces)?;
    }
    Ok(whole)
}

// What a machine makes of whole inputs.
fn whole_answer(
    alloc: Global,
    mut machine: Filter,
    mut whole: Vec<Pieces>,
) -> Result<Vec<u8>, StageFault> {
    let mut out = Pieces::new(alloc, 65536);
    run_whole(&mut machine, whole.as_mut_slice(), &mut out)?;
    Ok(joined(alloc, out)?)
}

// Hands a machine what it wants until it wants nothing more; at most 1,000 times.
fn run_whole(
    machine: &mut Filter,
    whole: &mut [Pieces],
    out: &mut Pieces,
) -> Result<(), StageFault> {
    for _ in 0..1000 {
        if !goes_on(machine, whole, out)? {
            return Ok(());
        }
    }
    Ok(())
}

// Hands a machine what it wants next, if it wants anything.
fn goes_on(
    machine: &mut Filter,
    whole: &mut [Pieces],
    out: &mut Pieces,
) -> Result<bool, StageFault> {
    let Want::Take(input) = machine.want() else {
        return Ok(false);
    };
    match next_piece(whole, input) {
        Some(piece) => machine.feed(input, piece, out)?,
        None => machine.close(input, out)?,
    }
    Ok(true)
}

// The next piece of an input, if there is one.
fn next_piece(whole: &mut [Pieces], input: usize) -> Option<Piece> {
    whole.get_mut(input)?.pop_front()
}

// The bytes of pieces.
fn joined(alloc: Global, mut pieces: Pieces) -> Result<Vec<u8>, NoMemory> {
    let mut bytes = Vec::new(alloc);
    while let Some(piece) = pieces.pop_front() {
        bytes.extend_from_slice(piece.bytes())?;
    }
    Ok(bytes)
}

// Whether one of these inputs is missing.
fn is_some_missing(plan: &Plan, written: &[Option<Vec<u8>>], inputs: &[usize]) -> bool {
    for pipe in inputs {
        if held(plan, written, *pipe).is_none() {
            return true;
        }
    }
    false
}

// The exit status, as it is printed.
fn status(plan: &Plan, written: &[Option<Vec<u8>>]) -> &'static [u8] {
    let (node, negated) = plan.result();
    let failed = match plan.order().get(node) {
        Some(Node::Stage { inputs, .. }) => is_some_missing(plan, written, inputs.as_slice()),
        _ => false,
    };
    if failed == negated { b"0" } else { b"1" }
}

// What an output holds.
fn output<'a>(files: &'a MemoryFiles, name: &OutName) -> Option<&'a [u8]> {
    match name {
        OutName::Standard => Some(files.output()),
        OutName::File { name, .. } => files.content(name.bytes()),
    }
}

// Whether a node is no sink, or has written this; in a run that has stalled, a prefix of it.
fn is_right(files: &MemoryFiles, node: Option<&Node>, wanted: &[u8], stalled: bool) -> bool {
    let Some(Node::Sink(name)) = node else {
        return true;
    };
    match output(files, name) {
        Some(shown) => wanted.starts_with(shown) && (stalled || wanted.len() == shown.len()),
        None => false,
    }
}

// Whether each sink has written what is on its pipe.
fn are_right(
    files: &MemoryFiles,
    pipes: &[(usize, usize)],
    nodes: &[Node],
    written: &[Option<Vec<u8>>],
    stalled: bool,
) -> bool {
    for (writer, reader) in pipes {
        let wanted = written_by(written, *writer).unwrap_or(b"");
        if !is_right(files, nodes.get(*reader), wanted, stalled) {
            return false;
        }
    }
    true
}

// How a run differs that left these files and this result.
fn difference(
    files: &MemoryFiles,
    plan: &Plan,
    written: &[Option<Vec<u8>>],
    outcome: &[u8],
) -> &'static [u8] {
    let stalled = outcome == b"stalled".as_slice();
    if stalled && plan.is_forest() {
        b"a forest has stalled"
    } else if !are_right(files, plan.pipes(), plan.order(), written, stalled) {
        b"an output differs"
    } else if !stalled && outcome != status(plan, written) {
        b"the outcome differs"
    } else {
        b""
    }
}

// The network of a script, with the given limits of a pipe, and this block.
fn started(alloc: Global, script: &str, sizes: Sizes) -> Result<Running, Fail> {
    start(alloc, script, all_files(alloc)?, sizes)
}

// Runs a script, and says how that differs from the sequential answer, and whether it has stalled.
fn run_beside(
    alloc: Global,
    script: &str,
    sizes: Sizes,
    plan: &Plan,
    written: &[Option<Vec<u8>>],
) -> Result<(&'static [u8], bool), Fail> {
    let mut running = started(alloc, script, sizes)?;
    let outcome = running.run(alloc, ROUNDS)?;
    let outcome = outcome.as_slice();
    let difference = difference(running.files(), plan, written, outcome);
    Ok((difference, outcome == b"stalled".as_slice()))
}

// The same of a script alone.
fn compare(alloc: Global, script: &str, sizes: Sizes) -> Result<(&'static [u8], bool), Fail> {
    let plan = plan_of(alloc, script)?;
    let written = sequential_answer(alloc, &plan)?;
    run_beside(alloc, script, sizes, &plan, written.as_slice())
}

// How the pipes of a run are made.
#[derive(Clone, Copy, Debug, PartialEq, Eq)]
enum Room {
    // They never grow, and hold the most bytes.
    Fixed,
    // They never grow, and hold the bytes of one block alone.
    FewBytes,
    // They grow to hold the most items.
    Growing,
}

impl Room {
    // The sizes of pipes with this capacity and block.
    fn sizes(self, capacity: usize, block: usize) -> Sizes {
        match self {
            Room::Fixed => fixed(capacity, BYTES_MAX, block),
            Room::FewBytes => fixed(capacity, block, block),
            Room::Growing => Sizes {
                most: 4096,
                ..fixed(capacity, BYTES_MAX, block)
            },
        }
    }
}

// Runs scripts, and counts the runs that have stalled.
#[derive(Drop)]
struct WholeGraphs {
    room: Room,
    stalled: usize,
}

impl Bench for WholeGraphs {
    fn act(&mut self, alloc: Global, action: &str, with: &str) -> Result<Vec<u8>, Fail> {
        let (block, script) = halves(with, " ");
        let sizes = self.room.sizes(action.parse()?, block.parse()?);
        let (difference, stalled) = compare(alloc, script, sizes)?;
        if stalled {
            self.stalled = self.stalled.saturating_add(1);
        }
        bytes_of(alloc, difference)
    }
}

// How many of the runs of all scripts have stalled.
fn count_stalled(alloc: Global, room: Room) -> Result<usize, Fail> {
    let stalled = 0;
    let mut graphs = WholeGraphs { room, stalled };
    play(alloc, &mut graphs, 300, SCRIPTS)?;
    Ok(graphs.stalled)
}

#[test]
fn runs_have_their_sequential_answer(rt: HostRuntime) -> Result<(), Fail> {
    for room in [Room::Fixed, Room::FewBytes] {
        are_some(&rt, count_stalled(rt.alloc(), room)?);
    }
    Ok(())
}

#[test]
fn runs_whose_pipes_grow_never_stall(rt: HostRuntime) -> Result<(), Fail> {
    assert_eq!(rt; count_stalled(rt.alloc(), Room::Growing)?, 0);
    Ok(())
}
