ghost use Rattle.std.specs.Prelude.{IsTrue, ◌↔◌, ◌≡◌, ℕ, ◌<◌, ◌==◌, List, [], length, map, Option, None, Some, option_map, slice_get, slice_index_or, IfOk, OnOk, if◌then◌else◌};
ghost use Rattle.std.specs.Option.{unwrap_or};
ghost use Rattle.machine.specs.Whole.{is_some_missing, WholeAnswer};
ghost use Rattle.graphs.specs.Graph.{IsPlan, IsPipe, node_at, writer};
ghost use Rattle.network_laws.specs.Sequential.{answer, answer_status, is_missing as is_missing_in, negated as negated_by, missing_in, inputs_at, output_of, status_at};
ghost use Rattle.network_tests.specs.inner.Plans.{graph_of, graph_node, contents_of, whole_lists, list_at, ArePipes};

use crate::plan::{SmallNode, SmallPlan};
use machine::NoMemory;
use std::alloc::Global;

/// A filter as a function of its whole inputs; a missing one is None.
pub trait WholeFilter: Drop {
    /// What it makes of them.
    ghost whole: { Self → WholeAnswer };

    /// The bytes that it writes.
    fn run_whole(&self, alloc: Global, inputs: &[Option<Vec<u8>>]) -> Result<Vec<u8>, NoMemory>
        ensures { IfOk result (λ out. out.items ≡ (whole self.now (whole_lists inputs.now)).out) };
}

/// What each pipe of a plan holds once all its nodes have run, one after another, and the exit status.
#[derive(Drop)]
pub struct Computed {
    pub pipes: Vec<Vec<u8>>,
    pub status: u8,
}

/// Computes the sequential answer of a small plan: every node in planned order, each on whole
/// inputs. `contents` has what each source holds, by the node's number, None if it is missing.
pub fn sequential_answer<F: WholeFilter>(
    alloc: Global,
    plan: &SmallPlan<F>,
    contents: &[Option<Vec<u8>>],
) -> Result<Computed, NoMemory>
    requires plan { IsPlan (graph_of F.whole plan.now) }
    requires contents { length contents.now ≡ length plan.now.nodes.items }
    ensures count { IfOk result (λ c. length c.pipes.items ≡ length plan.now.pipes.items) }
    ensures pipes { let g = graph_of F.whole plan.now
        in IfOk result
        (λ c. (p : ℕ) → IsPipe g p
        → list_at c.pipes.items p ≡ answer g (contents_of contents.now) p) }
    ensures status { IfOk result
        (λ c. c.status ≡ answer_status (graph_of F.whole plan.now) (contents_of contents.now)) }
{
    let mut held = empty_lists(alloc, plan.pipes.len())?;
    for node in 0..plan.nodes.len() {
        let out = run_node(alloc, plan, contents, held.as_slice(), node)?;
        give(
            alloc,
            &mut held,
            plan.pipes.as_slice(),
            node,
            out.as_slice(),
        )?;
    }
    let status = status(plan, contents);
    Ok(Computed {
        pipes: held,
        status,
    })
}

// Empty lists, `count` of them.
fn empty_lists(alloc: Global, count: usize) -> Result<Vec<Vec<u8>>, NoMemory>
    ensures count { IfOk result (λ held. length held.items ≡ count) }
    ensures empty { IfOk result (λ held. (p : ℕ) → list_at held.items p ≡ []) }
{
    let mut held = Vec::new(alloc);
    for _ in 0..count {
        held.push(Vec::new(alloc))?;
    }
    Ok(held)
}

// What a node gives to each of its pipes.
fn run_node<F: WholeFilter>(
    alloc: Global,
    plan: &SmallPlan<F>,
    contents: &[Option<Vec<u8>>],
    held: &[Vec<u8>],
    node: usize,
) -> Result<Vec<u8>, NoMemory>
    requires plan { IsPlan (graph_of F.whole plan.now) }
    requires contents { length contents.now ≡ length plan.now.nodes.items }
    requires held { length held.now ≡ length plan.now.pipes.items }
    requires node { node < length plan.now.nodes.items }
    ensures { let g = graph_of F.whole plan.now
        in IfOk result
        (λ out. out.items
        ≡ output_of g (contents_of contents.now) (list_at held.now) node (node_at g node)) }
{
    match &plan.nodes[node] {
        SmallNode::EmptySource => Ok(Vec::new(alloc)),
        SmallNode::Source => content(alloc, contents, node),
        SmallNode::Stage { filter, inputs, .. } => {
            let whole = whole_inputs(alloc, plan, contents, held, inputs.as_slice())?;
            filter.run_whole(alloc, whole.as_slice())
        }
        SmallNode::Sink => Ok(Vec::new(alloc)),
    }
}

// What a source has: nothing if it is missing.
fn content(alloc: Global, contents: &[Option<Vec<u8>>], node: usize) -> Result<Vec<u8>, NoMemory>
    requires { node < length contents.now }
    ensures { IfOk result (λ out. out.items ≡ unwrap_or (contents_of contents.now node) []) }
{
    match &contents[node] {
        Some(bytes) => Ok(Vec::from_slice(alloc, bytes.as_slice())?),
        None => Ok(Vec::new(alloc)),
    }
}

// The whole inputs of a stage, in order.
fn whole_inputs<F: WholeFilter>(
    alloc: Global,
    plan: &SmallPlan<F>,
    contents: &[Option<Vec<u8>>],
    held: &[Vec<u8>],
    inputs: &[usize],
) -> Result<Vec<Option<Vec<u8>>>, NoMemory>
    requires plan { IsPlan (graph_of F.whole plan.now) }
    requires contents { length contents.now ≡ length plan.now.nodes.items }
    requires held { length held.now ≡ length plan.now.pipes.items }
    requires inputs { ArePipes plan.now inputs.now }
    ensures { IfOk result
        (λ whole. whole_lists whole.items
        ≡ inputs_at (graph_of F.whole plan.now) (missing_in (contents_of contents.now))
        (list_at held.now) inputs.now) }
{
    let mut whole = Vec::new(alloc);
    for pipe in inputs {
        whole.push(input(alloc, plan, contents, held, *pipe)?)?;
    }
    Ok(whole)
}

// The input that a pipe is: None if its writer is a missing source.
fn input<F: WholeFilter>(
    alloc: Global,
    plan: &SmallPlan<F>,
    contents: &[Option<Vec<u8>>],
    held: &[Vec<u8>],
    pipe: usize,
) -> Result<Option<Vec<u8>>, NoMemory>
    requires plan { IsPlan (graph_of F.whole plan.now) }
    requires contents { length contents.now ≡ length plan.now.nodes.items }
    requires held { length held.now ≡ length plan.now.pipes.items }
    requires pipe { pipe < length plan.now.pipes.items }
    ensures { let g = graph_of F.whole plan.now
        in IfOk result
        (λ input. option_map (λ v. v.items) input
        ≡ (if is_missing_in g (missing_in (contents_of contents.now)) (writer g pipe) then None
        else Some (list_at held.now pipe))) }
{
    if is_missing(plan, contents, pipe) {
        return Ok(None);
    }
    Ok(Some(Vec::from_slice(alloc, held[pipe].as_slice())?))
}

// Whether the writer of a pipe is a missing source.
fn is_missing<F: WholeFilter>(
    plan: &SmallPlan<F>,
    contents: &[Option<Vec<u8>>],
    pipe: usize,
) -> bool
    requires plan { IsPlan (graph_of F.whole plan.now) }
    requires contents { length contents.now ≡ length plan.now.nodes.items }
    requires pipe { pipe < length plan.now.pipes.items }
    ensures { let g = graph_of F.whole plan.now in result
        ≡ is_missing_in g (missing_in (contents_of contents.now)) (writer g pipe) }
{
    let node = plan.pipes[pipe].0;
    match &plan.nodes[node] {
        SmallNode::Source => contents[node].is_none(),
        _ => false,
    }
}

// A node's output is given to each of its pipes.
fn give(
    alloc: Global,
    held: &mut Vec<Vec<u8>>,
    pipes: &[(usize, usize)],
    node: usize,
    out: &[u8],
) -> Result<(), NoMemory>
    requires { length held.old.items ≡ length pipes.now }
    ensures count { OnOk result (length held.new.items ≡ length pipes.now) }
    ensures given { OnOk result
        ((p : ℕ) → p < length pipes.now
        → list_at held.new.items p
        ≡ (if (slice_index_or pipes.now p (0, 0)).0 == node then out.now
        else list_at held.old.items p)) }
{
    for (pipe, ends) in pipes.iter().enumerate() {
        if writes(*ends, node) {
            held[pipe] = Vec::from_slice(alloc, out)?;
        }
    }
    Ok(())
}

// Whether a node writes the pipe with these ends.
fn writes(ends: (usize, usize), node: usize) -> bool
    ensures { IsTrue result ↔ (ends.0 ≡ node) }
{
    ends.0 == node
}

// The exit status of the run.
fn status<F: WholeFilter>(plan: &SmallPlan<F>, contents: &[Option<Vec<u8>>]) -> u8
    requires plan { IsPlan (graph_of F.whole plan.now) }
    requires contents { length contents.now ≡ length plan.now.nodes.items }
    ensures { result ≡ answer_status (graph_of F.whole plan.now) (contents_of contents.now) }
{
    let (node, negated) = plan.result;
    status_under(negated, has_failed(plan, contents, node))
}

// The exit status under `!`, or without it, of a pipeline whose last command has failed or not.
fn status_under(negated: bool, failed: bool) -> u8
    ensures { result ≡ negated_by negated (if failed then 1 else 0) }
{
    u8::from(failed != negated)
}

// Whether the exit status of a node is 1.
fn has_failed<F: WholeFilter>(
    plan: &SmallPlan<F>,
    contents: &[Option<Vec<u8>>],
    node: usize,
) -> bool
    requires plan { IsPlan (graph_of F.whole plan.now) }
    requires contents { length contents.now ≡ length plan.now.nodes.items }
    requires node { node < length plan.now.nodes.items }
    ensures { let g = graph_of F.whole plan.now in (held : ℕ → List ℕ)
        → status_at g (contents_of contents.now) held (node_at g node) ≡ (if result then 1 else 0) }
{
    match &plan.nodes[node] {
        SmallNode::Stage { inputs, .. } => some_missing(plan, contents, inputs.as_slice()),
        _ => false,
    }
}

// Whether one of the inputs is missing.
fn some_missing<F: WholeFilter>(
    plan: &SmallPlan<F>,
    contents: &[Option<Vec<u8>>],
    inputs: &[usize],
) -> bool
    requires plan { IsPlan (graph_of F.whole plan.now) }
    requires contents { length contents.now ≡ length plan.now.nodes.items }
    requires inputs { ArePipes plan.now inputs.now }
    ensures { (held : ℕ → List ℕ)
        → result ≡ is_some_missing
        (inputs_at (graph_of F.whole plan.now)
        (missing_in (contents_of contents.now)) held inputs.now) }
{
    for pipe in inputs {
        if is_missing(plan, contents, *pipe) {
            return true;
        }
    }
    false
}
