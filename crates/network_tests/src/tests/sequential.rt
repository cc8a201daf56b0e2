// The sequential answer of a worked script: `pipe NUMBER` returns what the pipe with this number
// holds, and `status` the exit status.
ghost use Rattle.std.specs.Prelude.{◌≡◌, ℕ, ◌<◌, true, false, List, IfOk, Option, length};
ghost use Rattle.graphs.specs.Graph.{Stage};
ghost use Rattle.network_tests.specs.inner.Plans.{graph_of, graph_node};
ghost use Rattle.network_laws.specs.Worked.{tee_graph};

use super::small::Small;
use super::*;
use crate::{Computed, SmallNode, SmallPlan, WholeFilter, sequential_answer};
use machine::NoMemory;
use network_laws::laws::worked_answers_are_right;

// A stage.
fn stage(
    alloc: Global,
    filter: Small,
    inputs: &[usize],
    branches: &[Option<usize>],
) -> Result<SmallNode<Small>, NoMemory>
    ensures { IfOk result
        (λ node. graph_node ⟦<Small as WholeFilter>⟧.whole node
        ≡ Stage (⟦<Small as WholeFilter>⟧.whole filter) inputs.now branches.now) }
{
    Ok(SmallNode::Stage {
        filter,
        inputs: Vec::from_slice(alloc, inputs)?,
        branches: Vec::from_slice(alloc, branches)?,
    })
}

// One that writes all of its inputs as they are.
fn copies() -> Small
    ensures { result ≡ record { first = false } }
{
    Small { first: false }
}

// One that writes the first line.
fn first_line() -> Small
    ensures { result ≡ record { first = true } }
{
    Small { first: true }
}

// mkfifo f; tee f < in | head -n 1 > o1 & cat f > o2
fn tee_plan(alloc: Global) -> Result<SmallPlan<Small>, NoMemory>
    ensures { IfOk result (λ plan. graph_of ⟦<Small as WholeFilter>⟧.whole plan ≡ tee_graph) }
{
    let tee = stage(alloc, copies(), &[0], &[Some(1), Some(2)])?;
    let head = stage(alloc, first_line(), &[1], &[Some(3)])?;
    let cat = stage(alloc, copies(), &[2], &[Some(4)])?;
    let nodes = Vec::from_array(
        alloc,
        [
            SmallNode::Source,
            tee,
            head,
            cat,
            SmallNode::Sink,
            SmallNode::Sink,
        ],
    )?;
    let pipes = Vec::from_slice(alloc, &[(0, 1), (1, 2), (1, 3), (2, 4), (3, 5)])?;
    let result = (3, false);
    Ok(SmallPlan {
        nodes,
        pipes,
        result,
    })
}

// Contents of a plan with this many nodes, whose first one holds these bytes.
fn contents(alloc: Global, bytes: &[u8], nodes: usize) -> Result<Vec<Option<Vec<u8>>>, NoMemory>
    requires { 0 < nodes }
    ensures { IfOk result (λ contents. length contents.items ≡ nodes) }
{
    let mut contents = Vec::new(alloc);
    contents.push(Some(Vec::from_slice(alloc, bytes)?))?;
    for _ in 1..nodes {
        contents.push(None)?;
    }
    Ok(contents)
}

// The answer of the plan, by the law that says that its graph is one.
fn tee(alloc: Global, held: &[Option<Vec<u8>>]) -> Result<Computed, NoMemory>
    requires { length held.now ≡ 6 }
{
    worked_answers_are_right();
    let plan = tee_plan(alloc)?;
    sequential_answer(alloc, &plan, held)
}

fn pipe(pipes: &[Vec<u8>], alloc: Global, number: &str) -> Result<Vec<u8>, Fail> {
    let number: usize = number.parse()?;
    let held = pipes.get(number).ok_or("there is no such pipe")?;
    bytes_of(alloc, held.as_slice())
}

// What a row asks of an answer.
#[derive(Drop)]
struct Answered(Computed);

impl Bench for Answered {
    fn act(&mut self, alloc: Global, action: &str, with: &str) -> Result<Vec<u8>, Fail> {
        match action {
            "pipe" => pipe(self.0.pipes.as_slice(), alloc, with),
            "status" => shown(alloc, &self.0.status),
            _ => unknown(),
        }
    }
}

#[test]
fn two_branches(rt: HostRuntime) -> Result<(), Fail> {
    let held = contents(rt.alloc(), b"x\ny\nz\n", 6)?;
    let mut computed = Answered(tee(rt.alloc(), held.as_slice())?);
    play(
        rt.alloc(),
        &mut computed,
        3,
        r"pipe 3 -> x%0A
pipe 4 -> x%0Ay%0Az%0A
status -> 0",
    )
}
