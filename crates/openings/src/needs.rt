// How much of each input its readers need.
ghost use Rattle.std.specs.Prelude.{◌≡◌, ◌≢◌, ℕ, ◌<◌, IfOk, length, replicate};
ghost use Rattle.openings.specs.inner.Needs.{AreNeeds, IsNeedBy, IsNeedByTail, IsNeedOf, then_need};

use collector::NeededEnd;
use commands::{Counted, FilterSpec, Origin, TailSpec};
use machine::NoMemory;
use planner::{Node, Plan};
use std::alloc::Global;

// How much of what a node puts on its pipes is needed by those who read them.
#[derive(Clone, Copy)]
pub(crate) enum Need {
    // Nothing: nobody reads it.
    Nothing,
    // This end of it.
    Only(NeededEnd),
    // The first lines of it, this many: its only reader is a head.
    First(u64),
    // All of it, as far as known.
    Everything,
}

impl Need {
    // The same with one more reader. Two readers are taken to need everything.
    fn with(self, other: Need) -> Need
        ensures { result ≡ then_need self other }
    {
        match self {
            Need::Nothing => other,
            _ => Need::Everything,
        }
    }
}

// How much of each node is needed, by its number.
pub(crate) fn needs_of(alloc: Global, plan: &Plan) -> Result<Vec<Need>, NoMemory>
    ensures { IfOk result (λ needs. AreNeeds plan.now needs.items) }
{
    let mut needs = vec![in alloc; Need::Nothing; plan.order().len()]?;
    note_readers(plan, needs.as_mut_slice());
    Ok(needs)
}

// Notes what the reader of each pipe needs.
fn note_readers(plan: &Plan, needs: &mut [Need])
    requires { needs.old ≡ replicate (length plan.now.nodes) Need.Nothing }
    ensures { AreNeeds plan.now needs.new }
{
    for pipe in 0..plan.pipes().len() {
        let (writer, reader) = plan.pipes()[pipe];
        needs[writer] = needs[writer].with(need_of(&plan.order()[reader], pipe));
    }
}

// What a node needs of this pipe, which it reads.
fn need_of(reader: &Node, pipe: usize) -> Need
    ensures { IsNeedOf reader.now pipe result }
{
    let Node::Stage { spec, inputs, .. } = reader else {
        return Need::Everything;
    };
    match inputs.as_slice() {
        [only] if *only == pipe => need_by(spec),
        _ => Need::Everything,
    }
}

// What a filter needs of its only input.
fn need_by(spec: &FilterSpec) -> Need
    ensures { IsNeedBy spec.now result }
{
    match spec {
        FilterSpec::Tail(tail) => need_by_tail(tail),
        FilterSpec::Head(head) => Need::First(head.count),
        _ => Need::Everything,
    }
}

// What tail needs of its only input.
fn need_by_tail(tail: &TailSpec) -> Need
    ensures { IsNeedByTail tail.now result }
{
    match (tail.origin, tail.counted) {
        (Origin::Beginning, _) => Need::Everything,
        (Origin::End, Counted::Lines) => Need::Only(NeededEnd::Lines(tail.count)),
        (Origin::End, Counted::Bytes) => Need::Only(NeededEnd::Bytes(tail.count)),
    }
}
