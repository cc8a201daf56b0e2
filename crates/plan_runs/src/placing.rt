// The end of a run whose outputs may be held back.
ghost use Rattle.std.specs.Prelude.{◌≡◌, ◌<◌, length, map, IfErr, IfOk, OnOk};
ghost use Rattle.openings.specs.Openings.{output_names};
ghost use Rattle.plan_runs.specs.Placings.{IsFinished, PlacesOrLeaves};
ghost use Rattle.plan_runs.specs.inner.Places.{PlacesOutputs, StopsAt};

use collector::{Files, RunFault};
use machine::NoMemory;
use network_laws::Outcome;
use openings::Opened;
use planner::{OutOpening, Plan};
use run_types::OutName;
use std::alloc::Global;

// Copies of the names of the outputs of a plan. They are made before it runs, so that an output that cannot be put in place has its name.
pub(crate) fn names_of(alloc: Global, plan: &Plan) -> Result<Vec<OutName>, NoMemory>
    ensures { IfOk result (λ names. names.items ≡ output_names plan.now.outputs) }
{
    names_in(alloc, plan.outputs())
}

// Copies of the names of these outputs.
fn names_in(alloc: Global, openings: &[OutOpening]) -> Result<Vec<OutName>, NoMemory>
    ensures { IfOk result (λ names. names.items ≡ map (λ o. o.name) openings.now) }
{
    let mut names = Vec::new(alloc);
    for opening in openings {
        names.push(opening.name.copied(alloc)?)?;
    }
    Ok(names)
}

// Puts the outputs of a plan, which have these names, in place if its run finished, and leaves them otherwise. Returns the outcome: the same,
// or the fault of an output that could not be put in place.
pub(crate) fn place_or_leave<F: Files>(
    _plan: &Plan,
    mut names: Vec<OutName>,
    opened: &Opened,
    outcome: Outcome,
    files: &mut F,
) -> Outcome
    requires count { length opened.now.outputs ≡ length _plan.now.outputs }
    requires names { IsFinished outcome → names.items ≡ output_names _plan.now.outputs }
    ensures { PlacesOrLeaves _plan.now opened.now outcome (F.shows files.old) (F.shows files.new) result }
{
    let ended = match outcome {
        Outcome::Finished { status } => match place_outputs(opened.outputs(), files) {
            Ok(()) => Outcome::Finished { status },
            Err(place) => Outcome::Faulted {
                fault: RunFault::WriteFault(names.swap_remove(place)),
            },
        },
        other => other,
    };
    files.leave_outputs();
    ended
}

// Puts these outputs in place, in this order. At Err, the one at this place could not be put there.
fn place_outputs<F: Files>(outputs: &[usize], files: &mut F) -> Result<(), usize>
    ensures ok { OnOk result
        (PlacesOutputs outputs.now (length outputs.now) (F.shows files.old) (F.shows files.new)) }
    ensures failures { OnOk result ((F.shows files.new).failures ≡ (F.shows files.old).failures) }
    ensures err { IfErr result
        (λ place. (place < length outputs.now)
        × StopsAt outputs.now place (F.shows files.old) (F.shows files.new)) }
{
    for place in 0..outputs.len() {
        if files.put_in_place(outputs[place]).is_err() {
            return Err(place);
        }
    }
    Ok(())
}
