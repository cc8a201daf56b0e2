ghost use Rattle.std.specs.Prelude.{◌≡◌, IfOk, map};
ghost use Rattle.openings.specs.Openings.{input_names, output_names};

use machine::NoMemory;
use planner::{InOpening, OutOpening, Plan};
use run_types::{InName, OutName};
use std::alloc::Global;

// Copies of the names of the files of a plan. They are made before the first opening, so that a refusal has its name in any case.
#[derive(Drop)]
pub(crate) struct Names {
    pub(crate) inputs: Vec<InName>,
    pub(crate) outputs: Vec<OutName>,
}

impl Names {
    // Those of this plan, in the order of its openings.
    pub(crate) fn of(alloc: Global, plan: &Plan) -> Result<Names, NoMemory>
        ensures inputs { IfOk result (λ names. names.inputs.items ≡ input_names plan.now.inputs) }
        ensures outputs { IfOk result
            (λ names. names.outputs.items ≡ output_names plan.now.outputs) }
    {
        Ok(Names {
            inputs: names_in(alloc, plan.inputs())?,
            outputs: names_out(alloc, plan.outputs())?,
        })
    }
}

// The names of these inputs.
fn names_in(alloc: Global, openings: &[InOpening]) -> Result<Vec<InName>, NoMemory>
    ensures { IfOk result (λ names. names.items ≡ map (λ o. o.name) openings.now) }
{
    let mut names = Vec::new(alloc);
    for opening in openings {
        names.push(opening.name.copied(alloc)?)?;
    }
    Ok(names)
}

// The names of these outputs.
fn names_out(alloc: Global, openings: &[OutOpening]) -> Result<Vec<OutName>, NoMemory>
    ensures { IfOk result (λ names. names.items ≡ map (λ o. o.name) openings.now) }
{
    let mut names = Vec::new(alloc);
    for opening in openings {
        names.push(opening.name.copied(alloc)?)?;
    }
    Ok(names)
}
