ghost use Rattle.std.specs.Prelude.{◌≡◌, ℕ, ◌<◌, ◌≤◌, [], length, None, IfOk, MatchOption, if◌then◌else◌, vec_capacity, replicate};
ghost use Rattle.openings.specs.Answers.{HasFirst, own_file, missing_places, is_of, input_answer, output_answer, plan_answer, file_of, Notes};
ghost use Rattle.openings.specs.inner.Tables.{HasRoom};

use crate::opened::Opened;
use machine::NoMemory;
use planner::{InOpening, OutOpening, Plan};
use std::alloc::Global;

// Room for the answers to the openings of a plan.
#[derive(Drop)]
pub(crate) struct Tables {
    pub(crate) inputs: Vec<Option<usize>>,
    pub(crate) outputs: Vec<usize>,
    missing: Vec<usize>,
    own: Vec<Option<usize>>,
}

impl Tables {
    // Room for the answers; there are none yet.
    pub(crate) fn new(alloc: Global, plan: &Plan) -> Result<Tables, NoMemory>
        ensures { IfOk result (HasRoom plan.now) }
    {
        Ok(Tables {
            inputs: Vec::with_capacity(alloc, plan.inputs().len())?,
            outputs: Vec::with_capacity(alloc, plan.outputs().len())?,
            missing: Vec::with_capacity(alloc, plan.inputs().len())?,
            own: vec![in alloc; None; plan.order().len()]?,
        })
    }

    // The open files of the plan, whose openings were all answered.
    pub(crate) fn filled(self, plan: &Plan) -> Opened
        requires inputs { length self.inputs.items ≡ length plan.now.inputs }
        requires outputs { length self.outputs.items ≡ length plan.now.outputs }
        requires missing { self.missing.items ≡ [] }
        requires room { length plan.now.inputs ≤ vec_capacity self.missing }
        requires own { self.own.items ≡ replicate (length plan.now.nodes) None }
        ensures inputs { result.inputs ≡ self.inputs.items }
        ensures outputs { result.outputs ≡ self.outputs.items }
        ensures own { (node : ℕ) → node < length plan.now.nodes
            → own_file result node ≡ file_of plan.now result node }
    {
        let Tables {
            inputs,
            outputs,
            mut missing,
            mut own,
        } = self;
        find_missing(&mut missing, inputs.as_slice());
        note_all(
            own.as_mut_slice(),
            plan,
            inputs.as_slice(),
            outputs.as_slice(),
        );
        Opened::new(inputs, outputs, missing, own)
    }
}

// Adds the places of the openings that were refused.
fn find_missing(missing: &mut Vec<usize>, answers: &[Option<usize>])
    requires empty { missing.old.items ≡ [] }
    requires room { length answers.now ≤ vec_capacity missing.old }
    ensures { missing.new.items ≡ missing_places answers.now }
{
    for place in 0..answers.len() {
        if answers[place].is_none() {
            missing.push_reserved(place);
        }
    }
}

// The first place of an opening that was refused, if one was.
pub(crate) fn first_missing(answers: &[Option<usize>]) -> Option<usize>
    ensures { MatchOption result (missing_places answers.now ≡ [])
        (λ place. (place < length answers.now) × HasFirst place (missing_places answers.now)) }
{
    for place in 0..answers.len() {
        if answers[place].is_none() {
            return Some(place);
        }
    }
    None
}

// Notes the answer to an opening of a node in the table by node.
fn note(own: &mut [Option<usize>], node: Option<usize>, answer: Option<usize>)
    ensures { Notes (λ k other. if is_of node k then answer else other) own.old own.new }
{
    match node {
        Some(node) if node < own.len() => own[node] = answer,
        _ => {}
    }
}

// Notes the answers to the openings of a plan. The first opening of a node counts.
fn note_all(own: &mut [Option<usize>], plan: &Plan, inputs: &[Option<usize>], outputs: &[usize])
    requires inputs { length inputs.now ≡ length plan.now.inputs }
    requires outputs { length outputs.now ≡ length plan.now.outputs }
    ensures { Notes (plan_answer plan.now inputs.now outputs.now) own.old own.new }
{
    note_outputs(own, plan.outputs(), outputs);
    note_inputs(own, plan.inputs(), inputs);
}

// Notes the answers to inputs. The first opening of a node counts.
fn note_inputs(own: &mut [Option<usize>], openings: &[InOpening], answers: &[Option<usize>])
    requires { length answers.now ≡ length openings.now }
    ensures { Notes (input_answer openings.now answers.now) own.old own.new }
{
    let mut place = answers.len();
    while place > 0 {
        place -= 1;
        note(own, openings[place].node, answers[place]);
    }
}

// Notes the answers to outputs. The first opening of a node counts.
fn note_outputs(own: &mut [Option<usize>], openings: &[OutOpening], answers: &[usize])
    requires { length answers.now ≡ length openings.now }
    ensures { Notes (output_answer openings.now answers.now) own.old own.new }
{
    let mut place = answers.len();
    while place > 0 {
        place -= 1;
        note(own, openings[place].node, Some(answers[place]));
    }
}
