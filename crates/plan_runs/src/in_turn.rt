ghost use Rattle.std.specs.Prelude.{◌≡◌, ◌<◌, ◌⊎◌, true, false, IfOk, IsOk, IsOkAnd, OnErr};
ghost use Rattle.collector.specs.Files.{FilesShown};
ghost use Rattle.collector.specs.Places.{KeepsFiles, LeavesOutputs};
ghost use Rattle.graphs.specs.Graph.{IsForest};
ghost use Rattle.networks.specs.Turns.{IsNoStall, IsSound};
ghost use Rattle.openings.specs.Contents.{HoldsInputs};
ghost use Rattle.openings.specs.Destinations.{OpensDestinations};
ghost use Rattle.openings.specs.Openings.{OpensAll, output_names};
ghost use Rattle.planner.specs.Planned.{graph_of};
ghost use Rattle.step_scheduler.specs.Setups.{IsOfScript};
ghost use Rattle.plan_runs.specs.Contents.{AnswersFiles, HoldsOutputs, LeavesRests, contents_of};
ghost use Rattle.plan_runs.specs.InTurn.{RunEnds, RunFinishes};
ghost use Rattle.plan_runs.specs.Rounds.{plan_rounds};
ghost use Rattle.plan_runs.specs.Runs.{RunsPlanTo, TouchesPlan};
ghost use Rattle.plan_runs.specs.Placings.{HasAllInPlace, IsFinished, LeavesAnswer, RunsAndPlaces};

use crate::placing::{names_of, place_or_leave};
use collector::Files;
use network_laws::{Outcome, RoundsSpent};
use networks::NoClock;
use openings::Opened;
use planner::Plan;
use run_types::{OutName, Settings};
use std::alloc::Global;
use step_scheduler::make_network;

/// Runs a plan, whose files were opened, on the caller's thread alone, in at most this many rounds. It always returns. If it has
/// more rounds than `plan_rounds` for what the sources hold, the run ends. Over a forest it has then finished,
/// unless it met a fault. If contents are known, that number is known before the run. Outputs that are held back are put in place if
/// the run finished, and left otherwise. Of an input that a head alone reads, no more is taken than its lines.
pub fn run_plan_in_turn<F: Files>(
    alloc: Global,
    plan: &Plan,
    opened: &Opened,
    files: &mut F,
    settings: Settings,
    rounds: u64,
) -> Result<Outcome, RoundsSpent>
    requires plan { IsOfScript plan.now }
    requires opened { (before : FilesShown)
        × OpensAll plan.now opened.now before (F.shows files.old) }
    ensures ends { RunEnds plan.now opened.now (F.shows files.new) rounds result }
    ensures finishes { RunFinishes plan.now opened.now (F.shows files.new) rounds result }
    ensures outcome { IfOk result
        (RunsAndPlaces plan.now opened.now settings (F.shows files.old) (F.shows files.new)) }
    ensures spent { OnErr result ((then : FilesShown)
        × TouchesPlan plan.now opened.now (F.shows files.old) then
        × LeavesOutputs then (F.shows files.new)) }
    ensures in_time { (before : FilesShown)
        → OpensAll plan.now opened.now before (F.shows files.old)
        → HoldsInputs plan.now opened.now.inputs before (F.shows files.old)
        → plan_rounds plan.now (contents_of plan.now opened.now before) < rounds
        → IsOk result × (IsForest (graph_of plan.now) → IsOkAnd result IsNoStall) }
    ensures holds { (before : FilesShown) → OpensAll plan.now opened.now before (F.shows files.old)
        → OpensDestinations plan.now.outputs opened.now.outputs before (F.shows files.old)
        → HasAllInPlace before → ((F.shows files.old).held_back ≡ false) ⊎ IsOkAnd result IsFinished
        → HoldsOutputs plan.now opened.now before (F.shows files.new) }
    ensures answers { (before : FilesShown)
        → OpensAll plan.now opened.now before (F.shows files.old)
        → OpensDestinations plan.now.outputs opened.now.outputs before (F.shows files.old)
        → HoldsInputs plan.now opened.now.inputs before (F.shows files.old)
        → HasAllInPlace before
        → IfOk result
        (LeavesAnswer (F.shows files.old).held_back plan.now opened.now before
        (F.shows files.new)) }
    ensures rests { (before : FilesShown)
        → OpensAll plan.now opened.now before (F.shows files.old)
        → HoldsInputs plan.now opened.now.inputs before (F.shows files.old)
        → LeavesRests plan.now opened.now before (F.shows files.new) }
    ensures kept { (before : FilesShown) → OpensAll plan.now opened.now before (F.shows files.old)
        → HasAllInPlace before → (F.shows files.old).held_back ≡ true
        → OnErr result (KeepsFiles before (F.shows files.new)) }
    ensures sound { IfOk result
        (λ o. IsSound o → (F.shows files.new).failures ≡ (F.shows files.old).failures) }
{
    let mut names = Vec::new(alloc);
    match run_rounds(alloc, plan, opened, &mut names, files, settings, rounds) {
        Ok(outcome) => Ok(place_or_leave(plan, names, opened, outcome, files)),
        Err(spent) => {
            files.leave_outputs();
            Err(spent)
        }
    }
}

// The same, but outputs that are held back stay so. If the run finishes, `names` are those of its outputs.
fn run_rounds<F: Files>(
    alloc: Global,
    plan: &Plan,
    opened: &Opened,
    names: &mut Vec<OutName>,
    files: &mut F,
    settings: Settings,
    rounds: u64,
) -> Result<Outcome, RoundsSpent>
    requires plan { IsOfScript plan.now }
    requires opened { (before : FilesShown)
        × OpensAll plan.now opened.now before (F.shows files.old) }
    ensures ends { RunEnds plan.now opened.now (F.shows files.new) rounds result }
    ensures finishes { RunFinishes plan.now opened.now (F.shows files.new) rounds result }
    ensures outcome { IfOk result
        (RunsPlanTo plan.now opened.now settings (F.shows files.old) (F.shows files.new)) }
    ensures in_time { (before : FilesShown)
        → OpensAll plan.now opened.now before (F.shows files.old)
        → HoldsInputs plan.now opened.now.inputs before (F.shows files.old)
        → plan_rounds plan.now (contents_of plan.now opened.now before) < rounds
        → IsOk result × (IsForest (graph_of plan.now) → IsOkAnd result IsNoStall) }
    ensures names { IsOkAnd result IsFinished → names.new.items ≡ output_names plan.now.outputs }
    ensures touches { TouchesPlan plan.now opened.now (F.shows files.old) (F.shows files.new) }
    ensures holds { (before : FilesShown) → OpensAll plan.now opened.now before (F.shows files.old)
        → OpensDestinations plan.now.outputs opened.now.outputs before (F.shows files.old)
        → HoldsOutputs plan.now opened.now before (F.shows files.new) }
    ensures answers { (before : FilesShown)
        → OpensAll plan.now opened.now before (F.shows files.old)
        → OpensDestinations plan.now.outputs opened.now.outputs before (F.shows files.old)
        → HoldsInputs plan.now opened.now.inputs before (F.shows files.old)
        → IfOk result (AnswersFiles plan.now opened.now before (F.shows files.new)) }
    ensures sound { IfOk result
        (λ o. IsSound o → (F.shows files.new).failures ≡ (F.shows files.old).failures) }
{
    let Ok(mut network) = make_network(alloc, plan, opened, settings) else {
        return Ok(Outcome::OUT_OF_MEMORY);
    };
    let Ok(copies) = names_of(alloc, plan) else {
        return Ok(Outcome::OUT_OF_MEMORY);
    };
    *names = copies;
    network.run_in_turn(alloc, rounds, files, &NoClock)
}
