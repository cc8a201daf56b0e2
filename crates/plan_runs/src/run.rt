ghost use Rattle.std.specs.Prelude.{◌≡◌, ◌⊎◌, false};
ghost use Rattle.collector.specs.Files.{FilesShown};
ghost use Rattle.graphs.specs.Graph.{IsForest};
ghost use Rattle.networks.specs.Turns.{IsNoStall, IsSound};
ghost use Rattle.openings.specs.Destinations.{OpensDestinations};
ghost use Rattle.openings.specs.Contents.{HoldsInputs};
ghost use Rattle.openings.specs.Openings.{OpensAll, output_names};
ghost use Rattle.planner.specs.Planned.{graph_of};
ghost use Rattle.step_scheduler.specs.Setups.{IsOfScript};
ghost use Rattle.plan_runs.specs.Contents.{AnswersFiles, HoldsOutputs, LeavesRests};
ghost use Rattle.plan_runs.specs.Runs.{IsSettled, RunsPlanTo, TouchesPlan};
ghost use Rattle.plan_runs.specs.Placings.{HasAllInPlace, IsFinished, LeavesAnswer, RunsAndPlaces};

use crate::fitting::groups_for;
use crate::placing::{names_of, place_or_leave};
use crate::settling::settle_failed;
use collector::Readiness;
use machine::Machine;
use network_laws::Outcome;
use networks::Network;
use openings::Opened;
use planner::Plan;
use run_types::{OutName, Settings, Statistics};
use std::alloc::Global;
use std::marker::Sync;
use std::sync::Wait;
use std::thread::Threads;
use step_scheduler::make_network;
use workers::{Gate, run_network};

/// A run of a plan that has ended.
#[derive(Drop)]
pub struct RanPlan {
    /// Its outcome.
    pub outcome: Outcome,
    /// What it moved, and how long its nodes took, by the numbers of the plan. It is all zero if the network was lost since memory or a
    /// thread was refused, and it has empty lists if memory was refused for them.
    pub statistics: Statistics,
}

/// Runs a plan, whose files were opened: its stages on as many threads as the settings allow, its sources and sinks on the
/// caller's. It waits for its workers, and its promise holds if it returns. Outputs that are held back are put in place if the run
/// finished, and left otherwise. Of an input that a head alone reads, no more is taken than its lines. If a fault ends it, it waits until
/// all that was handed over to its outputs is written, or a write of it failed.
pub fn run_plan<R: Threads + Wait + Sync, G: Gate, F: Readiness>(
    rt: &R,
    alloc: Global,
    plan: &Plan,
    opened: &Opened,
    files: &mut F,
    settings: Settings,
    gate: &G,
) -> RanPlan
    requires plan { IsOfScript plan.now }
    requires opened { (before : FilesShown)
        × OpensAll plan.now opened.now before (F.shows files.old) }
    ensures outcome { RunsAndPlaces plan.now opened.now settings (F.shows files.old)
        (F.shows files.new) result.outcome }
    ensures flows { IsForest (graph_of plan.now) → IsNoStall result.outcome }
    ensures holds { (before : FilesShown) → OpensAll plan.now opened.now before (F.shows files.old)
        → OpensDestinations plan.now.outputs opened.now.outputs before (F.shows files.old)
        → HasAllInPlace before → ((F.shows files.old).held_back ≡ false) ⊎ IsFinished result.outcome
        → HoldsOutputs plan.now opened.now before (F.shows files.new) }
    ensures answers { (before : FilesShown)
        → OpensAll plan.now opened.now before (F.shows files.old)
        → OpensDestinations plan.now.outputs opened.now.outputs before (F.shows files.old)
        → HoldsInputs plan.now opened.now.inputs before (F.shows files.old)
        → HasAllInPlace before
        → LeavesAnswer (F.shows files.old).held_back plan.now opened.now before
        (F.shows files.new) result.outcome }
    ensures rests { (before : FilesShown)
        → OpensAll plan.now opened.now before (F.shows files.old)
        → HoldsInputs plan.now opened.now.inputs before (F.shows files.old)
        → LeavesRests plan.now opened.now before (F.shows files.new) }
    ensures settled { IsSettled plan.now opened.now (F.shows files.new) }
    ensures sound { IsSound result.outcome
        → (F.shows files.new).failures ≡ (F.shows files.old).failures }
{
    let mut names = Vec::new(alloc);
    let RanPlan {
        outcome,
        statistics,
    } = run_and_settle(rt, alloc, plan, opened, &mut names, files, settings, gate);
    RanPlan {
        outcome: place_or_leave(plan, names, opened, outcome, files),
        statistics,
    }
}

// The same, but outputs that are held back stay so. If the run finishes, `names` are those of its outputs.
fn run_and_settle<R: Threads + Wait + Sync, G: Gate, F: Readiness>(
    rt: &R,
    alloc: Global,
    plan: &Plan,
    opened: &Opened,
    names: &mut Vec<OutName>,
    files: &mut F,
    settings: Settings,
    gate: &G,
) -> RanPlan
    requires plan { IsOfScript plan.now }
    requires opened { (before : FilesShown)
        × OpensAll plan.now opened.now before (F.shows files.old) }
    ensures outcome { RunsPlanTo plan.now opened.now settings (F.shows files.old)
        (F.shows files.new) result.outcome }
    ensures flows { IsForest (graph_of plan.now) → IsNoStall result.outcome }
    ensures names { IsFinished result.outcome → names.new.items ≡ output_names plan.now.outputs }
    ensures touches { TouchesPlan plan.now opened.now (F.shows files.old) (F.shows files.new) }
    ensures holds { (before : FilesShown) → OpensAll plan.now opened.now before (F.shows files.old)
        → OpensDestinations plan.now.outputs opened.now.outputs before (F.shows files.old)
        → HoldsOutputs plan.now opened.now before (F.shows files.new) }
    ensures answers { (before : FilesShown)
        → OpensAll plan.now opened.now before (F.shows files.old)
        → OpensDestinations plan.now.outputs opened.now.outputs before (F.shows files.old)
        → HoldsInputs plan.now opened.now.inputs before (F.shows files.old)
        → AnswersFiles plan.now opened.now before (F.shows files.new) result.outcome }
    ensures settled { IsSettled plan.now opened.now (F.shows files.new) }
    ensures sound { IsSound result.outcome
        → (F.shows files.new).failures ≡ (F.shows files.old).failures }
{
    let ran = run_to_end(rt, alloc, plan, opened, names, files, settings, gate);
    settle_failed(plan, opened, &ran.outcome, files);
    ran
}

// The same, but if the run has met a fault, what its sinks have handed over may still be out.
fn run_to_end<R: Threads + Wait + Sync, G: Gate, F: Readiness>(
    rt: &R,
    alloc: Global,
    plan: &Plan,
    opened: &Opened,
    names: &mut Vec<OutName>,
    files: &mut F,
    settings: Settings,
    gate: &G,
) -> RanPlan
    requires plan { IsOfScript plan.now }
    requires opened { (before : FilesShown)
        × OpensAll plan.now opened.now before (F.shows files.old) }
    ensures outcome { RunsPlanTo plan.now opened.now settings (F.shows files.old)
        (F.shows files.new) result.outcome }
    ensures flows { IsForest (graph_of plan.now) → IsNoStall result.outcome }
    ensures names { IsFinished result.outcome → names.new.items ≡ output_names plan.now.outputs }
    ensures touches { TouchesPlan plan.now opened.now (F.shows files.old) (F.shows files.new) }
    ensures holds { (before : FilesShown) → OpensAll plan.now opened.now before (F.shows files.old)
        → OpensDestinations plan.now.outputs opened.now.outputs before (F.shows files.old)
        → HoldsOutputs plan.now opened.now before (F.shows files.new) }
    ensures answers { (before : FilesShown)
        → OpensAll plan.now opened.now before (F.shows files.old)
        → OpensDestinations plan.now.outputs opened.now.outputs before (F.shows files.old)
        → HoldsInputs plan.now opened.now.inputs before (F.shows files.old)
        → AnswersFiles plan.now opened.now before (F.shows files.new) result.outcome }
    ensures sound { IsSound result.outcome
        → (F.shows files.new).failures ≡ (F.shows files.old).failures }
{
    let mut statistics = Statistics::new(alloc, plan.pipes().len(), plan.order().len());
    let Ok(groups) = groups_for(rt, alloc, plan, settings.workers, settings.fits_workers) else {
        return RanPlan {
            outcome: Outcome::OUT_OF_MEMORY,
            statistics,
        };
    };
    let Ok(network) = make_network(alloc, plan, opened, settings) else {
        return RanPlan {
            outcome: Outcome::OUT_OF_MEMORY,
            statistics,
        };
    };
    let Ok(copies) = names_of(alloc, plan) else {
        return RanPlan {
            outcome: Outcome::OUT_OF_MEMORY,
            statistics,
        };
    };
    *names = copies;
    let turns = settings.turns;
    let ended = run_network(rt, alloc, network, groups.as_slice(), gate, turns, files);
    write_statistics(&ended.network, &mut statistics);
    RanPlan {
        outcome: ended.outcome,
        statistics,
    }
}

// Writes the statistics of a network, if it is there.
fn write_statistics<M: Machine>(network: &Option<Network<M>>, to: &mut Statistics) {
    if let Some(network) = network {
        network.statistics(to);
    }
}
