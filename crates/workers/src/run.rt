ghost use Rattle.std.specs.Prelude.{◌≡◌, ◌≤◌, IfSome, IsTrue, map};
ghost use Rattle.std.specs.List.{AllByRecursion};
ghost use Rattle.graphs.specs.Graph.{IsForest};
ghost use Rattle.network_laws.specs.State.{Setup};
ghost use Rattle.networks.specs.Networks.{HasOpened, TouchesNodes, IsRight};
ghost use Rattle.network_laws.specs.Outcome.{Agree};
ghost use Rattle.collector.specs.declared.fault.RunFault.TheVariants as RunFault;
ghost use Rattle.network_laws.specs.Sequential.{Contents};
ghost use Rattle.networks.specs.Bounds.{most_rounds};
ghost use Rattle.networks.specs.Turns.{EndsIn, IsNoStall, IsSound, NoneFailed, network_run};
ghost use Rattle.networks.specs.inner.KeptNetworks.{IfRight};
ghost use Rattle.lending.specs.inner.Loans.{IsStageAt, AreSeparate};
ghost use Rattle.workers.specs.inner.Runs.{RunsTruly};

use crate::gate::{Gate, GateClock};
use crate::pace::{Pace, Way};
use crate::phase::{Phase, next_phase};
use collector::Readiness;
use machine::Machine;
use network_laws::Outcome;
use networks::Network;
use std::alloc::Global;
use std::marker::{Send, Sync};
use std::sync::Wait;
use std::thread::Threads;

/// How a run of a network on workers ended.
#[derive(Drop)]
pub struct EndedRun<M: Machine> {
    /// What it came to.
    pub outcome: Outcome,
    /// How many of its phases were followed by a round in which the run came further, up to 2^64 - 1.
    pub rounds: u64,
    /// The network at its end, if it was not lost since memory or a thread was refused.
    pub network: Option<Network<M>>,
}

/// Runs a network none of whose nodes has failed, with a worker for each of these groups of its stages: in phases, with a
/// round of every node on the caller's thread after each. A phase has no workers if that is faster by the clock of the gate, or while nothing
/// moves until a source has read. The first threads begin with the first phase that has workers. If a group gets no thread, and the gate
/// goes on without it, its stages and those of the groups after it stay on the caller's thread from then on. It waits for its workers, and its promise holds if it returns. The rounds that it counts are then at most
/// those of a run on one thread. The names in faults are copied first, so no memory is asked for when one is reported.
pub fn run_network<R: Threads + Wait + Sync, M: Machine + Send, G: Gate, F: Readiness>(
    rt: &R,
    alloc: Global,
    network: Network<M>,
    groups: &[Vec<usize>],
    gate: &G,
    turns: usize,
    files: &mut F,
) -> EndedRun<M>
    requires stages { AllByRecursion (AllByRecursion (IsStageAt network.nodes))
        (map (λ v. v.items) groups.now) }
    requires once { AreSeparate (map (λ v. v.items) groups.now) }
    requires opened { HasOpened network (F.shows files.old) }
    requires unfailed { NoneFailed network }
    ensures outcome { RunsTruly M.shows network (F.shows files.old) (F.shows files.new)
        result.outcome }
    ensures ends { IfRight M.shows network (F.shows files.old)
        (λ s. IfSome result.network
        (λ n. EndsIn M.shows s n (F.shows files.new) result.outcome)) }
    ensures flows { (s : Setup) → IsRight M.shows s network (F.shows files.old)
        → IsForest s.graph → IsNoStall result.outcome }
    ensures few { IfRight M.shows network (F.shows files.old)
        (λ s. (contents : Contents)
        → Agree s (network_run M.shows network (F.shows files.old) network (F.shows files.new)) contents
        → result.rounds ≤ most_rounds s contents) }
    ensures touches { TouchesNodes network.nodes (F.shows files.old) (F.shows files.new) }
    ensures sound { IsSound result.outcome
        → (F.shows files.new).failures ≡ (F.shows files.old).failures }
{
    let Ok(mut faults) = network.file_faults(alloc) else {
        return refused(0, Some(network));
    };
    let mut rounds = 0u64;
    let mut network = network;
    let mut pace = Pace::new(alloc, &network, groups.len(), gate.nanos().is_some());
    let mut way = Way::Waiting;
    let mut given = groups.len();
    for _ in rt.forever() {
        pace.begin(&network);
        let table = &groups[..given];
        let ahead = pace.reads_ahead();
        let Ok(phase) = next_phase(rt, alloc, network, table, gate, turns, files, way, ahead) else {
            return refused(rounds, None);
        };
        let Phase {
            network: mut next,
            may_read,
            tally,
            ..
        } = phase;
        given = tally.given(given);
        way = pace.after(way, tally, &next, given);
        let more = u64::from(may_read);
        let clock = GateClock(gate);
        if let Ok(outcome) = next.run_in_turn_with(alloc, more, &mut faults, files, &clock) {
            return EndedRun {
                outcome,
                rounds,
                network: Some(next),
            };
        }
        rounds = rounds.saturating_add(more);
        network = next;
    }
    unreachable!()
}

// A run for which memory or a thread was refused, after this many rounds.
fn refused<M: Machine>(rounds: u64, network: Option<Network<M>>) -> EndedRun<M>
    ensures outcome { result.outcome ≡ Outcome.Faulted RunFault.NoMemory }
    ensures rounds { result.rounds ≡ rounds }
    ensures network { result.network ≡ network }
{
    EndedRun {
        outcome: Outcome::OUT_OF_MEMORY,
        rounds,
        network,
    }
}
