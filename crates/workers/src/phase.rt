ghost use Rattle.std.specs.Prelude.{◌≡◌, IfOk, IsTrue, OnErr, map};
ghost use Rattle.std.specs.List.{AllByRecursion};
ghost use Rattle.networks.specs.Networks.{HasOpened};
ghost use Rattle.lending.specs.inner.Loans.{IsStageAt, AreOut, AreSeparate, RunsHere, filled};
ghost use Rattle.workers.specs.inner.Phases.{RunsPhase, RunsRounds};

use crate::activity::PhaseActivity;
use crate::gate::{Gate, GateClock, Open};
use crate::member::Member;
use crate::pace::{Tally, Way};
use crate::threads::{CallerTask, run_beside};
use collector::Readiness;
use lending::{Flow, Group, LentNetwork};
use machine::{Machine, NoMemory};
use networks::{Link, Network, StepClock};
use std::alloc::Global;
use std::marker::{Send, Sync};
use std::sync::Wait;
use std::thread::Threads;

// This many rounds write what the workers have left in the pipes.
const FLUSHING: usize = 64;

// How many microseconds the caller sleeps at a time at most, while the read of a source would wait. An input wakes no member of an activity.
const SHORT_NAP: u64 = 50;

// How many at most otherwise.
const NAP: u64 = 2_000;

/// A network after a phase, and what the phase came to.
#[derive(Drop)]
pub struct Phase<M: Machine> {
    pub network: Network<M>,
    /// Whether no node has failed.
    pub sound: bool,
    /// Whether a round of it may read. If not, something else in it is to go on first.
    pub may_read: bool,
    pub tally: Tally,
}

impl<M: Machine> Phase<M> {
    // A phase that begins now.
    fn new<G: Gate>(network: Network<M>, gate: &G) -> Phase<M>
        ensures { result.network ≡ network }
    {
        Phase {
            network,
            sound: true,
            may_read: true,
            tally: Tally::new(gate.nanos()),
        }
    }
}

/// A network with stages that are out, its files, how many items a pipe can hold, and when the phase is to end; whether no node has failed in
/// its rounds, and when they began.
#[derive(Drop)]
struct Rounds<'a, M: Machine, F> {
    network: LentNetwork<M>,
    files: &'a mut F,
    room: usize,
    until: Option<u64>,
    sound: bool,
    begun: Option<u64>,
}

impl<'a, M: Machine, F: Readiness> CallerTask for Rounds<'a, M, F> {
    type Output = Rounds<'a, M, F>;

    ghost can_run = { λ t. HasOpened t.network (F.shows t.files.now) };

    ghost run_gives = { λ t r. (r.files.ghost_name ≡ t.files.ghost_name)
        × RunsRounds M.shows (F.shows t.files.now) (F.shows r.files.now) t.network r.network r.sound };

    fn pipes(&self) -> &[Link] {
        self.network.pipes()
    }

    fn room(&self) -> usize {
        self.room
    }

    fn until(&self) -> Option<u64> {
        self.until
    }

    fn run<R: Wait, C: StepClock>(
        self,
        rt: &R,
        rounds: usize,
        activity: &PhaseActivity,
        begun: Option<u64>,
        clock: &C,
    ) -> Rounds<'a, M, F> {
        let Rounds {
            mut network,
            files,
            room,
            until,
            sound: _,
            begun: _,
        } = self;
        let sound = run_rounds(rt, &mut network, files, rounds, activity, clock);
        activity.leave(activity.caller());
        Rounds {
            network,
            files,
            room,
            until,
            sound,
            begun,
        }
    }
}

// Rounds of what is here, at most this many, until a node has failed, no worker runs, or the phase is over. False if a node has failed.
fn run_rounds<R: Wait, M: Machine, F: Readiness, C: StepClock>(
    rt: &R,
    network: &mut LentNetwork<M>,
    files: &mut F,
    rounds: usize,
    activity: &PhaseActivity,
    clock: &C,
) -> bool
    requires opened { HasOpened network.old (F.shows files.old) }
    ensures { RunsRounds M.shows (F.shows files.old)
        (F.shows files.new) network.old network.new result }
{
    let mut member = Member::caller(activity);
    for _ in 0..rounds {
        let last = activity.all_left();
        let flow = network.run_here(files, rounds_at_once(last), clock);
        if let Flow::Failed = flow {
            activity.end();
            return false;
        }
        let moved = flow == Flow::Moving;
        let nap = longest_nap(network, files, moved);
        if last || !member.goes_on(rt, &Open, activity, moved, nap) {
            return true;
        }
    }
    true
}

// How many microseconds the caller sleeps at most after a round, if nothing moved in it.
fn longest_nap<M: Machine, F: Readiness>(here: &LentNetwork<M>, files: &mut F, moved: bool) -> u64
    ensures { F.shows files.new ≡ F.shows files.old }
{
    if !moved && here.has_waiting(files) {
        SHORT_NAP
    } else {
        NAP
    }
}

// How many rounds are made at once: more if no worker runs any more.
fn rounds_at_once(last: bool) -> usize {
    if last { FLUSHING } else { 1 }
}

/// One phase of a network: these groups of stages go to workers, the caller steps the sources and sinks meanwhile, and all
/// come back. Items in the pipes then go on before a read that would wait. At Err memory or a thread was
/// refused, no source and no sink was stepped, and the network is lost.
pub fn run_phase<R: Threads + Wait + Sync, M: Machine + Send, G: Gate, F: Readiness>(
    rt: &R,
    alloc: Global,
    network: Network<M>,
    table: &[Vec<usize>],
    gate: &G,
    turns: usize,
    files: &mut F,
) -> Result<Phase<M>, NoMemory>
    requires stages { AllByRecursion (AllByRecursion (IsStageAt network.nodes))
        (map (λ v. v.items) table.now) }
    requires once { AreSeparate (map (λ v. v.items) table.now) }
    requires opened { HasOpened network (F.shows files.old) }
    ensures phase { IfOk result
        (λ p. RunsPhase M.shows network (F.shows files.old) p.network (F.shows files.new)) }
    ensures refused { OnErr result (files.new ≡ files.old) }
{
    run_for(
        rt,
        alloc,
        network,
        table,
        gate,
        turns,
        u64::MAX,
        files,
        true,
    )
}

// The same, which ends about this many nanoseconds later by the gate's clock. Inputs are asked for ahead or not.
fn run_for<R: Threads + Wait + Sync, M: Machine + Send, G: Gate, F: Readiness>(
    rt: &R,
    alloc: Global,
    network: Network<M>,
    table: &[Vec<usize>],
    gate: &G,
    turns: usize,
    nanos: u64,
    files: &mut F,
    ahead: bool,
) -> Result<Phase<M>, NoMemory>
    requires stages { AllByRecursion (AllByRecursion (IsStageAt network.nodes))
        (map (λ v. v.items) table.now) }
    requires once { AreSeparate (map (λ v. v.items) table.now) }
    requires opened { HasOpened network (F.shows files.old) }
    ensures phase { IfOk result
        (λ p. RunsPhase M.shows network (F.shows files.old) p.network (F.shows files.new)) }
    ensures refused { OnErr result (files.new ≡ files.old) }
{
    let phase = run_out(rt, alloc, network, table, gate, turns, nanos, files)?;
    if phase.sound {
        Ok(pass_on(alloc, phase, gate, None, files, ahead))
    } else {
        Ok(phase)
    }
}

/// A phase that goes this way. Inputs are asked for ahead or not.
pub(crate) fn next_phase<R: Threads + Wait + Sync, M: Machine + Send, G: Gate, F: Readiness>(
    rt: &R,
    alloc: Global,
    network: Network<M>,
    table: &[Vec<usize>],
    gate: &G,
    turns: usize,
    files: &mut F,
    way: Way,
    ahead: bool,
) -> Result<Phase<M>, NoMemory>
    requires stages { AllByRecursion (AllByRecursion (IsStageAt network.nodes))
        (map (λ v. v.items) table.now) }
    requires once { AreSeparate (map (λ v. v.items) table.now) }
    requires opened { HasOpened network (F.shows files.old) }
    ensures phase { IfOk result
        (λ p. RunsPhase M.shows network (F.shows files.old) p.network (F.shows files.new)) }
    ensures refused { OnErr result (files.new ≡ files.old) }
{
    match way {
        Way::Beside(nanos) => {
            run_for(rt, alloc, network, table, gate, turns, nanos, files, ahead)
        }
        Way::Alone(rounds) => Ok(pass_on(
            alloc,
            Phase::new(network, gate),
            gate,
            Some(rounds),
            files,
            ahead,
        )),
        Way::Waiting => Ok(wait_first(alloc, network, gate, files, ahead)),
    }
}

// The phase up to the join of the workers.
fn run_out<R: Threads + Wait + Sync, M: Machine + Send, G: Gate, F: Readiness>(
    rt: &R,
    alloc: Global,
    network: Network<M>,
    table: &[Vec<usize>],
    gate: &G,
    turns: usize,
    nanos: u64,
    files: &mut F,
) -> Result<Phase<M>, NoMemory>
    requires stages { AllByRecursion (AllByRecursion (IsStageAt network.nodes))
        (map (λ v. v.items) table.now) }
    requires once { AreSeparate (map (λ v. v.items) table.now) }
    requires opened { HasOpened network (F.shows files.old) }
    ensures phase { IfOk result
        (λ p. RunsPhase M.shows network (F.shows files.old) p.network (F.shows files.new)) }
    ensures sound { IfOk result
        (λ p. IsTrue p.sound → (F.shows files.new).failures ≡ (F.shows files.old).failures) }
    ensures refused { OnErr result (files.new ≡ files.old) }
{
    let called = gate.nanos();
    let mut lent = LentNetwork::new(network);
    let room = lent.room();
    let groups = lend_all(alloc, &mut lent, table)?;
    let task = Rounds {
        network: lent,
        files,
        room,
        until: later(called, nanos),
        sound: true,
        begun: None,
    };
    match run_beside(rt, alloc, groups, gate, turns, task) {
        Ok((groups, ran, threads)) => {
            let Rounds {
                network,
                files,
                room: _,
                until: _,
                sound,
                begun,
            } = ran;
            take_back(files);
            Ok(Phase {
                tally: Tally::new(called).with_workers(
                    threads,
                    begun,
                    network.moved(),
                    moved_by(&groups),
                ),
                network: network.settle(groups),
                sound,
                may_read: true,
            })
        }
        Err(
            Rounds {
                network: _lost,
                files,
                ..
            },
        ) => {
            take_back(files);
            Err(NoMemory)
        }
    }
}

// If the next read of a source would wait, steps all other nodes first, and then waits until one can be read. It reads nothing.
fn wait_first<M: Machine, G: Gate, F: Readiness>(
    alloc: Global,
    network: Network<M>,
    gate: &G,
    files: &mut F,
    ahead: bool,
) -> Phase<M>
    requires opened { HasOpened network (F.shows files.old) }
    ensures { RunsPhase M.shows network (F.shows files.old) result.network
        (F.shows files.new) }
{
    let mut phase = pass_on(alloc, Phase::new(network, gate), gate, None, files, ahead);
    phase.may_read = phase.may_read && phase.tally.drained;
    phase
}

// The end of a phase: steps the nodes on this thread. If nothing moves any more, it waits until a source can read.
fn pass_on<M: Machine, G: Gate, F: Readiness>(
    alloc: Global,
    phase: Phase<M>,
    gate: &G,
    rounds: Option<usize>,
    files: &mut F,
    ahead: bool,
) -> Phase<M>
    requires opened { HasOpened phase.network (F.shows files.old) }
    ensures { RunsPhase M.shows phase.network (F.shows files.old) result.network
        (F.shows files.new) }
{
    let mut here = LentNetwork::new(phase.network);
    let before = look_first(&here, files, rounds);
    let flow = run_some(&mut here, gate, files, rounds);
    let drained = before && flow == Flow::Quiet;
    let tally = phase.tally.ended(drained, here.moved(), gate.nanos());
    let may_read = prepare_reads(&here, alloc, files, flow, ahead);
    Phase {
        network: here.settle(Vec::new(alloc)),
        sound: flow != Flow::Failed,
        may_read,
        tally,
    }
}

// Whether rounds of a network end only once nothing moves: if their number is given, or the next read of a source, or write of a sink, would wait.
fn look_first<M: Machine, F: Readiness>(
    here: &LentNetwork<M>,
    files: &mut F,
    rounds: Option<usize>,
) -> bool
    ensures { F.shows files.new ≡ F.shows files.old }
{
    rounds.is_some() || here.has_waiting(files)
}

// If nothing moves after such rounds, asks for the next reads, if that is done ahead, and waits until a source can read. Whether a round may step
// every source.
fn prepare_reads<M: Machine, F: Readiness>(
    here: &LentNetwork<M>,
    alloc: Global,
    files: &mut F,
    flow: Flow,
    ahead: bool,
) -> bool
    ensures { F.shows files.new ≡ F.shows files.old }
{
    if ahead && flow == Flow::Quiet {
        here.ask_to_read(alloc, files);
    }
    match flow {
        Flow::Moving => false,
        Flow::Failed => true,
        Flow::Quiet => here.wait_for_files(alloc, files),
    }
}

// At most this many rounds of the nodes that are here. If no number is given, rounds only if the next read of a source would wait.
fn run_some<M: Machine, G: Gate, F: Readiness>(
    here: &mut LentNetwork<M>,
    gate: &G,
    files: &mut F,
    rounds: Option<usize>,
) -> Flow
    requires opened { HasOpened here.old (F.shows files.old) }
    ensures { RunsHere M.shows (F.shows files.old) (F.shows files.new) here.old here.new
        result }
{
    match rounds {
        Some(rounds) => here.run_here(files, rounds, &GateClock(gate)),
        None => here.run_ready(files, FLUSHING, &GateClock(gate)),
    }
}

// This many nanoseconds after a time, if there is a clock.
fn later(time: Option<u64>, nanos: u64) -> Option<u64> {
    Some(time?.saturating_add(nanos))
}

// How many steps of the stages of these groups have moved something.
fn moved_by<M: Machine>(groups: &[Group<M>]) -> usize {
    let mut moved = 0usize;
    for group in groups {
        moved = moved.wrapping_add(group.moved());
    }
    moved
}

// Does nothing. This use of a returned reference ties it, for the borrow checker, to the parameter that lent it.
fn take_back<T>(x: &mut T)
    ensures { x.new ≡ x.old }
{}

// Lends these lists of stages, a group for each. At Err those that were lent are lost.
fn lend_all<M: Machine>(
    alloc: Global,
    network: &mut LentNetwork<M>,
    table: &[Vec<usize>],
) -> Result<Vec<Group<M>>, NoMemory>
    requires stages { AllByRecursion (AllByRecursion (IsStageAt network.old.nodes))
        (map (λ v. v.items) table.now) }
    requires once { AreSeparate (map (λ v. v.items) table.now) }
    ensures out { IfOk result (λ groups. AreOut network.new.nodes groups.items) }
    ensures back { IfOk result (λ groups. filled network.new groups.items ≡ network.old) }
{
    let mut groups = Vec::with_capacity(alloc, table.len())?;
    for k in 0..table.len() {
        groups.push_reserved(network.lend(alloc, &table[k])?);
    }
    Ok(groups)
}
