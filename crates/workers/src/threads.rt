// A phase: each group of stages turns on a thread of its own, and comes back at the join, while the caller does work of its own.
ghost use Rattle.std.specs.Prelude.{◌≡◌, ◌≤◌, [], IsTrue, IfOk, IfErr, IfSome, map, vec_len, vec_capacity};
ghost use Rattle.std.specs.List.{AllZip};
ghost use Rattle.lending.specs.inner.Loans.{GroupGoesOn};
ghost use Rattle.workers.specs.inner.Begun.{begun_from};

use crate::activity::PhaseActivity;
use crate::begun::{Begun, Join, Stayed};
use crate::gate::{Gate, GateClock};
use crate::member::Member;
use lending::Group;
use machine::Machine;
use networks::{Link, StepClock};
use std::alloc::Global;
use std::marker::{Send, Sync};
use std::snapshot::Snapshot;
use std::sync::Wait;
use std::thread;
use std::thread::{Promise, PromisedHandle, Scope, SpawnError, Threads};

// How many microseconds a worker sleeps at a time at most.
const NAP: u64 = 64_000;

/// Work of the caller while the workers run: a value that is handed in, and its result.
pub trait CallerTask {
    type Output;

    ghost can_run: { Self → Type 0 };

    ghost run_gives: { Self → Self.Output → Type 0 };

    /// The pipes between the stages of the workers, and between these and what the caller steps.
    fn pipes(&self) -> &[Link];

    /// How many items each of these pipes can hold.
    fn room(&self) -> usize;

    /// When the phase is to end, in nanoseconds of the gate's clock. Without such a time it goes on while a member moves.
    fn until(&self) -> Option<u64> {
        None
    }

    /// Does the work, in at most `rounds` rounds, and no more once the phase is over. It begins at
    /// this time of the gate's clock. The time of stages is measured by the other clock.
    fn run<R: Wait, C: StepClock>(
        self,
        rt: &R,
        rounds: usize,
        activity: &PhaseActivity,
        begun: Option<u64>,
        clock: &C,
    ) -> Self::Output
        requires { can_run self }
        ensures { run_gives self result };
}

/// What a worker does in a phase: at most `turns` turns of its group, and no more once all members
/// of the activity are idle.
pub fn work<R: Wait, M: Machine + Send, G: Gate>(
    rt: &R,
    gate: &G,
    activity: &PhaseActivity,
    worker: usize,
    turns: usize,
    group: Group<M>,
) -> Group<M>
    ensures { GroupGoesOn M.shows group result }
{
    let mut group = group;
    take_turns(rt, gate, activity, worker, turns, &mut group);
    activity.end_worker(worker);
    group
}

// The turns of a worker.
fn take_turns<R: Wait, M: Machine, G: Gate>(
    rt: &R,
    gate: &G,
    activity: &PhaseActivity,
    worker: usize,
    turns: usize,
    group: &mut Group<M>,
)
    ensures { GroupGoesOn M.shows group.old group.new }
{
    let mut member = Member::worker(activity, worker);
    for turn in 0..turns {
        gate.pass(worker, turn);
        let halted = group.halted();
        let moved = group.turn(&GateClock(gate)) > 0;
        if !member.goes_on(rt, gate, activity, moved || group.halted() > halted, NAP) {
            return;
        }
    }
}

// Moves a group into a thread of its own. If it gets none, the phase is over.
fn begin<'s, E, R: Wait + Sync, M: Machine + Send + 's, G: Gate>(
    rt: &'s R,
    scope: &Scope<'s, E>,
    gate: &'s G,
    activity: &'s PhaseActivity,
    worker: usize,
    turns: usize,
    group: Group<M>,
) -> Begun<M>
    ensures { begun_from result ≡ group }
{
    if !gate.may_begin(worker) {
        activity.end();
        return Begun::Here(Stayed::new(group));
    }
    let from = Snapshot::of(&group);
    let join = Join(Snapshot::of(&group));
    match scope.spawn_with(join, move || {
        work(rt, gate, activity, worker, turns, group)
    }) {
        Ok(handle) => Begun::Thread(handle),
        Err(SpawnError { value: work }) => {
            activity.end();
            // Only the work itself gives the group back.
            Begun::Here(Stayed::after(from, work()))
        }
    }
}

// The same, if all groups before it have a thread. Otherwise it stays here.
fn begin_after<'s, E, R: Wait + Sync, M: Machine + Send + 's, G: Gate>(
    rt: &'s R,
    scope: &Scope<'s, E>,
    gate: &'s G,
    activity: &'s PhaseActivity,
    worker: usize,
    turns: usize,
    group: Group<M>,
    all: bool,
) -> Begun<M>
    ensures { begun_from result ≡ group }
{
    if all {
        begin(rt, scope, gate, activity, worker, turns, group)
    } else {
        Begun::Here(Stayed::new(group))
    }
}

// Begins a worker for each group, in order, until one gets no thread. Returns how many have one.
fn begin_all<'s, E, R: Wait + Sync, M: Machine + Send + 's, G: Gate>(
    rt: &'s R,
    scope: &Scope<'s, E>,
    gate: &'s G,
    activity: &'s PhaseActivity,
    turns: usize,
    groups: Vec<Group<M>>,
    begun: &mut Vec<Begun<M>>,
) -> usize
    requires { (begun.old.items ≡ []) × (vec_len groups ≤ vec_capacity begun.old) }
    ensures all { map begun_from begun.new.items ≡ groups.items }
    ensures most { vec_len begun.new ≤ vec_len groups }
{
    let mut worker = 0;
    let mut threads = 0usize;
    for group in groups {
        let all = threads == worker;
        let next = begin_after(rt, scope, gate, activity, worker, turns, group, all);
        threads = threads.saturating_add(usize::from(next.has_thread()));
        begun.push_reserved(next);
        worker += 1;
    }
    threads
}

// Joins a worker, or takes the group that stayed here.
fn joined_group<R: Threads, M: Machine + Send>(rt: &R, begun: Begun<M>) -> Group<M>
    ensures { GroupGoesOn M.shows (begun_from begun) result }
{
    match begun {
        Begun::Thread(handle) => handle.join(rt),
        Begun::Here(stayed) => stayed.into_group(),
    }
}

// Joins the workers, in order.
fn join_all<R: Threads, M: Machine + Send>(
    rt: &R,
    begun: Vec<Begun<M>>,
    joined: Vec<Group<M>>,
) -> Vec<Group<M>>
    requires { (joined.items ≡ []) × (vec_len begun ≤ vec_capacity joined) }
    ensures { AllZip (GroupGoesOn M.shows) (map begun_from begun.items) result.items }
{
    let mut joined = joined;
    for worker in begun {
        joined.push_reserved(joined_group(rt, worker));
    }
    joined
}

// The phase, within a scope, with how many workers got a thread. All room is made before the first thread begins.
fn within<'s, E, R: Threads + Wait + Sync, M: Machine + Send + 's, G: Gate, S: CallerTask + Drop>(
    rt: &'s R,
    scope: &Scope<'s, E>,
    alloc: Global,
    groups: Vec<Group<M>>,
    gate: &'s G,
    activity: &'s PhaseActivity,
    turns: usize,
    task: S,
) -> Result<(Vec<Group<M>>, S::Output, usize), S>
    requires { S.can_run task }
    ensures ok { IfOk result
        (λ r. AllZip (GroupGoesOn M.shows) groups.items r.0.items × S.run_gives task r.1) }
    ensures err { IfErr result (λ e. e ≡ task) }
{
    let Ok(mut begun) = Vec::with_capacity(alloc, groups.len()) else {
        return Err(task);
    };
    let Ok(joined) = Vec::with_capacity(alloc, groups.len()) else {
        return Err(task);
    };
    let count = groups.len();
    let threads = begin_all(rt, scope, gate, activity, turns, groups, &mut begun);
    if threads == count || gate.goes_on_without() {
        let done = task.run(rt, turns, activity, gate.nanos(), &GateClock(gate));
        Ok((join_all(rt, begun, joined), done, threads))
    } else {
        join_all(rt, begun, joined);
        Err(task)
    }
}

/// A phase: a worker for each group, and the task on the caller's thread; the groups come back in their order, with the output of
/// the task, and the number of workers that got a thread. At Err memory was refused, or a thread that the gate does not go on without: the task was not begun and comes back, and the
/// groups are lost. If the gate goes on without a thread, the phase ends soon.
pub fn run_beside<R: Threads + Wait + Sync, M: Machine + Send, G: Gate, S: CallerTask + Drop>(
    rt: &R,
    alloc: Global,
    groups: Vec<Group<M>>,
    gate: &G,
    turns: usize,
    task: S,
) -> Result<(Vec<Group<M>>, S::Output, usize), S>
    requires { S.can_run task }
    ensures ok { IfOk result
        (λ r. AllZip (GroupGoesOn M.shows) groups.items r.0.items × S.run_gives task r.1) }
    ensures err { IfErr result (λ e. e ≡ task) }
{
    let Ok(activity) = PhaseActivity::new(alloc, groups.as_slice(), task.pipes(), task.room())
    else {
        return Err(task);
    };
    let activity = &activity.until(task.until());
    thread::scope(
        thread::scope_env(),
        rt,
        move |scope| -> Result<(Vec<Group<M>>, S::Output, usize), S>
            requires { S.can_run task }
            ensures ok { IfOk result
                (λ r. AllZip (GroupGoesOn M.shows) groups.items r.0.items
                × S.run_gives task r.1) }
            ensures err { IfErr result (λ e. e ≡ task) }
        { within(rt, scope, alloc, groups, gate, activity, turns, task) },
    )
}
