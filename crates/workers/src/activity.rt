use crate::gate::Gate;
use crate::seat::Seat;
use lending::Group;
use machine::{Machine, NoMemory};
use networks::Link;
use std::alloc::Global;
use std::sync::atomic::Ordering::SeqCst;
use std::sync::atomic::{AtomicBool, AtomicUsize};

/// The members of a phase, its workers and the caller, as they know of each other. No clause speaks of it: it decides when a worker waits and
/// when a phase ends, and a phase may end at any turn.
#[derive(Drop)]
pub struct PhaseActivity {
    // Those of the workers, in order, and then that of the caller.
    seats: Vec<Seat>,
    // How many workers have not ended yet.
    running: AtomicUsize,
    // Whether the phase is to end.
    over: AtomicBool,
    // How many items each pipe can hold.
    room: usize,
    // When the phase is to end, in nanoseconds of the gate's clock, if it is to end by that.
    until: Option<u64>,
}

impl PhaseActivity {
    /// A worker for each of these groups, before any has begun, and the caller, which has all other
    /// nodes of these pipes. Each pipe can hold `room` items.
    pub fn new<M: Machine>(
        alloc: Global,
        groups: &[Group<M>],
        pipes: &[Link],
        room: usize,
    ) -> Result<PhaseActivity, NoMemory> {
        let mut seats = Vec::with_capacity(alloc, groups.len().saturating_add(1))?;
        for worker in 0..groups.len() {
            seats.push(Seat::new(neighbours(worker, groups, pipes)))?;
        }
        seats.push(Seat::new(neighbours(groups.len(), groups, pipes)))?;
        Ok(PhaseActivity {
            seats,
            running: AtomicUsize::new(groups.len()),
            over: AtomicBool::new(false),
            room,
            until: None,
        })
    }

    // The same, which is to end at this time of the gate's clock.
    pub(crate) fn until(self, until: Option<u64>) -> PhaseActivity {
        PhaseActivity { until, ..self }
    }

    /// The number of the caller among the members.
    pub fn caller(&self) -> usize {
        self.seats.len().saturating_sub(1)
    }

    /// How many items each pipe can hold.
    pub fn room(&self) -> usize {
        self.room
    }

    /// Ends the phase, and wakes all members.
    pub fn end(&self) {
        self.over.store(true, SeqCst);
        self.wake(u64::MAX);
    }

    // Ends the phase if its time has come.
    pub(crate) fn end_in_time<G: Gate>(&self, gate: &G) {
        if self.until.is_some() && gate.nanos() >= self.until {
            self.end();
        }
    }

    /// Whether the phase is to end.
    pub fn is_over(&self) -> bool {
        self.over.load(SeqCst)
    }

    /// Says that a member takes no more turns, and wakes the others, which may be waiting for it.
    pub fn leave(&self, member: usize) {
        if let Some(seat) = self.seats.get(member) {
            seat.leave();
        }
        self.wake(u64::MAX);
    }

    /// Says that a worker ends.
    pub fn end_worker(&self, worker: usize) {
        self.running.fetch_sub(1, SeqCst);
        self.leave(worker);
    }

    /// Whether no worker runs any more.
    pub fn all_left(&self) -> bool {
        self.running.load(SeqCst) == 0
    }

    // The seat of a member, if there is such a member.
    pub(crate) fn seat(&self, member: usize) -> Option<&Seat> {
        self.seats.get(member)
    }

    // How many moves there were in the turns of these members.
    pub(crate) fn moves(&self, members: u64) -> usize {
        let mut moves = 0usize;
        for member in 0..self.seats.len() {
            if members & bit(member) != 0 {
                moves = moves.wrapping_add(self.seats[member].moves());
            }
        }
        moves
    }

    // Wakes those of these members that sleep.
    pub(crate) fn wake(&self, members: u64) {
        for member in 0..self.seats.len() {
            if members & bit(member) != 0 {
                self.seats[member].wake();
            }
        }
    }

    // Whether each member has left, or was idle when there had been this many moves.
    pub(crate) fn are_idle(&self, moves: usize) -> bool {
        for seat in self.seats.as_slice() {
            if !seat.is_idle(moves) {
                return false;
            }
        }
        true
    }

    // If all members sleep, wakes those that took no turn since there were this many moves.
    pub(crate) fn wake_late(&self, moves: usize) {
        for seat in self.seats.as_slice() {
            if !seat.is_still() {
                return;
            }
        }
        for seat in self.seats.as_slice() {
            if !seat.is_idle(moves) {
                seat.wake();
            }
        }
    }
}

// The members that share a pipe with this one, a bit for each.
fn neighbours<M: Machine>(member: usize, groups: &[Group<M>], pipes: &[Link]) -> u64 {
    let mut near = 0u64;
    for pipe in pipes {
        let writer = member_of(groups, pipe.writer);
        let reader = member_of(groups, pipe.reader);
        if writer == member {
            near |= bit(reader);
        }
        if reader == member {
            near |= bit(writer);
        }
    }
    near & !bit(member)
}

// The member that has this node: a worker, or the caller.
fn member_of<M: Machine>(groups: &[Group<M>], node: usize) -> usize {
    for worker in 0..groups.len() {
        if groups[worker].has(node) {
            return worker;
        }
    }
    groups.len()
}

// The bit of a member. There are fewer than 64.
fn bit(member: usize) -> u64 {
    1u64 << (member % 64) as u32
}
