// What a member of an activity does between its turns: it tells its neighbours what it moved, waits for them, and finds out when all are idle.
use crate::activity::PhaseActivity;
use crate::gate::Gate;
use std::sync::Wait;
use std::sync::atomic::Ordering::SeqCst;
use std::time::Duration;
use std::{hint, thread};

// The pauses of the processor before a look at the neighbours: together about 0.1 µs.
const PAUSES: usize = 20;

// So often a member looks before it sleeps: for about 3 µs, less than a sleep and its end cost.
const LOOKS: usize = 32;

// In pipes of at most this many items a wait is for one piece. Then a member looks this often and
// leaves the processor to others between two looks: for about 20 µs, as long as a slow filter needs
// for a piece.
const FEW: usize = 4;

const YIELDS: usize = 64;

// If others took the processor for this many nanoseconds, it is wanted: then a member no longer
// looks.
const TAKEN: u64 = 100_000;

// After this many sleeps a member that no longer looks tries again whether that helps.
const SLEEPS: usize = 32;

// A stage takes this many turns for a piece.
const TURNS: usize = 2;

// A neighbour is woken for all but this part of what a pipe holds: three quarters.
const PART: usize = 4;

/// A member as it takes its turns.
#[derive(Clone, Copy)]
pub struct Member {
    place: usize,
    // Those with which it shares a pipe.
    near: u64,
    // How often its neighbours and the whole activity had moved before its last turn, if it looked then.
    looked: bool,
    near_moves: usize,
    all_moves: usize,
    // How often it moved since it last told its neighbours, and after how many moves it does so: at first and at most.
    untold: usize,
    batch: usize,
    most: usize,
    // So often it looks before it sleeps: now and at most; and whether it leaves the processor to others in between.
    looks: usize,
    most_looks: usize,
    yields: bool,
    // How often it slept, and how often since it last moved.
    sleeps: usize,
    naps: u32,
}

impl Member {
    /// A worker before its first turn.
    pub fn worker(activity: &PhaseActivity, worker: usize) -> Member {
        Member::new(activity, worker, TURNS, true)
    }

    /// The caller before its first round. It leaves its processor to nobody.
    pub fn caller(activity: &PhaseActivity) -> Member {
        Member::new(activity, activity.caller(), 1, false)
    }

    // A member, by the turns that it takes for a piece, and whether it may leave its processor to
    // others before it sleeps.
    fn new(activity: &PhaseActivity, place: usize, turns: usize, is_worker: bool) -> Member {
        let room = activity.room().min(64);
        let most_looks = if room <= FEW { YIELDS } else { LOOKS };
        Member {
            place,
            near: match activity.seat(place) {
                Some(seat) => seat.near,
                None => 0,
            },
            looked: false,
            near_moves: 0,
            all_moves: 0,
            untold: 0,
            batch: 1,
            most: turns_until_told(room, turns),
            looks: most_looks,
            most_looks,
            yields: is_worker && room <= FEW,
            sleeps: 0,
            naps: 0,
        }
    }

    /// What it does after a turn. It sleeps for at most `most` microseconds at a time. False if the
    /// phase is to end.
    pub fn goes_on<R: Wait, G: Gate>(
        &mut self,
        rt: &R,
        gate: &G,
        activity: &PhaseActivity,
        moved: bool,
        most: u64,
    ) -> bool {
        if moved {
            self.has_moved(gate, activity);
        } else if self.looked && !self.sees_move(gate, activity) {
            if !self.rests(rt, activity, most) {
                return false;
            }
            activity.end_in_time(gate);
            self.look(activity);
        } else {
            self.look(activity);
        }
        !activity.is_over()
    }

    // After a turn in which something moved.
    fn has_moved<G: Gate>(&mut self, gate: &G, activity: &PhaseActivity) {
        self.looked = false;
        self.naps = 0;
        if let Some(seat) = activity.seat(self.place) {
            seat.count_move();
        }
        self.untold = self.untold.saturating_add(1);
        if self.untold >= self.batch {
            self.tell(activity);
            activity.end_in_time(gate);
            self.batch = self.batch.saturating_mul(2).min(self.most);
        }
    }

    // Wakes its neighbours, so that they see what it moved.
    fn tell(&mut self, activity: &PhaseActivity) {
        self.untold = 0;
        activity.wake(self.near);
    }

    // Reads how much its neighbours and the whole activity have moved. The next turn shows whether it can go on.
    fn look(&mut self, activity: &PhaseActivity) {
        self.looked = true;
        self.near_moves = activity.moves(self.near);
        self.all_moves = activity.moves(u64::MAX);
    }

    // Looks for a while whether a neighbour moves something. It looks longer after that helped, and less after it did not.
    fn sees_move<G: Gate>(&mut self, gate: &G, activity: &PhaseActivity) -> bool {
        for _ in 0..self.looks {
            pause();
            if self.yields && is_taken(gate) {
                self.most_looks = 0;
                break;
            }
            if activity.moves(self.near) != self.near_moves {
                self.looks = self.looks.saturating_mul(2).min(self.most_looks);
                return true;
            }
        }
        self.looks = (self.looks / 2).min(self.most_looks);
        false
    }

    // Sleeps. If all members are idle, it ends the phase instead.
    fn rests<R: Wait>(&mut self, rt: &R, activity: &PhaseActivity, most: u64) -> bool {
        if self.untold.saturating_mul(PART) >= self.batch {
            self.tell(activity);
        }
        let Some(seat) = activity.seat(self.place) else {
            return false;
        };
        seat.mark(self.all_moves);
        if activity.are_idle(self.all_moves) {
            activity.end();
            return false;
        }
        self.sleep(rt, activity, most);
        true
    }

    // Sleeps until it is woken, for at most `most` microseconds, unless a neighbour has moved
    // something by now.
    fn sleep<R: Wait>(&mut self, rt: &R, activity: &PhaseActivity, most: u64) {
        let Some(seat) = activity.seat(self.place) else {
            return;
        };
        let nap = Duration::from_micros((1000u64 << self.naps.min(6)).min(most));
        seat.asleep().store(1, SeqCst);
        if activity.moves(self.near) == self.near_moves && !activity.is_over() {
            activity.wake_late(self.all_moves);
            seat.asleep().park_timeout(rt, 1, nap);
        }
        seat.asleep().store(0, SeqCst);
        self.naps = self.naps.saturating_add(1);
        self.sleeps = self.sleeps.wrapping_add(1);
        if self.looks == 0 && self.sleeps % SLEEPS == 0 {
            self.looks = self.most_looks;
        }
    }
}

// After how many turns that move something a member wakes its neighbours at most, by the turns that
// it takes for a piece.
fn turns_until_told(room: usize, turns: usize) -> usize {
    (room.saturating_mul(turns).saturating_mul(PART - 1) / PART).max(1)
}

// Leaves the processor to others, and says whether they took it for long.
fn is_taken<G: Gate>(gate: &G) -> bool {
    let before = gate.nanos();
    thread::yield_now();
    match (before, gate.nanos()) {
        (Some(before), Some(after)) => after.saturating_sub(before) > TAKEN,
        _ => false,
    }
}

// Leaves the processor's core to others for a moment.
fn pause() {
    for _ in 0..PAUSES {
        hint::spin_loop();
    }
}
