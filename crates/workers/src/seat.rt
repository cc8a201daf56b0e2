use std::sync::atomic::Ordering::SeqCst;
use std::sync::atomic::{AtomicU64, AtomicUsize};

// The mark of a member that is not idle, and that of one that has left.
const BUSY: usize = usize::MAX;

const GONE: usize = usize::MAX - 1;

// What the others know of a member of an activity. It has cache lines of its own, so that members that write do not slow each other.
#[derive(Drop)]
#[repr(C)]
pub(crate) struct Seat {
    before: [u64; 8],
    // In how many of its turns something moved. Only the member itself writes this.
    moves: AtomicUsize,
    // How many moves there had been in the whole activity before its last vain turn.
    mark: AtomicUsize,
    // 1 while it sleeps or is about to.
    asleep: AtomicU64,
    // The members with which it shares a pipe, a bit for each.
    pub(crate) near: u64,
    after: [u64; 8],
}

impl Seat {
    pub(crate) fn new(near: u64) -> Seat {
        Seat {
            before: [0; 8],
            moves: AtomicUsize::new(0),
            mark: AtomicUsize::new(BUSY),
            asleep: AtomicU64::new(0),
            near,
            after: [0; 8],
        }
    }

    // In how many of its turns something moved.
    pub(crate) fn moves(&self) -> usize {
        self.moves.load(SeqCst)
    }

    // Counts a move of this member.
    pub(crate) fn count_move(&self) {
        self.moves
            .store(self.moves.load(SeqCst).wrapping_add(1), SeqCst);
    }

    // Marks it as idle since there had been this many moves.
    pub(crate) fn mark(&self, moves: usize) {
        self.mark.store(moves, SeqCst);
    }

    // Marks it as gone.
    pub(crate) fn leave(&self) {
        self.mark.store(GONE, SeqCst);
    }

    // Whether it has left, or was idle when there had been this many moves.
    pub(crate) fn is_idle(&self, moves: usize) -> bool {
        let mark = self.mark.load(SeqCst);
        mark == moves || mark == GONE
    }

    // Whether it takes no turn until it is woken, or has left.
    pub(crate) fn is_still(&self) -> bool {
        self.asleep.load(SeqCst) == 1 || self.mark.load(SeqCst) == GONE
    }

    // The word that it sleeps on.
    pub(crate) fn asleep(&self) -> &AtomicU64 {
        &self.asleep
    }

    // Wakes it if it sleeps, or is about to.
    pub(crate) fn wake(&self) {
        if self.asleep.load(SeqCst) == 1 && self.asleep.swap(0, SeqCst) == 1 {
            self.asleep.wake_one();
        }
    }
}
