use std::alloc::Global;

/// What a pipe moved in a run, each number up to 2^64 - 1.
#[derive(Clone, Copy, Debug, PartialEq, Eq)]
pub struct Amount {
    /// How many pieces its writer put there.
    pub pieces: u64,
    /// How many bytes they had.
    pub bytes: u64,
}

impl Amount {
    /// Nothing was moved.
    pub const NONE: Amount = Amount {
        pieces: 0,
        bytes: 0,
    };
}

/// What a run moved, and how long its nodes took. No clause speaks of it.
#[derive(Drop)]
pub struct Statistics {
    /// How often a pipe grew, up to 2^64 - 1.
    pub growths: u64,
    /// What each pipe moved, by its number. A pipe that is not in the list was not counted.
    pub amounts: Vec<Amount>,
    /// How many nanoseconds the steps of each node took, by its number: 0 if they were not measured. A node that is not in the list was not counted.
    pub times: Vec<u64>,
}

impl Statistics {
    /// Room for the statistics of a run with this many pipes and nodes, all zero. If memory is refused for a list, it is empty, and
    /// nothing is kept there: that is no fault of the run.
    pub fn new(alloc: Global, pipes: usize, nodes: usize) -> Statistics {
        Statistics {
            growths: 0,
            amounts: room_for(alloc, Amount::NONE, pipes),
            times: room_for(alloc, 0, nodes),
        }
    }
}

// This many copies of a value, or none if memory is refused.
fn room_for<T: Copy>(alloc: Global, value: T, count: usize) -> Vec<T> {
    match vec![in alloc; value; count] {
        Ok(list) => list,
        Err(_) => Vec::new(alloc),
    }
}
