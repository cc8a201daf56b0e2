use crate::lent::LentNetwork;
use machine::Machine;
use networks::{Actor, Link};

impl<M: Machine> LentNetwork<M> {
    /// Its pipes.
    pub fn pipes(&self) -> &[Link] {
        self.parts.pipes.as_slice()
    }

    /// How many items each of its pipes can hold, of those whose writers are here: the least of these capacities.
    pub fn room(&self) -> usize {
        let mut room = usize::MAX;
        for pipe in self.parts.pipes.as_slice() {
            room = room.min(room_of(&self.parts.nodes, *pipe));
        }
        room
    }
}

// How many items a pipe can hold, if its writer is here.
fn room_of<M: Machine>(nodes: &[Actor<M>], pipe: Link) -> usize {
    match nodes.get(pipe.writer) {
        Some(Actor::Source(source)) => source.end().capacity(),
        Some(Actor::Stage(stage)) if pipe.branch < stage.branch_count() => {
            stage.branch_end(pipe.branch).capacity()
        }
        _ => usize::MAX,
    }
}
