// What became of a group that was to get a thread of its own.
ghost use Rattle.std.specs.Prelude.{◌≡◌};
ghost use Rattle.lending.specs.inner.Loans.{GroupGoesOn};

use lending::Group;
use machine::Machine;
use std::marker::Model;
use std::snapshot::Snapshot;
use std::thread::{Promise, PromisedHandle};

/// What the join of a worker promises: the same stages in the same order, each of which goes on.
#[derive(Drop)]
pub struct Join<M: Machine>(pub(crate) Snapshot<Group<M>>);

impl<M: Machine> Promise<Group<M>> for Join<M> {
    ghost kept_by = { λ p g. GroupGoesOn M.shows p.0.value g };
}

// A group that got no thread: it has stayed here, and took one turn at most. Contracts see it as the group that it was.
#[derive(Drop)]
pub(crate) struct Stayed<M: Machine> {
    from: Snapshot<Group<M>>,
    group: Group<M>,
}

impl<M: Machine> Model for Stayed<M> {
    ghost use Rattle.lending.specs.inner.Loans.{Grouped, GroupGoesOn};

    ghost Value = { Grouped M };

    ghost view = { λ s. s.from.value };

    ghost invariant = { λ s. GroupGoesOn M.shows s.from.value s.group };
}

impl<M: Machine> Stayed<M> {
    // This group, which has taken no turn.
    pub(crate) fn new(group: Group<M>) -> Stayed<M>
        ensures { result ≡ group }
    {
        Stayed {
            from: Snapshot::of(&group),
            group,
        }
    }

    // This group, which was that of the snapshot.
    pub(crate) fn after(from: Snapshot<Group<M>>, group: Group<M>) -> Stayed<M>
        requires { GroupGoesOn M.shows from.value group }
        ensures { result ≡ from.value }
    {
        Stayed { from, group }
    }

    // The group as it is now.
    pub(crate) fn into_group(self) -> Group<M>
        ensures { GroupGoesOn M.shows self result }
    {
        let Stayed { from: _, group } = self;
        group
    }
}

// A group that was to get a thread of its own.
#[derive(Drop)]
pub(crate) enum Begun<M: Machine> {
    // It got one.
    Thread(PromisedHandle<Group<M>, Join<M>>),
    // It got none.
    Here(Stayed<M>),
}

impl<M: Machine> Begun<M> {
    // Whether it got a thread.
    pub(crate) fn has_thread(&self) -> bool {
        matches!(self, Begun::Thread(_))
    }
}
