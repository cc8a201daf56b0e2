//! The laws of the words that the contracts are written in. Each is the contract of a function that does nothing.
ghost use Rattle.std.specs.Prelude.{ℕ, slice_set};
ghost use Rattle.std.specs.List.{HoldsAt};
ghost use Rattle.machine.specs.Law.{Shown};
ghost use Rattle.machine.specs.Whole.{StreamAnswer};
ghost use Rattle.bounded_pipe.specs.Ends.{Writing, Reading};
ghost use Rattle.bounded_pipe.specs.Events.{StillWriting, StillReading};
ghost use Rattle.run_types.specs.declared.node_state.NodeState.{NodeState};
ghost use Rattle.stages.specs.Cases.{CaseOf};
ghost use Rattle.stages.specs.Inlets.{Taking};
ghost use Rattle.stages.specs.Outlets.{Putting};
ghost use Rattle.stages.specs.Waits.{FullWaitsAreExact, EmptyWaitsAreExact};

/// If a stage waits for a full branch, and each branch was looked at from both sides, that is the
/// first branch to which it owes an item, and all to which it owes one are full.
pub fn full_waits_are_exact()
    ensures { FullWaitsAreExact }
{}

/// If a stage waits for an empty input, and each input was looked at from both sides, it owes
/// nothing, a branch is open, its machine wants that input, and the input is empty and not closed.
pub fn empty_waits_are_exact()
    ensures { EmptyWaitsAreExact }
{}

/// A stage that lent an end for a look or a growth keeps its case: the case rests on what was put or taken, and on the marks, and
/// not on what the end knows of the other, or on the rings of the pipe.
#[tactic(auto, using(crate::proofs::Looks::case_grown_out, crate::proofs::Looks::case_grown_in))]
pub fn a_look_or_growth_keeps_the_case()
    ensures branch { (answer : StreamAnswer) (state : NodeState) (m : Shown) (i : Taking) (o : Putting) (k : ℕ)
        (end : Writing) → HoldsAt (λ w. StillWriting w end) o.ends k → CaseOf answer state m i o
        → CaseOf answer state m i (record o { ends = slice_set o.ends k end }) }
    ensures input { (answer : StreamAnswer) (state : NodeState) (m : Shown) (i : Taking) (o : Putting) (k : ℕ)
        (end : Reading) → HoldsAt (λ r. StillReading r end) i.ends k → CaseOf answer state m i o
        → CaseOf answer state m (record i { ends = slice_set i.ends k end }) o }
{}
