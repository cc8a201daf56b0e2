//! The laws of the words that the contracts are written in. Each is the contract of a function that does nothing.
ghost use Rattle.std.specs.Prelude.{◌≡◌, [], List, ℕ, false};
ghost use Rattle.bounded_pipe.specs.Ends.{Writing, Reading, Beside};
ghost use Rattle.bounded_pipe.specs.Pipes.{is_closed, IsFull, IsBare};
ghost use Rattle.bounded_pipe.specs.Events.{SameWriting, SameReading};
ghost use Rattle.collector.specs.Files.{ReadLog, WriteLog};
ghost use Rattle.collector.specs.Nodes.{SourceShown, SinkShown, SourceFits, SinkFits, IsUnended, KnowsNoPlace};

/// If the two ends of a pipe have just met, one that refuses is an end of a full pipe whose reader
/// is there, and a reader that knows of no item has an empty pipe.
#[tactic(auto, using(crate::proofs::Looks::refusing_is_full, crate::proofs::Looks::unknown_is_bare))]
pub fn a_wait_is_exact()
    ensures full { (size : ℕ) (w : Writing) (r : Reading) → Beside w r → KnowsNoPlace size w
        → IsFull size w r }
    ensures bare { (w : Writing) (r : Reading) → Beside w r → r.known ≡ [] → is_closed w ≡ false
        → IsBare w r }
{}

/// A node that lent its end for a look keeps its case: the case rests on what was put or taken, and on the marks, and not
/// on what the end knows of the other.
pub fn a_look_keeps_the_case()
    ensures source { (log : ReadLog) (x : SourceShown) (end : Writing) → SameWriting x.end end
        → SourceFits log x → SourceFits log (record x { end = end }) }
    ensures sink { (log : WriteLog) (x : SinkShown) (end : Reading) → SameReading x.end end
        → SinkFits log x → SinkFits log (record x { end = end }) }
    ensures unended { (x : SinkShown) (end : Reading) → SameReading x.end end → IsUnended x
        → IsUnended (record x { end = end }) }
{}
