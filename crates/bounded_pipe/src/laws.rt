//! The laws of the words that the contracts are written in. Each is the contract of a function that does
//! nothing.
ghost use Rattle.std.specs.Prelude.{◌≡◌, ℕ, ◌+◌, ◌≤◌, ◌++◌, [], IsFalse};
ghost use Rattle.machine.specs.declared.piece.Item.{Item};
ghost use Rattle.bounded_pipe.specs.Sizes.{size_of};
ghost use Rattle.bounded_pipe.specs.Ends.{Writing, Reading, AreEnds, WritesOn, ReadsOn, IsCounted, IsTold};
ghost use Rattle.bounded_pipe.specs.Ends.{Consistent, SeeEachOther, Beside, KnowsFull, LacksRoom, IsEmpty};
ghost use Rattle.bounded_pipe.specs.Names.{PipeName};
ghost use Rattle.bounded_pipe.specs.Events.{Puts, Notes, Takes, HangsUp, SameWriting, SameReading, StillWriting, StillReading, Regrows};

/// A writing end goes on from its own record, and from each record that an earlier one went on to.
#[tactic(auto, using(crate::proofs::Records::writes_on_reflexive, crate::proofs::Records::writes_on_transitive))]
pub fn writes_on()
    ensures reflexive { (a : Writing) → WritesOn a a }
    ensures transitive { (a b c : Writing) → WritesOn a b → WritesOn b c → WritesOn a c }
{}

/// A reading end goes on from its own record, and from each record that an earlier one went on to.
#[tactic(auto, using(crate::proofs::Records::reads_on_reflexive, crate::proofs::Records::reads_on_transitive))]
pub fn reads_on()
    ensures reflexive { (a : Reading) → ReadsOn a a }
    ensures transitive { (a b c : Reading) → ReadsOn a b → ReadsOn b c → ReadsOn a c }
{}

/// The two ends of one pipe stay so wherever they are lent. Ends that share their other end are ends of one
/// pipe.
#[tactic(auto, using(crate::proofs::Records::ends_go_on))]
pub fn ends()
    ensures lent { (a b : Writing) (c d : Reading) → AreEnds a c → WritesOn a b → ReadsOn c d
        → AreEnds b d }
    ensures shared { (a b : Writing) (c d : Reading) → AreEnds a c → AreEnds b c → AreEnds b d
        → AreEnds a d }
    ensures reflexive { (name : PipeName) → name ≡ name }
    ensures transitive { (a b c : PipeName) → a ≡ b → b ≡ c → a ≡ c }
{}

/// After each event, and after none, an end goes on from the record that it had.
pub fn events()
    ensures puts { (item : Item) (a b : Writing) → Puts item a b → WritesOn a b }
    ensures notes { (a b : Writing) → Notes a b → WritesOn a b }
    ensures takes { (item : Item) (a b : Reading) → Takes item a b → ReadsOn a b }
    ensures hangs_up { (a b : Reading) → HangsUp a b → ReadsOn a b }
    ensures same_writing { (a b : Writing) → SameWriting a b → WritesOn a b }
    ensures same_reading { (a b : Reading) → SameReading a b → ReadsOn a b }
    ensures still_writing { (a b : Writing) → SameWriting a b → StillWriting a b }
    ensures still_reading { (a b : Reading) → SameReading a b → StillReading a b }
{}

/// What holds of two ends that have seen all that the other did.
#[tactic(auto, using(crate::proofs::Records::beside_sees, crate::proofs::Records::beside_consistent, crate::proofs::Records::sees_full, crate::proofs::Records::sees_empty, crate::proofs::Records::sees_open))]
pub fn beside_each_other()
    ensures sees { (w : Writing) (r : Reading) → Beside w r → SeeEachOther w r }
    ensures consistent { (w : Writing) (r : Reading) → Beside w r → Consistent w r }
    ensures full { (size : ℕ) (w : Writing) (r : Reading) → SeeEachOther w r → KnowsFull size w
        → LacksRoom size w r }
    ensures empty { (w : Writing) (r : Reading) → SeeEachOther w r → r.known ≡ [] → IsEmpty w r }
    ensures not_hung_up { (w : Writing) (r : Reading) → SeeEachOther w r → IsFalse w.noted → w.pending ≡ 0
        → IsFalse r.hung_up }
    // also if a hang-up was noted since
    ensures full_once_noted { (size : ℕ) (w w' : Writing) (r : Reading) → SeeEachOther w r → Notes w w'
        → w'.free ≡ w.free → w'.count ≡ w.count → KnowsFull size w' → LacksRoom size w' r }
{}

/// What each end knows of bytes since the pipe was made or grew, or since `beside`. The count of a
/// writing end is at most the limit. It has risen by at least the bytes that were put, less the
/// numbers that were received. What a reading end told since, and what it has yet to tell, are
/// together at most the bytes that it took.
pub fn counts_since()
    ensures writing { (w w' : Writing) (r : Reading) → Beside w r → WritesOn w w'
        → (w'.count ≤ w'.limit)
        × (w.count + size_of w'.put + w.heard ≤ w'.count + size_of w.put + w'.heard) }
    ensures reading { (w : Writing) (r r' : Reading) → Beside w r → ReadsOn r r'
        → (r'.told + r'.untold) + size_of r.taken ≤ size_of r'.taken + r.told }
{}

/// After a growth the rings hold exactly the items in the pipe, and each end has the record that it had.
pub fn growth()
    ensures put { (capacity : ℕ) (w w' : Writing) (r r' : Reading) → Regrows capacity w w' r r'
        → Beside w' r' → w'.put ≡ r.taken ++ r'.known }
    ensures writing { (capacity : ℕ) (w w' : Writing) (r r' : Reading) → Regrows capacity w w' r r'
        → StillWriting w w' }
    ensures reading { (capacity : ℕ) (w w' : Writing) (r r' : Reading) → Regrows capacity w w' r r'
        → StillReading r r' }
    ensures same { (capacity : ℕ) (w w' : Writing) (r r' : Reading) → Regrows capacity w w' r r'
        → Beside w r → Beside w' r' → r'.known ≡ r.known }
{}
