// Whether a pipe is full, as a thread that holds both of its ends can tell.
ghost use Rattle.std.specs.Prelude.{◌↔◌, IsTrue};
ghost use Rattle.bounded_pipe.specs.Ends.{Beside, HoldsCapacity};
ghost use Rattle.bounded_pipe.specs.Pipes.{IsFull};

use crate::{PipeIn, PipeOut};

/// Whether a pipe is full for an item of `size` bytes, and its reader is there.
#[tactic(auto, using(crate::proofs::Records::full_of_test, crate::proofs::Records::test_of_full))]
pub fn is_full(writer: &PipeOut, reader: &PipeIn, size: u64) -> bool
    requires { Beside writer.now reader.now }
    ensures { IsTrue result ↔ IsFull size writer.now reader.now }
{
    !reader.has_hung_up() && (holds_capacity(writer, reader) || writer.lacks_bytes(size))
}

/// Whether a pipe holds as many items as its capacity.
#[tactic(auto, using(crate::proofs::Records::beside_lengths))]
pub fn holds_capacity(writer: &PipeOut, reader: &PipeIn) -> bool
    requires { Beside writer.now reader.now }
    ensures { IsTrue result ↔ HoldsCapacity writer.now reader.now }
{
    reader.known() == writer.capacity()
}
