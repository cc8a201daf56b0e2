ghost use Rattle.std.specs.Prelude.{◌≡◌, [], ◌∷◌, length, false, MatchBool, if◌then◌else◌};

use crate::protocol::{Presence, Want};

/// The input of a machine that has only one: whether it could be opened, and whether it has ended.
#[derive(Clone, Copy)]
pub struct OneInput {
    pub present: bool,
    pub closed: bool,
}

impl OneInput {
    /// This input, which has not ended.
    pub fn new(inputs: &[Presence]) -> OneInput
        requires { length inputs.now ≡ 1 }
        ensures open { result.closed ≡ false }
        ensures present { MatchBool result.present (inputs.now ≡ Presence.Present ∷ [])
            (inputs.now ≡ Presence.Missing ∷ []) }
    {
        OneInput {
            present: matches!(inputs, [Presence::Present]),
            closed: false,
        }
    }

    /// What the machine wants: the input until it has ended.
    pub fn want(self) -> Want
        ensures { result ≡ (if self.closed then Want.Finished else Want.Take 0) }
    {
        if self.closed {
            Want::Finished
        } else {
            Want::Take(0)
        }
    }
}
