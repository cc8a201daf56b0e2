ghost use Rattle.std.specs.Prelude.{◌≡◌, ◌+◌, ◌^◌, ◌<◌, ◌≤◌, MatchResult};
ghost use Rattle.machine.specs.declared.protocol.StageFault.TheVariants as fault;

use crate::protocol::StageFault;

/// The sum of two counts, or CountTooLarge exactly if it is above 2^63 - 1.
pub fn add_count(a: u64, b: u64) -> Result<u64, StageFault>
    ensures { MatchResult result (λ sum. (sum ≡ a + b) × (sum < 2 ^ 63))
        (λ given. (given ≡ fault.CountTooLarge) × (2 ^ 63 ≤ a + b)) }
{
    match a.checked_add(b) {
        Some(sum) if sum < 1 << 63 => Ok(sum),
        _ => Err(StageFault::CountTooLarge),
    }
}
