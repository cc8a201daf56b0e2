// Masks of 64 bits, bit by bit.
ghost use Rattle.std.specs.Prelude.{◌≡◌, ◌≢◌, ℕ, ◌<◌, ◌≤◌, ◌+◌};
ghost use Rattle.std.specs.Int.{bit_at};
ghost use Rattle.lanes.specs.inner.Masks.{IsWithoutLowest};

// Returns the number of the lowest bit that is set.
#[inline(always)]
pub(crate) fn lowest(mask: u64) -> usize
    requires { mask ≢ 0 }
    ensures bound { result < 64 }
    ensures set { bit_at mask result ≡ 1 }
    ensures below { (k : ℕ) → k < result → bit_at mask k ≡ 0 }
{
    mask.trailing_zeros() as usize
}

// Returns the mask with this bit cleared.
#[inline(always)]
pub(crate) fn without(mask: u64, bit: usize) -> u64
    requires { bit < 64 }
    ensures kept { (k : ℕ) → k < 64 → k ≢ bit → bit_at result k ≡ bit_at mask k }
    ensures gone { bit_at result bit ≡ 0 }
{
    mask & !(1 << bit)
}

// Returns the mask with its lowest bit cleared.
#[inline(always)]
pub(crate) fn without_lowest(mask: u64) -> u64
    requires { mask ≢ 0 }
    ensures { IsWithoutLowest mask result }
{
    mask & (mask - 1)
}

// Returns the number of the highest bit that is set.
#[inline(always)]
pub(crate) fn highest(mask: u64) -> usize
    requires { mask ≢ 0 }
    ensures bound { result < 64 }
    ensures set { bit_at mask result ≡ 1 }
    ensures above { (k : ℕ) → result < k → bit_at mask k ≡ 0 }
{
    63 - mask.leading_zeros() as usize
}

// Returns the bits from this one on, which becomes the lowest.
#[inline(always)]
pub(crate) fn from_bit(mask: u64, bit: usize) -> u64
    requires { bit < 64 }
    ensures { (k : ℕ) → bit_at result k ≡ bit_at mask (bit + k) }
{
    mask >> bit
}

// Returns how many of the lowest bits are 0.
#[inline(always)]
pub(crate) fn clear_bits(mask: u64) -> usize
    ensures bound { result ≤ 64 }
    ensures clear { (k : ℕ) → k < result → bit_at mask k ≡ 0 }
{
    mask.trailing_zeros() as usize
}
