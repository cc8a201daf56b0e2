ghost use Rattle.std.specs.Prelude.{◌≡◌, ℕ, ◌+◌, ◌%◌, ◌<◌, List, ◌++◌, OnOk};
ghost use Rattle.std.specs.List.{flat_map, range_with_len};
ghost use Rattle.commands.specs.Delimiters.{behind, delimiter};

use lanes::Written;
use machine::NoMemory;

// Appends the delimiter with number k, if they go in a circle.
#[inline(always)]
pub(crate) fn put_delimiter(
    delimiters: &[Option<u8>],
    k: usize,
    made: &mut Written,
) -> Result<(), NoMemory>
    ensures { OnOk result (made.new ≡ made.old ++ delimiter delimiters.now k) }
{
    if delimiters.is_empty() {
        return Ok(());
    }
    match delimiters[in_circle(k, delimiters.len())] {
        None => Ok(()),
        Some(byte) => made.put_byte(byte),
    }
}

// Appends the delimiters with numbers below k.
pub(crate) fn put_delimiters(
    delimiters: &[Option<u8>],
    k: usize,
    made: &mut Written,
) -> Result<(), NoMemory>
    ensures { OnOk result
        (made.new
        ≡ made.old ++ flat_map (delimiter delimiters.now) (range_with_len 0 k)) }
{
    for i in 0..k {
        put_delimiter(delimiters, i, made)?;
    }
    Ok(())
}

// The number of the delimiter after number k.
pub(crate) fn next_number(delimiters: &[Option<u8>], k: usize) -> usize
    ensures { (cells : List (List ℕ))
        → behind delimiters.now result cells ≡ behind delimiters.now (k + 1) cells }
{
    if delimiters.is_empty() {
        return 0;
    }
    let next = in_circle(k, delimiters.len()) + 1;
    if next == delimiters.len() { 0 } else { next }
}

// The number below n of k, if they go in a circle.
pub(crate) fn in_circle(k: usize, n: usize) -> usize
    requires { 0 < n }
    ensures value { result ≡ k % n }
    ensures below { result < n }
{
    if k < n { k } else { k % n }
}
