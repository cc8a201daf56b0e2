ghost use Rattle.std.specs.Prelude.{◌≡◌, ℕ, ◌<◌, false, map as list_map, slice_index, IfSome, IsTrue};
ghost use Rattle.command_words.specs.Bytes.{is_from};
ghost use Rattle.tr_filter.specs.Shifts.{shifted, shift_table};

// Bytes that move: those from `low` to `high` become the ones that are `by` greater; 0 follows 255.
#[derive(Clone, Copy)]
pub(crate) struct Shift {
    pub low: u8,
    pub high: u8,
    pub by: u8,
}

// What a byte becomes.
fn shifted(shift: Shift, byte: u8) -> u8
    ensures { result ≡ shifted shift byte }
{
    if shift.low <= byte && byte <= shift.high {
        byte.wrapping_add(shift.by)
    } else {
        byte
    }
}

// Writes over each byte what it becomes.
pub(crate) fn shift_over(bytes: &mut [u8], shift: Shift)
    ensures { bytes.new ≡ list_map (λ x. slice_index (shift_table shift) x) bytes.old }
{
    for byte in bytes.iter_mut() {
        *byte = shifted(shift, *byte);
    }
}

// The first and the last byte that become others.
fn moved_range(table: &[u8; 256]) -> (u8, u8)
    ensures { (x : ℕ) → x < 256 → is_from result.0 result.1 x ≡ false
        → slice_index table.now x ≡ x }
{
    let mut low = 255;
    let mut high = 0;
    for index in 0..256usize {
        let byte = index as u8;
        if table[index] != byte {
            low = byte.min(low);
            high = byte;
        }
    }
    (low, high)
}

// Whether this is what the table does.
fn is_shift(table: &[u8; 256], shift: Shift) -> bool
    ensures { IsTrue result → table.now ≡ shift_table shift }
{
    for index in 0..256usize {
        if table[index] != shifted(shift, index as u8) {
            return false;
        }
    }
    true
}

// The shift that is all that the table does, if it is one.
pub(crate) fn shift_of(table: &[u8; 256]) -> Option<Shift>
    ensures { IfSome result (λ shift. table.now ≡ shift_table shift) }
{
    let (low, high) = moved_range(table);
    let by = table[low as usize].wrapping_sub(low);
    let shift = Shift { low, high, by };
    if is_shift(table, shift) {
        Some(shift)
    } else {
        None
    }
}
