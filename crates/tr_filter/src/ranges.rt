ghost use Rattle.std.specs.Prelude.{◌≡◌, map as list_map, slice_index, IfSome, IsTrue};
ghost use Rattle.tr_filter.specs.Ranges.{ranged, becomes, ranges_table};

// A range of bytes. Those from `low` to `high` become what `keeps` leaves of their bits, and `by`
// more; 0 follows 255. So they move if it keeps all bits, and become one byte if it keeps none.
#[derive(Clone, Copy)]
pub(crate) struct Range {
    pub low: u8,
    pub high: u8,
    pub keeps: u8,
    pub by: u8,
}

// The range of no byte.
const NOTHING: Range = Range {
    low: 1,
    high: 0,
    keeps: 255,
    by: 0,
};

// Up to four ranges; the last one that has a byte counts.
#[derive(Clone, Copy)]
pub(crate) struct Ranges {
    pub first: Range,
    pub second: Range,
    pub third: Range,
    pub fourth: Range,
}

// What a byte becomes by one range, or otherwise the other one.
#[inline(always)]
fn ranged(range: Range, byte: u8, other: u8) -> u8
    ensures { result ≡ ranged range byte other }
{
    if range.low <= byte && byte <= range.high {
        (byte & range.keeps).wrapping_add(range.by)
    } else {
        other
    }
}

// What a byte becomes.
#[inline(always)]
fn becomes(ranges: Ranges, byte: u8) -> u8
    ensures { result ≡ becomes ranges byte }
{
    let first = ranged(ranges.first, byte, byte);
    let second = ranged(ranges.second, byte, first);
    let third = ranged(ranges.third, byte, second);
    ranged(ranges.fourth, byte, third)
}

// Writes over each byte what it becomes.
pub(crate) fn range_over(bytes: &mut [u8], ranges: Ranges)
    ensures { bytes.new ≡ list_map (λ x. slice_index (ranges_table ranges) x) bytes.old }
{
    for byte in bytes.iter_mut() {
        *byte = becomes(ranges, *byte);
    }
}

// A range that ends at the byte before this one, and goes on with it, if it can.
fn longer(range: Range, table: &[u8; 256], byte: u8) -> Option<Range> {
    if byte == 0 || range.high != byte - 1 || range.high < range.low {
        return None;
    }
    let entry = table[byte as usize];
    if entry == (byte & range.keeps).wrapping_add(range.by) {
        return Some(Range {
            high: byte,
            ..range
        });
    }
    if range.low == range.high && entry == table[range.high as usize] {
        return Some(Range {
            high: byte,
            keeps: 0,
            by: entry,
            ..range
        });
    }
    None
}

// The ranges of the bytes that change, as far as there is room for them.
fn ranges_in(table: &[u8; 256]) -> Ranges {
    let mut ranges = [NOTHING; 4];
    let mut count = 0;
    for index in 0..256usize {
        let byte = index as u8;
        if 1 <= count
            && let Some(range) = longer(ranges[count - 1], table, byte)
        {
            ranges[count - 1] = range;
        } else if table[index] != byte && count < 4 {
            ranges[count] = Range {
                low: byte,
                high: byte,
                keeps: 255,
                by: table[index].wrapping_sub(byte),
            };
            count += 1;
        }
    }
    Ranges {
        first: ranges[0],
        second: ranges[1],
        third: ranges[2],
        fourth: ranges[3],
    }
}

// Whether this is what the table does.
fn are_ranges(table: &[u8; 256], ranges: Ranges) -> bool
    ensures { IsTrue result → table.now ≡ ranges_table ranges }
{
    for index in 0..256usize {
        if table[index] != becomes(ranges, index as u8) {
            return false;
        }
    }
    true
}

// The ranges that are all that the table does, if they are few.
pub(crate) fn ranges_of(table: &[u8; 256]) -> Option<Ranges>
    ensures { IfSome result (λ ranges. table.now ≡ ranges_table ranges) }
{
    let ranges = ranges_in(table);
    if are_ranges(table, ranges) {
        Some(ranges)
    } else {
        None
    }
}
