ghost use Rattle.std.specs.Prelude.{◌≡◌, map as list_map, slice_index, IfSome, IsTrue};
ghost use Rattle.tr_filter.specs.Moves.{distance, moved, moves_table};

use crate::shift::Shift;

// Two ranges of bytes that move. A byte is compared by those of its bits that `tests` keeps, so that one range has letters of
// both cases.
#[derive(Clone, Copy)]
pub(crate) struct Moves {
    pub tests: u8,
    pub first: Shift,
    pub second: Shift,
}

// The range of no byte.
const NOTHING: Shift = Shift {
    low: 1,
    high: 0,
    by: 0,
};

// All bits but the one in which a small letter differs from its capital.
const CASELESS: u8 = 0b1101_1111;

// How far a byte moves, by those of its bits that are compared.
#[inline(always)]
fn distance(shift: Shift, tested: u8) -> u8
    ensures { result ≡ distance shift tested }
{
    if shift.low <= tested && tested <= shift.high {
        shift.by
    } else {
        0
    }
}

// What a byte becomes.
#[inline(always)]
fn moved(moves: Moves, byte: u8) -> u8
    ensures { result ≡ moved moves byte }
{
    let tested = byte & moves.tests;
    byte.wrapping_add(distance(moves.first, tested))
        .wrapping_add(distance(moves.second, tested))
}

// Writes over each byte what it becomes.
pub(crate) fn move_over(bytes: &mut [u8], moves: Moves)
    ensures { bytes.new ≡ list_map (λ x. slice_index (moves_table moves) x) bytes.old }
{
    for byte in bytes.iter_mut() {
        *byte = moved(moves, *byte);
    }
}

// The first two ranges of bytes that change, if these bits are compared.
fn moves_in(table: &[u8; 256], tests: u8) -> Moves {
    let mut shifts = [NOTHING; 2];
    let mut count = 0;
    for index in 0..256usize {
        let byte = index as u8;
        let by = table[index].wrapping_sub(byte);
        if byte & tests != byte || by == 0 {
            continue;
        }
        if 1 <= count
            && shifts[count - 1].by == by
            && shifts[count - 1].high == byte.wrapping_sub(1)
        {
            shifts[count - 1] = Shift {
                low: shifts[count - 1].low,
                high: byte,
                by,
            };
        } else if count < 2 {
            shifts[count] = Shift {
                low: byte,
                high: byte,
                by,
            };
            count += 1;
        }
    }
    Moves {
        tests,
        first: shifts[0],
        second: shifts[1],
    }
}

// Whether this is what the table does.
fn are_moves(table: &[u8; 256], moves: Moves) -> bool
    ensures { IsTrue result → table.now ≡ moves_table moves }
{
    for index in 0..256usize {
        if table[index] != moved(moves, index as u8) {
            return false;
        }
    }
    true
}

// The two ranges that are all that the table does, if it has no more. First all bits are compared, then all but that of the
// case.
pub(crate) fn moves_of(table: &[u8; 256]) -> Option<Moves>
    ensures { IfSome result (λ moves. table.now ≡ moves_table moves) }
{
    let moves = moves_in(table, 255);
    if are_moves(table, moves) {
        return Some(moves);
    }
    let caseless = moves_in(table, CASELESS);
    if are_moves(table, caseless) {
        return Some(caseless);
    }
    None
}
