ghost use Rattle.pair_filters.specs.Intakes.{first_left};
ghost use Rattle.std.specs.Prelude.{◌≡◌, ◌<◌, ◌≤◌, ◌++◌, [], false, length, take, drop, slice_index, IfOk, IsTrue, OnOk};
ghost use Rattle.std.specs.List.{All};
ghost use Rattle.pair_filters.specs.Circles.{IsRow};
ghost use Rattle.machine.specs.Pieces.{contents};
ghost use Rattle.pair_filters.specs.inner.TableSteps.{Begins, HandsOn, IsSettled, LeavesCell, PoursCells, PutsCell};

use crate::circle::{put_in_rows, row_circle};
use crate::delimiters::{put_delimiter, put_delimiters};
use crate::intake::Intake;
use lanes::Written;
use machine::{Machine, NoMemory, Piece, Pieces, StageFault, Want};
use std::alloc::Global;

// The place of paste in a table: the column of a row, and whether something of that row is written.
#[derive(Clone, Copy)]
pub(crate) struct Place {
    pub(crate) column: usize,
    pub(crate) begun: bool,
}

// Room for what is written of a first piece.
pub(crate) const ROOM: usize = 4096;

// How many bytes are collected before they are handed on. A cell more still fits into a piece of the greatest length, unless the cell is long.
const FULL: usize = 57344;

// paste without -s as a machine. Of each input it holds the last piece, until all of it is written.
#[derive(Drop)]
pub(crate) struct Table {
    delimiters: Vec<Option<u8>>,
    columns: Vec<usize>,
    intakes: Vec<Intake>,
    place: Place,
    // The bytes that take the places of newlines, if all columns are of one input.
    circle: Vec<u8>,
    made: Written,
    ghost emptied: { first_left (drop place.column columns.items) intakes.items ≡ [] },
    ghost row: { 1 ≤ length circle.items → IsRow delimiters.items columns.items circle.items },
}

impl Table {
    ghost use Rattle.pair_filters.specs.TableShows.{IsNewTable, table_shows};

    // A new machine with these columns of `count` inputs, which are all present.
    pub(crate) fn new(
        alloc: Global,
        delimiters: &[Option<u8>],
        columns: &[usize],
        inputs: usize,
    ) -> Result<Table, NoMemory>
        ensures { IfOk result
            (λ machine. IsNewTable delimiters.now columns.now inputs (table_shows machine)) }
    {
        let column = first_column(columns, inputs);
        let circle = row_circle(alloc, delimiters, columns)?;
        Ok(Table {
            delimiters: Vec::from_slice(alloc, delimiters)?,
            columns: Vec::from_slice(alloc, columns)?,
            intakes: new_intakes(alloc, inputs)?,
            place: Place {
                column,
                begun: false,
            },
            circle,
            made: Written::new(alloc, ROOM),
        })
    }
}

impl Machine for Table {
    ghost use Rattle.pair_filters.specs.TableShows.{table_shows, table_lawful};

    ghost shows = { table_shows };

    ghost lawful = { table_lawful };

    fn want(&self) -> Want {
        if self.place.column >= self.columns.len() {
            return Want::Finished;
        }
        let input = self.columns[self.place.column];
        if input >= self.intakes.len() || self.intakes[input].is_closed() {
            return Want::Finished;
        }
        Want::Take(input)
    }

    fn feed(&mut self, input: usize, piece: Piece, out: &mut Pieces) -> Result<(), StageFault> {
        if goes_in_circle(self.circle.as_slice(), self.place) {
            let alloc = *self.circle.allocator();
            let circle = self.circle.as_slice();
            let made = put_in_rows(alloc, circle, &mut self.place, piece.bytes())?;
            out.push_vec(made)?;
            return Ok(());
        }
        self.made.clear();
        // If memory is refused, no column is left, so no input is wanted.
        let mut place = self.place;
        self.place.column = self.columns.len();
        self.intakes[input].push(piece);
        put_rows(
            self.delimiters.as_slice(),
            self.columns.as_slice(),
            &mut self.intakes,
            &mut place,
            &mut self.made,
            out,
        )?;
        self.place = place;
        hand_on(&mut self.made, out)?;
        Ok(())
    }

    fn close(&mut self, input: usize, out: &mut Pieces) -> Result<(), StageFault> {
        self.made.clear();
        // If memory is refused, no column is left, so no input is wanted.
        let mut place = self.place;
        self.place.column = self.columns.len();
        self.intakes[input].close();
        put_rows(
            self.delimiters.as_slice(),
            self.columns.as_slice(),
            &mut self.intakes,
            &mut place,
            &mut self.made,
            out,
        )?;
        self.place = place;
        hand_on(&mut self.made, out)?;
        Ok(())
    }
}

// Returns true only if there is a circle, and this place is in it, with nothing of its row left out.
#[inline(always)]
fn goes_in_circle(circle: &[u8], place: Place) -> bool
    ensures { IsTrue result → (place.column < length circle.now)
        × (place.begun ≡ false → place.column ≡ 0) }
{
    place.column < circle.len() && (place.begun || place.column == 0)
}

// Inputs before anything of them came.
fn new_intakes(alloc: Global, inputs: usize) -> Result<Vec<Intake>, NoMemory>
    ensures { IfOk result
        (λ intakes. (length intakes.items ≡ inputs)
        × All (λ s. s ≡ record { left = []; closed = false }) intakes.items) }
{
    let mut intakes = Vec::new(alloc);
    for _ in 0..inputs {
        intakes.push(Intake::new())?;
    }
    Ok(intakes)
}

// The place of the first column whose input is there.
pub(crate) fn first_column(columns: &[usize], inputs: usize) -> usize
    ensures within { result ≤ length columns.now }
    ensures before { All (λ i. inputs ≤ i) (take result columns.now) }
    ensures here { result < length columns.now → slice_index columns.now result < inputs }
{
    for (p, input) in columns.iter().enumerate() {
        if *input < inputs {
            return p;
        }
    }
    columns.len()
}

// Writes all that can be written of the rows. What was made is handed on whenever it is long.
fn put_rows(
    delimiters: &[Option<u8>],
    columns: &[usize],
    intakes: &mut [Intake],
    place: &mut Place,
    made: &mut Written,
    out: &mut Pieces,
) -> Result<(), NoMemory>
    ensures poured { OnOk result
        (PoursCells delimiters.now columns.now intakes.old intakes.new place.old place.new
        made.old made.new out.old out.new) }
    ensures settled { OnOk result (IsSettled (drop place.new.column columns.now) intakes.new) }
    ensures emptied { OnOk result (first_left (drop place.new.column columns.now) intakes.new ≡ []) }
    ensures block { out.new.block ≡ out.old.block }
{
    while place.column < columns.len() {
        let input = columns[place.column];
        if !put_cell(delimiters, input, intakes, place, made)? {
            return Ok(());
        }
        leave_cell(delimiters, columns, place, made)?;
        hand_on_long(made, out)?;
    }
    Ok(())
}

// Hands on what was made if it is long.
#[inline(always)]
#[tactic(auto, using(crate::proofs::lemmas::PourLaws::hands_none, crate::proofs::lemmas::PourLaws::hands_all))]
fn hand_on_long(made: &mut Written, out: &mut Pieces) -> Result<(), NoMemory>
    ensures handed { OnOk result (HandsOn made.old made.new out.old out.new) }
    ensures block { out.new.block ≡ out.old.block }
{
    if made.bytes().len() < FULL {
        return Ok(());
    }
    hand_on(made, out)
}

// Hands on what was made.
#[inline(never)]
#[tactic(auto, using(machine::proofs::Cuts::contents_added))]
fn hand_on(made: &mut Written, out: &mut Pieces) -> Result<(), NoMemory>
    ensures handed { OnOk result (contents out.new ≡ contents out.old ++ made.old) }
    ensures emptied { OnOk result (made.new ≡ []) }
    ensures block { out.new.block ≡ out.old.block }
{
    out.push_bytes(made.bytes())?;
    made.clear();
    Ok(())
}

// Appends what came of the cell of this input, and says whether the cell has ended.
#[inline(always)]
fn put_cell(
    delimiters: &[Option<u8>],
    input: usize,
    intakes: &mut [Intake],
    place: &mut Place,
    made: &mut Written,
) -> Result<bool, NoMemory>
    ensures { IfOk result
        (λ ended. PutsCell delimiters.now input intakes.old intakes.new place.old place.new ended
        made.old made.new) }
{
    if input >= intakes.len() {
        return Ok(true);
    }
    begin_row(delimiters, !intakes[input].is_empty(), place, made)?;
    let ended = intakes[input].put_line(made)?;
    Ok(ended)
}

// Begins the row, if it is not begun and something of it can be written.
#[inline(always)]
fn begin_row(
    delimiters: &[Option<u8>],
    some: bool,
    place: &mut Place,
    made: &mut Written,
) -> Result<(), NoMemory>
    ensures { OnOk result
        (Begins delimiters.now some place.old place.new made.old made.new) }
{
    if place.begun || !some {
        return Ok(());
    }
    put_delimiters(delimiters, place.column, made)?;
    place.begun = true;
    Ok(())
}

// Goes to the next column, or from the last one of a row that was begun to the next row.
#[inline(always)]
fn leave_cell(
    delimiters: &[Option<u8>],
    columns: &[usize],
    place: &mut Place,
    made: &mut Written,
) -> Result<(), NoMemory>
    requires { place.old.column < length columns.now }
    ensures { OnOk result
        (LeavesCell delimiters.now columns.now place.old place.new made.old made.new) }
{
    if !place.begun {
        place.column += 1;
        return Ok(());
    }
    if place.column + 1 < columns.len() {
        put_delimiter(delimiters, place.column, made)?;
        place.column += 1;
        return Ok(());
    }
    made.put_byte(b'\n')?;
    place.column = 0;
    place.begun = false;
    Ok(())
}
