ghost use Rattle.std.specs.Prelude.{◌≡◌, ℕ, true, ◌<◌, ◌≤◌, ◌++◌, List, Option, Some, length, drop, map as list_map, slice_index, slice_index_or, IfOk, OnOk};
ghost use Rattle.machine.specs.declared.protocol.Presence.TheVariants.{Missing};
ghost use Rattle.pair_filters.specs.Joins.{JoinsBytes, PutsDue};
ghost use Rattle.pair_filters.specs.Operands.{PassesOperands, is_at_first, is_first, repeated_line};
ghost use Rattle.commands.specs.Paste.{has_column};

use crate::delimiters::{next_number, put_delimiter};
use crate::joined::{delimiter_bytes, join_piece};
use crate::table::{ROOM, first_column};
use lanes::{Prefix, Walk, Written};
use machine::{Machine, NoMemory, Piece, Pieces, Presence, StageFault, Want};
use std::alloc::Global;

// What was joined of an input: the number of the next delimiter, and whether it is due, since a line has ended.
#[derive(Clone, Copy)]
pub(crate) struct Joint {
    pub(crate) next: usize,
    pub(crate) due: bool,
}

impl Joint {
    ghost use Rattle.pair_filters.specs.Joins.{no_line};

    // Nothing is joined yet.
    fn new() -> Joint
        ensures { result ≡ no_line }
    {
        Joint {
            next: 0,
            due: false,
        }
    }

    // Nothing is joined to what follows.
    fn begin_again(&mut self)
        ensures { self.new ≡ no_line }
    {
        *self = Joint::new();
    }
}

// paste -s as a machine. It keeps no bytes of a line.
#[derive(Drop)]
pub(crate) struct Serial {
    delimiters: Vec<Option<u8>>,
    columns: Vec<usize>,
    inputs: Vec<Presence>,
    column: usize,
    joint: Joint,
    // The delimiters, if none of them is empty.
    circle: Vec<u8>,
    made: Written,
    ghost bytes: { 1 ≤ length circle.items → list_map Some circle.items ≡ delimiters.items },
    ghost settled: { is_at_first columns.items (length inputs.items) column (drop column columns.items)
        ≡ true },
}

impl Serial {
    ghost use Rattle.machine.specs.Law.{IsNew};
    ghost use Rattle.pair_filters.specs.SerialShows.{serial_shows};
    ghost use Rattle.commands.specs.Paste.{paste_whole};

    // A new machine with these columns of these inputs.
    pub(crate) fn new(
        alloc: Global,
        delimiters: &[Option<u8>],
        columns: &[usize],
        inputs: &[Presence],
    ) -> Result<Serial, NoMemory>
        ensures { IfOk result
            (λ machine. IsNew (serial_shows machine)
            (paste_whole delimiters.now true columns.now) inputs.now) }
    {
        let column = first_column(columns, inputs.len());
        let circle = delimiter_bytes(alloc, delimiters)?;
        Ok(Serial {
            delimiters: Vec::from_slice(alloc, delimiters)?,
            columns: Vec::from_slice(alloc, columns)?,
            inputs: Vec::from_slice(alloc, inputs)?,
            column,
            joint: Joint::new(),
            circle,
            made: Written::new(alloc, ROOM),
        })
    }
}

impl Machine for Serial {
    ghost use Rattle.pair_filters.specs.SerialShows.{serial_shows, serial_lawful};

    ghost shows = { serial_shows };

    ghost lawful = { serial_lawful };

    fn want(&self) -> Want {
        if self.column >= self.columns.len() {
            return Want::Finished;
        }
        Want::Take(self.columns[self.column])
    }

    fn feed(&mut self, input: usize, piece: Piece, out: &mut Pieces) -> Result<(), StageFault> {
        match self.inputs[input] {
            Presence::Missing => Ok(()),
            Presence::Present => {
                if self.joint.next < self.circle.len() {
                    let alloc = *self.circle.allocator();
                    let circle = self.circle.as_slice();
                    let made = join_piece(alloc, circle, &mut self.joint, piece.bytes())?;
                    out.push_vec(made)?;
                    return Ok(());
                }
                self.made.clear();
                put_lines(
                    self.delimiters.as_slice(),
                    &mut self.joint,
                    piece.bytes(),
                    &mut self.made,
                )?;
                out.push_bytes(self.made.bytes())?;
                Ok(())
            }
        }
    }

    fn close(&mut self, input: usize, out: &mut Pieces) -> Result<(), StageFault> {
        self.made.clear();
        put_end(self.inputs.as_slice(), input, &mut self.made)?;
        let column = next_operand(
            self.columns.as_slice(),
            self.inputs.as_slice(),
            self.column + 1,
            &mut self.made,
        )?;
        self.joint.begin_again();
        self.column = column;
        out.push_bytes(self.made.bytes())?;
        Ok(())
    }
}

// Appends the line end of an input that is present.
fn put_end(inputs: &[Presence], input: usize, made: &mut Written) -> Result<(), NoMemory>
    ensures { OnOk result
        (made.new
        ≡ made.old ++ repeated_line (slice_index_or inputs.now input Missing)) }
{
    match inputs.get(input) {
        Some(Presence::Present) => made.put_byte(b'\n'),
        _ => Ok(()),
    }
}

// Whether a column is the first one of an input that is there.
fn is_first(columns: &[usize], count: usize, column: usize) -> bool
    requires { column < length columns.now }
    ensures { result ≡ is_first columns.now count column (slice_index columns.now column) }
{
    let input = columns[column];
    input < count && !has_column(&columns[..column], input)
}

// Whether one of these columns is of this input.
fn has_column(columns: &[usize], input: usize) -> bool
    ensures { result ≡ has_column columns.now input }
{
    columns.iter().any(|other| *other == input)
}

// The first column from one on that is the first one of its input. Appends what is written of those that are passed.
fn next_operand(
    columns: &[usize],
    inputs: &[Presence],
    from: usize,
    made: &mut Written,
) -> Result<usize, NoMemory>
    ensures passed { IfOk result
        (λ column. (delimiters : List (Option ℕ))
        → PassesOperands delimiters columns.now inputs.now from column made.old
        made.new) }
    ensures first { IfOk result
        (λ column. is_at_first columns.now (length inputs.now) column (drop column columns.now)
        ≡ true) }
{
    let mut column = from;
    while column < columns.len() {
        if is_first(columns, inputs.len(), column) {
            return Ok(column);
        }
        put_end(inputs, columns[column], made)?;
        column += 1;
    }
    Ok(column)
}

// Appends the contents of lines as far as these bytes have them, joined to what was appended
// before.
fn put_lines(
    delimiters: &[Option<u8>],
    joint: &mut Joint,
    bytes: &[u8],
    made: &mut Written,
) -> Result<(), NoMemory>
    ensures { OnOk result
        (JoinsBytes delimiters.now joint.old joint.new bytes.now made.old made.new) }
{
    let mut ends = Walk::new(Prefix::whole(bytes), b'\n');
    let mut at = 0;
    while let Some(end) = ends.next() {
        put_due(delimiters, joint, made)?;
        made.put_part(Prefix::new(&bytes[at..], end - at))?;
        joint.due = true;
        at = end + 1;
    }
    if at < bytes.len() {
        put_due(delimiters, joint, made)?;
        made.put(&bytes[at..])?;
    }
    Ok(())
}

// Appends the delimiter that is due, since a line follows.
#[inline(always)]
fn put_due(delimiters: &[Option<u8>], joint: &mut Joint, made: &mut Written) -> Result<(), NoMemory>
    ensures { OnOk result
        (PutsDue delimiters.now joint.old joint.new made.old made.new) }
{
    if !joint.due {
        return Ok(());
    }
    put_delimiter(delimiters, joint.next, made)?;
    joint.next = next_number(delimiters, joint.next);
    joint.due = false;
    Ok(())
}
