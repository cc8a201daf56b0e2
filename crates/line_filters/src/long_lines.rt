// Long lines under -f. What is written of one is put together in the memory that it has, and its
// pieces are cut off from the end, so that no more than one piece of it is in memory twice.
ghost use Rattle.std.specs.Prelude.{◌≡◌, ℕ, ◌+◌, ◌≤◌, [], ◌∷◌, ◌++◌, length, IfOk, OnOk, if◌then◌else◌};
ghost use Rattle.std.specs.List.{concat};
ghost use Rattle.machine.specs.Lines.{content, newline};
ghost use Rattle.machine.specs.Pieces.{contents};
ghost use Rattle.commands.specs.Cut.{cut_content};
ghost use Rattle.commands.specs.Selections.{is_selected};
ghost use Rattle.line_filters.specs.CutLeft.{cut_left};
ghost use Rattle.line_filters.specs.inner.LongLines.{PutsFront};

use crate::bytes::{put, put_piece};
use crate::ranges::Ranges;
use crate::stretches::keep_fields;
use commands::Parts;
use machine::{
    NoMemory, Piece, Pieces, append, append_byte, clear_and_shrink, find_from, line_content,
};
use std::collections::VecDeque;

// A line is long if more bytes than these came before the piece that ends it. A line that is not
// long is in memory twice for a moment, which is little.
const LONG: usize = 1 << 20;

// The most bytes of a piece.
const MOST: usize = 65536;

// Takes the bytes that go on with a long line, and puts out what is written of it if they end it.
// Returns how many bytes were taken: none if no long line is begun.
pub(crate) fn take_long_line(
    ranges: &Ranges,
    parts: Parts,
    partial: &mut Vec<u8>,
    bytes: &[u8],
    out: &mut Pieces,
) -> Result<usize, NoMemory>
    ensures front { IfOk result
        (λ count. (passed : ℕ) → PutsFront
        (cut_left (is_selected ranges.now.ranges.items) parts partial.old.items passed)
        (cut_left (is_selected ranges.now.ranges.items) parts partial.new.items passed)
        bytes.now count out.old out.new) }
    ensures within { IfOk result (λ count. count ≤ length bytes.now) }
    ensures block { out.new.block ≡ out.old.block }
    ensures counted { parts ≡ Parts.Bytes → partial.new.items ≡ partial.old.items }
{
    match parts {
        Parts::Bytes => Ok(0),
        Parts::Fields {
            delimiter,
            only_delimited,
        } => take_long_fields(ranges, delimiter, only_delimited, partial, bytes, out),
    }
}

// The same with -f.
fn take_long_fields(
    ranges: &Ranges,
    delimiter: u8,
    only_delimited: bool,
    partial: &mut Vec<u8>,
    bytes: &[u8],
    out: &mut Pieces,
) -> Result<usize, NoMemory>
    ensures front { IfOk result
        (λ count. (passed : ℕ) → PutsFront
        (cut_left (is_selected ranges.now.ranges.items)
        (Parts.Fields delimiter only_delimited) partial.old.items passed)
        (cut_left (is_selected ranges.now.ranges.items)
        (Parts.Fields delimiter only_delimited) partial.new.items passed)
        bytes.now count out.old out.new) }
    ensures within { IfOk result (λ count. count ≤ length bytes.now) }
    ensures block { out.new.block ≡ out.old.block }
{
    if partial.len() <= LONG {
        return Ok(0);
    }
    match find_from(bytes, 0, b'\n') {
        None => {
            append(partial, bytes)?;
            Ok(bytes.len())
        }
        Some(end) => {
            append(partial, &bytes[..end])?;
            put_content(ranges, delimiter, only_delimited, partial, out)?;
            Ok(end + 1)
        }
    }
}

// Puts out what cut writes of an input's last line, if it is long.
pub(crate) fn put_long_last(
    ranges: &Ranges,
    parts: Parts,
    partial: &mut Vec<u8>,
    out: &mut Pieces,
) -> Result<(), NoMemory>
    ensures ok { OnOk result
        ((passed : ℕ)
        → contents out.new
        ++ cut_left (is_selected ranges.now.ranges.items) parts partial.new.items passed []
        ≡ contents out.old
        ++ cut_left (is_selected ranges.now.ranges.items) parts partial.old.items passed []) }
    ensures block { out.new.block ≡ out.old.block }
    ensures counted { parts ≡ Parts.Bytes → partial.new.items ≡ partial.old.items }
{
    match parts {
        Parts::Bytes => Ok(()),
        Parts::Fields {
            delimiter,
            only_delimited,
        } => put_last_fields(ranges, delimiter, only_delimited, partial, out),
    }
}

// The same with -f.
fn put_last_fields(
    ranges: &Ranges,
    delimiter: u8,
    only_delimited: bool,
    partial: &mut Vec<u8>,
    out: &mut Pieces,
) -> Result<(), NoMemory>
    ensures ok { OnOk result
        ((passed : ℕ)
        → contents out.new
        ++ cut_left (is_selected ranges.now.ranges.items)
        (Parts.Fields delimiter only_delimited) partial.new.items passed []
        ≡ contents out.old
        ++ cut_left (is_selected ranges.now.ranges.items)
        (Parts.Fields delimiter only_delimited) partial.old.items passed []) }
    ensures block { out.new.block ≡ out.old.block }
{
    if partial.len() <= LONG {
        return Ok(());
    }
    strip_newline(partial);
    put_content(ranges, delimiter, only_delimited, partial, out)?;
    Ok(())
}

// Removes the newline, if there is one.
fn strip_newline(line: &mut Vec<u8>)
    ensures { line.new.items ≡ content line.old.items }
{
    let len = line_content(line).len();
    line.truncate(len);
}

// Puts out what cut -f writes of the content of a line, and empties it.
fn put_content(
    ranges: &Ranges,
    delimiter: u8,
    only_delimited: bool,
    line: &mut Vec<u8>,
    out: &mut Pieces,
) -> Result<(), NoMemory>
    ensures ok { OnOk result
        (contents out.new
        ≡ contents out.old
        ++ cut_content (is_selected ranges.now.ranges.items)
        (Parts.Fields delimiter only_delimited) line.old.items) }
    ensures line { OnOk result (line.new.items ≡ []) }
    ensures block { out.new.block ≡ out.old.block }
{
    keep_content(ranges, delimiter, only_delimited, line)?;
    put_long(line, out)?;
    Ok(())
}

// Makes of the content of a line what cut -f writes of it.
fn keep_content(
    ranges: &Ranges,
    delimiter: u8,
    only_delimited: bool,
    line: &mut Vec<u8>,
) -> Result<(), NoMemory>
    ensures { OnOk result
        (line.new.items
        ≡ cut_content (is_selected ranges.now.ranges.items)
        (Parts.Fields delimiter only_delimited) line.old.items) }
{
    match find_from(line, 0, delimiter) {
        Some(_) => {
            keep_fields(ranges, delimiter, line)?;
            append_byte(line, b'\n')?;
            Ok(())
        }
        None => {
            keep_whole(only_delimited, line)?;
            Ok(())
        }
    }
}

// Adds a newline to a content without the delimiter, or removes it all if only delimited lines are
// written.
fn keep_whole(only_delimited: bool, line: &mut Vec<u8>) -> Result<(), NoMemory>
    ensures { OnOk result
        (line.new.items
        ≡ (if only_delimited then [] else line.old.items ++ newline ∷ [])) }
{
    if only_delimited {
        line.clear();
        return Ok(());
    }
    append_byte(line, b'\n')
}

// Puts out a line, and empties it. No more than one piece of it is in memory twice.
fn put_long(line: &mut Vec<u8>, out: &mut Pieces) -> Result<(), NoMemory>
    ensures ok { OnOk result (contents out.new ≡ contents out.old ++ line.old.items) }
    ensures line { OnOk result (line.new.items ≡ []) }
    ensures block { out.new.block ≡ out.old.block }
{
    let mut ends = cut_ends(line)?;
    put(line, out)?;
    clear_and_shrink(line);
    put_pieces(&mut ends, out)?;
    Ok(())
}

// Puts out these pieces.
fn put_pieces(pieces: &mut VecDeque<Piece>, out: &mut Pieces) -> Result<(), NoMemory>
    ensures ok { OnOk result (contents out.new ≡ contents out.old ++ concat pieces.old.items) }
    ensures block { out.new.block ≡ out.old.block }
{
    while let Some(piece) = pieces.pop_front() {
        put_piece(piece, out)?;
    }
    Ok(())
}

// Cuts all but the first piece off, and returns the pieces in order.
fn cut_ends(line: &mut Vec<u8>) -> Result<VecDeque<Piece>, NoMemory>
    ensures { IfOk result (λ ends. line.old.items ≡ line.new.items ++ concat ends.items) }
{
    let mut ends = VecDeque::new(*line.allocator());
    while line.len() > MOST {
        let piece = cut_end(line)?;
        ends.push_front(piece)?;
    }
    Ok(ends)
}

// Cuts the last piece off, and gives its memory back.
fn cut_end(line: &mut Vec<u8>) -> Result<Piece, NoMemory>
    requires { 65536 ≤ length line.old.items }
    ensures cut { IfOk result (λ piece. line.old.items ≡ line.new.items ++ piece) }
    ensures shorter { OnOk result (length line.new.items + 65536 ≡ length line.old.items) }
{
    let at = line.len() - MOST;
    let end = Vec::from_slice(*line.allocator(), &line[at..])?;
    line.truncate(at);
    line.shrink_to(at);
    Piece::from_vec(end)
}
