ghost use Rattle.std.specs.Prelude.{◌≡◌, ◌+◌, ◌≤◌, ◌<◌, ◌++◌, false, length, IsTrue};
ghost use Rattle.std.specs.List.{concat};
ghost use Rattle.std.specs.Vec.{vec_capacity};
ghost use Rattle.bounded_pipe.specs.Ends.{Reading};
ghost use Rattle.bounded_pipe.specs.Pipes.{BeginsWithPiece};
ghost use Rattle.collector.specs.inner.Joins.{Took};

use crate::batch::FewPieces;
use bounded_pipe::PipeIn;
use machine::Item;

// A piece of at most this many bytes is short: a copy of it costs less than a write.
const SHORT: usize = 4096;

// At most this many pieces are joined to the first one.
const MOST: usize = 255;

// Whether a piece of this size is short, and joined bytes of this many may have it after them in so much room.
pub(crate) fn is_short(size: usize, joined: usize, room: usize) -> bool {
    size <= SHORT.min(room.saturating_sub(joined))
}

// Takes the next items of the pipe and joins their bytes, as long as they are short pieces, are there and have room.
pub(crate) fn join_short(end: &mut PipeIn, room: usize, bytes: &mut Vec<u8>)
    ensures took { (start : Reading) → Took start end.old bytes.old.items false
        → Took start end.new bytes.new.items false }
{
    for _ in 0..MOST {
        let Some(size) = end.next_size() else {
            return;
        };
        if !is_short(size, bytes.len(), room) || bytes.reserve(size).is_err() {
            return;
        }
        join_next(end, size, bytes);
    }
}

// Takes the next item of the pipe, which is a piece of this size, and appends its bytes, for which there is memory.
fn join_next(end: &mut PipeIn, size: usize, bytes: &mut Vec<u8>)
    requires next { BeginsWithPiece size end.old.known }
    requires memory { length bytes.old.items + size ≤ vec_capacity bytes.old }
    ensures took { (start : Reading) → Took start end.old bytes.old.items false
        → Took start end.new bytes.new.items false }
{
    let Some(Item::Bytes(piece)) = end.take() else {
        unreachable!()
    };
    let Ok(()) = bytes.extend_from_slice(piece.bytes()) else {
        unreachable!()
    };
}

// Takes the next items of the pipe, as long as they are pieces that are not short, are there and have room.
pub(crate) fn take_long(end: &mut PipeIn, room: usize, pieces: &mut FewPieces)
    ensures took { (start : Reading) → Took start end.old (concat pieces.old) false
        → Took start end.new (concat pieces.new) false }
{
    for _ in 0..MOST {
        if pieces.is_full() {
            return;
        }
        let Some(size) = end.next_size() else {
            return;
        };
        if is_short(size, 0, room) {
            return;
        }
        take_piece(end, size, pieces);
    }
}

// Takes the next item of the pipe, which is a piece of this size, for which there is room.
fn take_piece(end: &mut PipeIn, size: usize, pieces: &mut FewPieces)
    requires next { BeginsWithPiece size end.old.known }
    requires room { length pieces.old < 8 }
    ensures took { (start : Reading) → Took start end.old (concat pieces.old) false
        → Took start end.new (concat pieces.new) false }
{
    let Some(Item::Bytes(piece)) = end.take() else {
        unreachable!()
    };
    pieces.push(piece);
}
