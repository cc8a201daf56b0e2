// What the tests of pipes and of pieces share.
use super::holds;
use machine::{Piece, Pieces};
use std::alloc::Global;
use std::process::Abort;
use std::test::Fail;

mod by_hand;
mod moving;
mod pieces;
mod protocol;
mod threads;

// A piece of these bytes.
fn piece_of(alloc: Global, bytes: &[u8]) -> Result<Piece, Fail> {
    if bytes.is_empty() || bytes.len() > 65536 {
        return Err("this is no piece")?;
    }
    Ok(Piece::from_vec(Vec::from_slice(alloc, bytes)?)?)
}

// The bytes of the pieces, with these bytes between two of them.
pub(super) fn taken_out(alloc: Global, pieces: Pieces, between: &[u8]) -> Result<Vec<u8>, Fail> {
    let mut pieces = pieces;
    let mut bytes = Vec::new(alloc);
    while let Some(piece) = pieces.pop_front() {
        add_piece(&mut bytes, &piece, between)?;
    }
    Ok(bytes)
}

fn add_piece(bytes: &mut Vec<u8>, piece: &Piece, between: &[u8]) -> Result<(), Fail> {
    if !bytes.is_empty() {
        bytes.extend_from_slice(between)?;
    }
    bytes.extend_from_slice(piece.bytes())?;
    Ok(())
}
