ghost use Rattle.std.specs.Prelude.{◌≡◌, ◌≤◌, ◌++◌, ◌↔◌, [], length, drop, false, true, IsTrue, IfOk, MatchOption};
ghost use Rattle.machine.specs.Lines.{HasNoNewline, newline};
ghost use Rattle.machine.specs.inner.Places.{FirstFrom};
ghost use Rattle.pair_filters.specs.Intakes.{held};

use lanes::{Prefix, Written, find_near};
use machine::{NoMemory, Piece, find_from};
use std::marker::Model;

// A line of fewer bytes is short.
const NEAR: usize = 64;

// The intake of an input: the piece of it that came last, the place up to which that is used, and whether the input has ended. Contracts see
// the bytes that are left.
#[derive(Drop)]
pub(crate) struct Intake {
    piece: Option<Piece>,
    // How many bytes the piece has.
    len: usize,
    at: usize,
    closed: bool,
    // Whether the last line that ended was short.
    short: bool,
}

impl Model for Intake {
    ghost use Rattle.std.specs.Prelude.{◌≡◌, ◌≤◌, length, drop};
    ghost use Rattle.pair_filters.specs.Intakes.{Left, held};

    ghost Value = { Left };

    ghost view = { λ s. record { left = drop s.at (held s.piece); closed = s.closed } };

    ghost invariant = { λ s. (s.at ≤ s.len) × (s.len ≡ length (held s.piece)) };
}

impl Intake {
    ghost use Rattle.pair_filters.specs.Intakes.{PutsLine};

    // The intake of an input before anything of it came.
    pub(crate) fn new() -> Intake
        ensures { result ≡ record { left = []; closed = false } }
    {
        Intake {
            piece: None,
            len: 0,
            at: 0,
            closed: false,
            short: true,
        }
    }

    // A piece more of it, once all of the one before is used.
    pub(crate) fn push(&mut self, piece: Piece)
        requires { self.old.left ≡ [] }
        ensures { self.new ≡ record self.old { left = self.old.left ++ piece } }
    {
        self.len = piece.len();
        self.piece = Some(piece);
        self.at = 0;
    }

    // It has ended.
    pub(crate) fn close(&mut self)
        ensures { self.new ≡ record self.old { closed = true } }
    {
        self.closed = true;
    }

    // Whether it has ended.
    pub(crate) fn is_closed(&self) -> bool
        ensures { result ≡ self.now.closed }
    {
        self.closed
    }

    // Whether nothing is left of what came.
    #[inline(always)]
    pub(crate) fn is_empty(&self) -> bool
        ensures { IsTrue result ↔ (self.now.left ≡ []) }
    {
        self.at >= self.len
    }

    // Appends what came of the content of its next line, and says whether that has ended.
    #[inline(always)]
    pub(crate) fn put_line(&mut self, made: &mut Written) -> Result<bool, NoMemory>
        ensures { IfOk result
            (λ ended. PutsLine self.old self.new ended made.old made.new) }
    {
        let bytes = bytes_of(&self.piece);
        match find_newline(bytes, self.at, self.short) {
            Some(end) => {
                made.put_part(Prefix::new(&bytes[self.at..], end - self.at))?;
                self.short = end - self.at < NEAR;
                self.at = end + 1;
                Ok(true)
            }
            None => {
                made.put(&bytes[self.at..])?;
                self.piece = None;
                self.len = 0;
                self.at = 0;
                Ok(self.closed)
            }
        }
    }
}

// The bytes of a piece, or none if there is no piece.
#[inline(always)]
fn bytes_of(piece: &Option<Piece>) -> &[u8]
    ensures { result.now ≡ held piece.now }
{
    match piece {
        None => &[],
        Some(piece) => piece.bytes(),
    }
}

// The place of the first newline from the place `at` on, if there is one. The search begins nearby
// if lines are short.
#[inline(always)]
fn find_newline(bytes: &[u8], at: usize, short: bool) -> Option<usize>
    requires { at ≤ length bytes.now }
    ensures { MatchOption result (HasNoNewline (drop at bytes.now))
        (FirstFrom bytes.now newline at) }
{
    if short {
        find_near(bytes, at, b'\n')
    } else {
        find_from(bytes, at, b'\n')
    }
}
