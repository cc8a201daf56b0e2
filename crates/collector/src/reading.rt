ghost use Rattle.std.specs.Prelude.{◌≡◌, ◌≤◌, None, Some, IfOk, IfErr, IsSome, MatchResult};
ghost use Rattle.machine.specs.Pieces.{IsBlock};
ghost use Rattle.collector.specs.Files.{reads_of, ReadsOnly};
ghost use Rattle.collector.specs.Nodes.{IsSourceFault, failures_with};
ghost use Rattle.collector.specs.Sources.{IsHeldLong};
ghost use Rattle.collector.specs.inner.Parts.{ReadsOnce};

use crate::opening::Files;
use machine::{Blocks, NoMemory, Piece};
use run_types::NodeFault;
use std::alloc::Global;
use std::marker::Model;

// The reads of a source do not grow to the whole block, but leave this part of it free. So what a filter makes of one read, with a newline
// or a number more in each line, mostly fits into one piece.
const PART: usize = 8;

// How a source reads: into blocks that come back, at first a few bytes, and twice as many after each read that came back full.
// Contracts see how many bytes a read has at most.
#[derive(Drop)]
pub(crate) struct Reading {
    alloc: Global,
    block: usize,
    // How many bytes the next read asks for.
    asks: usize,
    blocks: Blocks,
}

impl Model for Reading {
    ghost use Rattle.std.specs.Prelude.{ℕ, ◌≤◌};
    ghost use Rattle.machine.specs.Pieces.{IsBlock};

    ghost Value = { ℕ };

    ghost view = { λ r. r.block };

    ghost invariant = { λ r. IsBlock r.block × (1 ≤ r.asks) × (r.asks ≤ r.block) };
}

impl Reading {
    // Reads of at most `block` bytes. The first one asks for `first`.
    pub(crate) fn new(alloc: Global, block: usize, first: usize) -> Reading
        requires block { IsBlock block }
        requires first { (1 ≤ first) × (first ≤ block) }
        ensures { result ≡ block }
    {
        Reading {
            alloc,
            block,
            asks: first,
            blocks: Blocks::new(alloc),
        }
    }

    // Makes a piece of what was read ahead, or of what one read gives now: none at the end.
    pub(crate) fn next_piece<F: Files>(
        &mut self,
        file: usize,
        files: &mut F,
    ) -> Result<Option<Piece>, NodeFault>
        requires opened { IsSome ((F.shows files.old).inputs file) }
        ensures told { ReadsOnce self.old result (reads_of (F.shows files.old) file)
            (reads_of (F.shows files.new) file) }
        ensures long { IfOk result (IsHeldLong self.old) }
        ensures fault { IfErr result IsSourceFault }
        ensures only { ReadsOnly file (F.shows files.old) (F.shows files.new) }
        ensures failures { MatchResult result
            (λ held. (F.shows files.new).failures ≡ (F.shows files.old).failures)
            (λ fault. (F.shows files.new).failures
            ≡ failures_with fault (F.shows files.old).failures) }
        ensures same { self.new ≡ self.old }
    {
        match files.take_read(file, self.block) {
            Some(bytes) => match Piece::from_vec(bytes) {
                Ok(piece) => Ok(Some(piece)),
                Err(NoMemory) => Err(NodeFault::NoMemory),
            },
            None => self.read_piece(file, files),
        }
    }

    // Reads once, and makes a piece of what was read: none at the end.
    fn read_piece<F: Files>(
        &mut self,
        file: usize,
        files: &mut F,
    ) -> Result<Option<Piece>, NodeFault>
        requires opened { IsSome ((F.shows files.old).inputs file) }
        ensures told { ReadsOnce self.old result (reads_of (F.shows files.old) file)
            (reads_of (F.shows files.new) file) }
        ensures long { IfOk result (IsHeldLong self.old) }
        ensures fault { IfErr result IsSourceFault }
        ensures only { ReadsOnly file (F.shows files.old) (F.shows files.new) }
        ensures failures { MatchResult result
            (λ held. (F.shows files.new).failures ≡ (F.shows files.old).failures)
            (λ fault. (F.shows files.new).failures
            ≡ failures_with fault (F.shows files.old).failures) }
        ensures same { self.new ≡ self.old }
    {
        let Ok(mut block) = self.blocks.block(self.asks) else {
            return Err(NodeFault::NoMemory);
        };
        let Ok(count) = files.read(file, block.as_mut_slice()) else {
            return Err(NodeFault::ReadFault);
        };
        if count == 0 {
            self.give_up();
            return Ok(None);
        }
        self.grow_after(count);
        match self.blocks.piece(block, count) {
            Ok(piece) => Ok(Some(piece)),
            Err(NoMemory) => Err(NodeFault::NoMemory),
        }
    }

    // Gives up its blocks, since nothing more is to be read.
    pub(crate) fn give_up(&mut self)
        ensures { self.new ≡ self.old }
    {
        self.blocks = Blocks::new(self.alloc);
    }

    // Lets the next read ask for more if one that gave this many bytes came back full.
    fn grow_after(&mut self, count: usize)
        ensures { self.new ≡ self.old }
    {
        if count == self.asks {
            let most = self.block - self.block / PART;
            self.asks = self.asks.max(self.asks.saturating_mul(2).min(most));
        }
    }
}
