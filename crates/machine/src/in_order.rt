ghost use Rattle.std.specs.Prelude.{◌≡◌, ◌+◌, ◌<◌, ◌↔◌, Some, length, slice_get, IsTrue, IfOk};
ghost use Rattle.machine.specs.InOrder.{wanted_of};

use crate::memory::NoMemory;
use crate::protocol::{Presence, Want};
use std::alloc::Global;
use std::marker::Model;

/// The inputs of a machine that wants them in order, and the number of the one that it wants next. Contracts see both.
#[derive(Drop)]
pub struct InOrder {
    inputs: Vec<Presence>,
    at: usize,
}

impl Model for InOrder {
    ghost use Rattle.machine.specs.InOrder.{Position};

    ghost Value = { Position };

    ghost view = { λ a. record { presence = a.inputs.items; at = a.at } };
}

impl InOrder {
    /// These inputs. The first one comes first.
    pub fn new(alloc: Global, inputs: &[Presence]) -> Result<InOrder, NoMemory>
        ensures { IfOk result (λ made. made ≡ record { presence = inputs.now; at = 0 }) }
    {
        Ok(InOrder {
            inputs: Vec::from_slice(alloc, inputs)?,
            at: 0,
        })
    }

    /// The input that is wanted next, or Finished if none is left.
    pub fn want(&self) -> Want
        ensures { result ≡ wanted_of self.now.presence self.now.at }
    {
        if self.at < self.inputs.len() {
            Want::Take(self.at)
        } else {
            Want::Finished
        }
    }

    /// Whether the input that is wanted next could be opened.
    pub fn here(&self) -> Presence
        requires { self.now.at < length self.now.presence }
        ensures { slice_get self.now.presence self.now.at ≡ Some result }
    {
        self.inputs[self.at]
    }

    /// The number of the input that is wanted next.
    pub fn at(&self) -> usize
        ensures { result ≡ self.now.at }
    {
        self.at
    }

    /// Whether the input that is wanted next is the last one.
    pub fn is_last(&self) -> bool
        requires { self.now.at < length self.now.presence }
        ensures { IsTrue result ↔ (self.now.at + 1 ≡ length self.now.presence) }
    {
        self.at + 1 == self.inputs.len()
    }

    /// Goes on to the next input.
    pub fn next(&mut self)
        requires { self.old.at < length self.old.presence }
        ensures { self.new ≡ record self.old { at = self.old.at + 1 } }
    {
        self.at += 1;
    }
}
