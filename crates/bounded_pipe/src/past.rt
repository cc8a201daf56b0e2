// The items that were taken through a pipe before it got its rings. Only proofs read this list; it takes no memory.
ghost use Rattle.std.specs.Prelude.{◌≡◌, List, []};
ghost use Rattle.std.specs.Borrow.{ftrue};
ghost use Rattle.machine.specs.declared.piece.Item.{Item};

use std::marker::Model;

#[derive(Drop)]
pub(crate) struct Past {
    pub(crate) ghost items: { List Item },
}

impl Model for Past {
    ghost also_owns = { λ _. ftrue };
}

// It owns nothing.
unsafe impl Send for Past {}

impl Past {
    // Nothing was taken.
    pub(crate) fn new() -> Past
        ensures { result.items ≡ [] }
    {
        Past {}
    }
}
