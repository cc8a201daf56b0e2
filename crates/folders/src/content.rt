use std::alloc::{AllocError, Global};
use std::marker::Model;

/// Bytes for a file. Contracts see their list.
#[derive(Drop)]
pub struct Content {
    bytes: Vec<u8>,
}

impl Model for Content {
    ghost use Rattle.std.specs.Prelude.{List, ℕ};

    ghost Value = { List ℕ };

    ghost view = { λ content. content.bytes.items };
}

impl Content {
    ghost use Rattle.std.specs.Prelude.{◌≡◌, IfOk};

    /// A copy of these bytes. It fails if memory is refused.
    pub fn from_slice(alloc: Global, bytes: &[u8]) -> Result<Content, AllocError>
        ensures { IfOk result (λ content. content ≡ bytes.now) }
    {
        Ok(Content {
            bytes: Vec::from_slice(alloc, bytes)?,
        })
    }

    /// The bytes.
    pub fn bytes(&self) -> &[u8]
        ensures { result.now ≡ self.now }
    {
        self.bytes.as_slice()
    }
}
