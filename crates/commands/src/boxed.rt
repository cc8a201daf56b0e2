use machine::NoMemory;
use std::alloc::Global;
use std::marker::Model;
use tr_words::TrSpec;

/// What a tr command does, in memory of its own, since its tables are large. Contracts see what is
/// in it.
#[derive(Drop)]
pub struct BoxedTr {
    spec: Box<TrSpec>,
}

impl Model for BoxedTr {
    ghost use Rattle.tr_words.specs.declared.tr_words.TrSpec as tr;

    ghost Value = { tr.TrSpec };

    ghost view = { λ b. b.spec.value };
}

impl BoxedTr {
    ghost use Rattle.std.specs.Prelude.{◌≡◌, IfOk};

    /// Moves it into memory of its own.
    pub fn new(alloc: Global, spec: TrSpec) -> Result<BoxedTr, NoMemory>
        ensures { IfOk result (λ boxed. boxed ≡ spec) }
    {
        let spec = Box::new(alloc, spec)?;
        Ok(BoxedTr { spec })
    }

    /// What is in that memory.
    pub fn spec(&self) -> &TrSpec
        ensures { result.now ≡ self.now }
    {
        &self.spec
    }
}
