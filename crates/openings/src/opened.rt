ghost use Rattle.std.specs.Prelude.{◌≡◌};
ghost use Rattle.openings.specs.Answers.{missing_places, own_file};

use std::marker::Model;

/// The open files of a plan. Contracts see the answer to each opening, by its place in the plan's two lists, and to the opening
/// of each node.
#[derive(Drop)]
pub struct Opened {
    inputs: Vec<Option<usize>>,
    outputs: Vec<usize>,
    missing: Vec<usize>,
    own: Vec<Option<usize>>,
}

impl Model for Opened {
    ghost use Rattle.std.specs.Prelude.{◌≡◌};
    ghost use Rattle.openings.specs.Answers.{OpenedFiles, missing_places};

    ghost Value = { OpenedFiles };

    ghost view = { λ o. record {
      inputs = o.inputs.items;
      outputs = o.outputs.items;
      own = o.own.items;
    } };

    ghost invariant = { λ o. o.missing.items ≡ missing_places o.inputs.items };
}

impl Opened {
    // The open files with these answers.
    pub(crate) fn new(
        inputs: Vec<Option<usize>>,
        outputs: Vec<usize>,
        missing: Vec<usize>,
        own: Vec<Option<usize>>,
    ) -> Opened
        requires { missing.items ≡ missing_places inputs.items }
        ensures { result
            ≡ record { inputs = inputs.items; outputs = outputs.items; own = own.items } }
    {
        Opened {
            inputs,
            outputs,
            missing,
            own,
        }
    }

    /// The places in the plan's inputs of the operands that could not be opened, rising.
    pub fn missing(&self) -> &[usize]
        ensures { result.now ≡ missing_places self.now.inputs }
    {
        self.missing.as_slice()
    }

    /// The numbers of the open outputs, in the order of the plan's.
    pub fn outputs(&self) -> &[usize]
        ensures { result.now ≡ self.now.outputs }
    {
        self.outputs.as_slice()
    }

    /// The number of the open file of a source or a sink; None if it is an empty source or its
    /// operand could not be opened.
    pub fn file(&self, node: usize) -> Option<usize>
        ensures { result ≡ own_file self.now node }
    {
        match self.own.get(node) {
            Some(file) => *file,
            None => None,
        }
    }
}
