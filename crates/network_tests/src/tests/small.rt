// A small filter for the sequential answer: it writes the first line of its inputs, or all of them.
ghost use Rattle.std.specs.Prelude.{◌≡◌, ℕ, List, [], IfOk, Option, option_map, take};
ghost use Rattle.std.specs.List.{concat};
ghost use Rattle.std.specs.Option.{unwrap_or};
ghost use Rattle.machine.specs.Lines.{lines};
ghost use Rattle.machine.specs.Whole.{joined as joined_of};
ghost use Rattle.network_tests.specs.inner.Plans.{whole_lists};

use crate::WholeFilter;
use machine::NoMemory;
use std::alloc::Global;

#[derive(Drop)]
pub(super) struct Small {
    pub(super) first: bool,
}

impl WholeFilter for Small {
    ghost use Rattle.std.specs.Prelude.{if◌then◌else◌};
    ghost use Rattle.network_laws.specs.Worked.{copies, first_line};

    ghost whole = { λ filter ins. if filter.first then first_line ins else copies ins };

    fn run_whole(&self, alloc: Global, inputs: &[Option<Vec<u8>>]) -> Result<Vec<u8>, NoMemory> {
        let bytes = joined(alloc, inputs)?;
        if self.first {
            return front_line(alloc, bytes.as_slice());
        }
        Ok(bytes)
    }
}

// The present inputs, one after another.
fn joined(alloc: Global, inputs: &[Option<Vec<u8>>]) -> Result<Vec<u8>, NoMemory>
    ensures { IfOk result (λ bytes. bytes.items ≡ joined_of (whole_lists inputs.now)) }
{
    let mut bytes = Vec::new(alloc);
    for input in inputs {
        bytes.extend_from_slice(bytes_of(input))?;
    }
    Ok(bytes)
}

// The bytes of an input, none if it is missing.
fn bytes_of(input: &Option<Vec<u8>>) -> &[u8]
    ensures { result.now ≡ unwrap_or (option_map (λ v. v.items) input.now) [] }
{
    match input {
        Some(bytes) => bytes.as_slice(),
        None => &[],
    }
}

// The first line of these bytes.
fn front_line(alloc: Global, bytes: &[u8]) -> Result<Vec<u8>, NoMemory>
    ensures { IfOk result (λ line. line.items ≡ concat (take 1 (lines bytes.now))) }
{
    let mut line = Vec::new(alloc);
    for byte in bytes {
        line.push(*byte)?;
        if *byte == b'\n' {
            return Ok(line);
        }
    }
    Ok(line)
}
