ghost use Rattle.std.specs.Prelude.{◌≡◌, ◌==◌, IfOk, map, not, if◌then◌else◌};
ghost use Rattle.commands.specs.declared.spec.FilterSpec.TheVariants as filters;
ghost use Rattle.command_words.specs.Bytes.{is_space};
ghost use Rattle.machine.specs.Lines.{newline};
ghost use Rattle.part_laws.specs.Additions.{addition as filter_added, mark, set_where};
ghost use Rattle.shards.specs.Chains.{filters_of};
ghost use Rattle.shards.specs.inner.Places.{added as filters_added};
ghost use Rattle.tr_words.specs.Classes.{all_bytes};

use command_words::Sequence;
use commands::{BoxedTr, FilterSpec};
use machine::NoMemory;
use part_laws::Addition;
use planner::Node;
use std::alloc::Global;
use tr_words::TrSpec;

// The byte that ends a line, and the one that marks a word.
const NEWLINE: u8 = b'\n';

const MARK: u8 = b'x';

/// Adds the words of an addition, as a script has them.
pub(crate) fn add_addition(text: &mut Vec<u8>, addition: Addition) -> Result<(), NoMemory> {
    match addition {
        Addition::KeepNewlines => text.extend_from_slice(b"tr -cd '\\n'")?,
        Addition::MarkWords => text.extend_from_slice(b"tr -cs '[:space:]' '[x*]'")?,
        Addition::Squeeze(NEWLINE) => text.extend_from_slice(b"tr -s '\\n'")?,
        Addition::Squeeze(b' ') => text.extend_from_slice(b"tr -s ' '")?,
        Addition::Squeeze(byte) => {
            text.extend_from_slice(b"tr -s '\\")?;
            text.push(b'0' + byte / 64)?;
            text.push(b'0' + byte / 8 % 8)?;
            text.push(b'0' + byte % 8)?;
            text.push(b'\'')?;
        }
    }
    Ok(())
}

/// The stage of an addition, if there is one, for comparing with what is read.
pub(crate) fn added(alloc: Global, addition: Option<Addition>) -> Result<Vec<Node>, NoMemory>
    ensures { IfOk result (λ nodes. filters_of nodes.items ≡ filters_added addition) }
{
    let mut nodes = Vec::new(alloc);
    if let Some(addition) = addition {
        nodes.push(Node::Stage {
            number: 1,
            spec: FilterSpec::Tr(BoxedTr::new(alloc, filter_of(addition))?),
            inputs: Sequence::new(alloc),
            branches: Sequence::new(alloc),
        })?;
    }
    Ok(nodes)
}

// The filter of an addition.
fn filter_of(addition: Addition) -> TrSpec
    ensures { filters.Tr result ≡ filter_added addition }
{
    match addition {
        Addition::KeepNewlines => TrSpec {
            table: own_bytes(),
            deleted: Some(other_bytes()),
            squeezed: None,
        },
        Addition::MarkWords => TrSpec {
            table: marks(),
            deleted: None,
            squeezed: Some(one_byte(MARK)),
        },
        Addition::Squeeze(byte) => TrSpec {
            table: own_bytes(),
            deleted: None,
            squeezed: Some(one_byte(byte)),
        },
    }
}

// The table that leaves each byte as it is.
fn own_bytes() -> [u8; 256]
    ensures { result ≡ all_bytes }
{
    let mut table = [0; 256];
    for byte in 0..=255u8 {
        table[byte as usize] = byte;
    }
    table
}

// The table that marks each byte but those of the class `space`.
fn marks() -> [u8; 256]
    ensures { result ≡ map (λ b. if is_space b then b else mark) all_bytes }
{
    let mut table = [MARK; 256];
    table[9] = 9;
    table[10] = 10;
    table[11] = 11;
    table[12] = 12;
    table[13] = 13;
    table[32] = 32;
    table
}

// All bytes but newlines.
fn other_bytes() -> [bool; 256]
    ensures { result ≡ set_where (λ b. not (b == newline)) }
{
    let mut set = [true; 256];
    set[NEWLINE as usize] = false;
    set
}

// This byte.
fn one_byte(byte: u8) -> [bool; 256]
    ensures { result ≡ set_where (λ b. b == byte) }
{
    let mut set = [false; 256];
    set[byte as usize] = true;
    set
}
