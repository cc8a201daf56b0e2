ghost use Rattle.std.specs.Prelude.{◌≡◌, ◌++◌, ◌∷◌, [], Some, codes, decimal, drop, map as list_map, slice_get, IfOk};
ghost use Rattle.std.specs.List.{flat_map};
ghost use Rattle.std.specs.Option.{option_to_list};
ghost use Rattle.machine.specs.Lines.{newline};
ghost use Rattle.commands.specs.Wc.{asked, numbers, has_total, written_line};
ghost use Rattle.byte_filters.specs.WcSteps.{closing, spaced};

use crate::counts::has_total;
use commands::{Counts, WcSpec};
use itoa::Buffer;
use machine::{NoMemory, skip};
use std::alloc::Global;

// A space and a field more.
fn add_field(line: &mut Vec<u8>, field: &[u8]) -> Result<(), NoMemory>
    ensures { IfOk result (λ _. line.new.items ≡ line.old.items ++ spaced field.now) }
{
    line.push(b' ')?;
    line.extend_from_slice(field)?;
    Ok(())
}

// A number more, if it is asked for.
fn add_number(line: &mut Vec<u8>, wanted: bool, number: u64) -> Result<(), NoMemory>
    ensures { IfOk result
        (λ _. line.new.items
        ≡ line.old.items ++ flat_map spaced (list_map decimal (asked wanted number))) }
{
    if !wanted {
        return Ok(());
    }
    let mut buffer = Buffer::new();
    add_field(line, buffer.format(number).as_bytes())
}

// The numbers that are asked for, each after a space.
fn numbers(alloc: Global, spec: &WcSpec, counts: Counts) -> Result<Vec<u8>, NoMemory>
    ensures { IfOk result
        (λ line. line.items ≡ flat_map spaced (list_map decimal (numbers spec.now counts))) }
{
    let mut line = Vec::new(alloc);
    add_number(&mut line, spec.lines, counts.lines)?;
    add_number(&mut line, spec.words, counts.words)?;
    add_number(&mut line, spec.bytes, counts.bytes)?;
    Ok(line)
}

// The name of an input, if it has one.
fn add_name(line: &mut Vec<u8>, spec: &WcSpec, at: usize) -> Result<(), NoMemory>
    ensures { IfOk result
        (λ _. line.new.items
        ≡ line.old.items ++ flat_map spaced (option_to_list (slice_get spec.now.operands at))) }
{
    let names = spec.operands.as_slice();
    if at < names.len() {
        add_field(line, names[at].bytes())
    } else {
        Ok(())
    }
}

// A line more, without its first byte.
fn add_line(text: &mut Vec<u8>, line: &[u8]) -> Result<(), NoMemory>
    ensures { IfOk result
        (λ _. text.new.items ≡ text.old.items ++ (drop 1 line.now ++ newline ∷ [])) }
{
    text.extend_from_slice(skip(line, 1))?;
    text.push(b'\n')?;
    Ok(())
}

// The line of an input.
fn add_input(
    alloc: Global,
    text: &mut Vec<u8>,
    spec: &WcSpec,
    at: usize,
    counts: Counts,
) -> Result<(), NoMemory>
    ensures { IfOk result
        (λ _. text.new.items
        ≡ text.old.items
        ++ written_line (slice_get spec.now.operands at, numbers spec.now counts)) }
{
    let mut line = numbers(alloc, spec, counts)?;
    add_name(&mut line, spec, at)?;
    add_line(text, line.as_slice())
}

// The line with the sums.
fn add_sums(alloc: Global, text: &mut Vec<u8>, spec: &WcSpec, sums: Counts) -> Result<(), NoMemory>
    ensures { IfOk result
        (λ _. text.new.items
        ≡ text.old.items ++ written_line (Some (codes "total"), numbers spec.now sums)) }
{
    let mut line = numbers(alloc, spec, sums)?;
    add_field(&mut line, b"total")?;
    add_line(text, line.as_slice())
}

// The lines that are written when an input is over, by whether it is present and whether it is the last one.
pub(crate) fn closing(
    alloc: Global,
    spec: &WcSpec,
    at: usize,
    here: bool,
    last: bool,
    counts: Counts,
    sums: Counts,
) -> Result<Vec<u8>, NoMemory>
    ensures { IfOk result
        (λ text. text.items ≡ flat_map written_line (closing spec.now at here last counts sums)) }
{
    let mut text = Vec::new(alloc);
    if here {
        add_input(alloc, &mut text, spec, at, counts)?;
    }
    if last && has_total(spec) {
        add_sums(alloc, &mut text, spec, sums)?;
    }
    Ok(text)
}
