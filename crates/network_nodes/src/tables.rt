ghost use Rattle.std.specs.Prelude.{◌≡◌, ◌<◌, ◌≤◌, ℕ, [], ◌∷◌, ◌++◌, length, IfOk, OnOk, map, slice_set, slice_index_or, None};
ghost use Rattle.std.specs.List.{AllByRecursion};
ghost use Rattle.graphs.specs.Graph.{AreDistinct};
ghost use Rattle.network_nodes.specs.inner.MadeNodes.{wires_at, AreOpened, AreThere, TakesEnds, LeavesOthers, ArePlaces, AreWiresOf, AreLinks};
ghost use Rattle.bounded_pipe.specs.Ends.{IsCapacity, IsLimit};

use crate::actor::Link;
use bounded_pipe::{PipeIn, PipeOut, pipe};
use machine::NoMemory;
use std::alloc::Global;

/// The writing ends and the reading ends of `count` new pipes. Each pipe holds `capacity` items, of `bytes` bytes together.
pub fn open_pipes(
    alloc: Global,
    count: usize,
    capacity: usize,
    bytes: usize,
) -> Result<(Vec<Option<PipeOut>>, Vec<Option<PipeIn>>), NoMemory>
    requires capacity { IsCapacity capacity }
    requires bytes { IsLimit bytes }
    ensures { IfOk result (λ ends. AreOpened count capacity bytes ends.0.items ends.1.items) }
{
    let mut writers = Vec::new(alloc);
    let mut readers = Vec::new(alloc);
    for _ in 0..count {
        let (writer, reader) = pipe(alloc, capacity, bytes)?;
        writers.push(Some(writer))?;
        readers.push(Some(reader))?;
    }
    Ok((writers, readers))
}

// Takes the ends that wait at these places.
pub(crate) fn take_ends<T: Drop>(
    alloc: Global,
    slots: &mut Vec<Option<T>>,
    pipes: &[usize],
) -> Result<Vec<T>, NoMemory>
    requires there { AreThere slots.old.items pipes.now }
    requires once { AreDistinct pipes.now }
    ensures ends { IfOk result (λ ends. TakesEnds slots.old.items pipes.now ends.items) }
    ensures others { LeavesOthers pipes.now slots.old.items slots.new.items }
{
    let mut ends = Vec::new(alloc);
    for pipe in pipes {
        if let Some(end) = take_end(slots, *pipe) {
            ends.push(end)?;
        }
    }
    Ok(ends)
}

// Takes the end that waits at this place.
fn take_end<T: Drop>(slots: &mut Vec<Option<T>>, pipe: usize) -> Option<T>
    requires { pipe < length slots.old.items }
    ensures end { result ≡ slice_index_or slots.old.items pipe None }
    ensures rest { slots.new.items ≡ slice_set slots.old.items pipe None }
{
    slots[pipe].take()
}

// Notes at each of these pipes its place among them.
pub(crate) fn note_places(places: &mut Vec<usize>, pipes: &[usize])
    requires { AllByRecursion (λ p. p < length places.old.items) pipes.now }
    ensures places { ArePlaces pipes.now places.new.items }
    ensures others { LeavesOthers pipes.now places.old.items places.new.items }
{
    for place in 0..pipes.len() {
        places[pipes[place]] = place;
    }
}

/// By node, the pipes that it writes or reads; `pipes` has the writer and the reader of each pipe.
pub fn wires_of(
    alloc: Global,
    count: usize,
    pipes: &[(usize, usize)],
) -> Result<Vec<Vec<usize>>, NoMemory>
    requires { AllByRecursion (λ e. (e.0 < count) × (e.1 < count)) pipes.now }
    ensures { IfOk result (λ wires. AreWiresOf count pipes.now (map (λ v. v.items) wires.items)) }
{
    let mut wires = no_wires(alloc, count)?;
    for pipe in 0..pipes.len() {
        let (writer, reader) = pipes[pipe];
        add_wire(&mut wires, writer, pipe)?;
        add_wire(&mut wires, reader, pipe)?;
    }
    Ok(wires)
}

// Adds a pipe to those of a node.
fn add_wire(wires: &mut Vec<Vec<usize>>, node: usize, pipe: usize) -> Result<(), NoMemory>
    requires { node < length wires.old.items }
    ensures { let old = map (λ v. v.items) wires.old.items in
        OnOk result (map (λ v. v.items) wires.new.items
        ≡ slice_set old node (wires_at old node ++ pipe ∷ [])) }
{
    wires[node].push(pipe)?;
    Ok(())
}

// Empty lists, `count` of them.
fn no_wires(alloc: Global, count: usize) -> Result<Vec<Vec<usize>>, NoMemory>
    ensures count { IfOk result (λ wires. length wires.items ≡ count) }
    ensures empty { IfOk result
        (λ wires. (k : ℕ) → wires_at (map (λ v. v.items) wires.items) k ≡ []) }
{
    let mut wires = Vec::with_capacity(alloc, count)?;
    for _ in 0..count {
        wires.push_reserved(Vec::new(alloc));
    }
    Ok(wires)
}

// The pipes of a node.
pub(crate) fn wire_at(wires: &[Vec<usize>], node: usize) -> &[usize]
    requires { node < length wires.now }
    ensures { result.now ≡ wires_at (map (λ v. v.items) wires.now) node }
{
    wires[node].as_slice()
}

// The two ends of each pipe.
pub(crate) fn links_of(
    alloc: Global,
    pipes: &[(usize, usize)],
    branches: &[usize],
    inputs: &[usize],
) -> Result<Vec<Link>, NoMemory>
    requires branches { length branches.now ≡ length pipes.now }
    requires inputs { length inputs.now ≡ length pipes.now }
    ensures { IfOk result (λ links. AreLinks pipes.now branches.now inputs.now links.items) }
{
    let mut links = Vec::new(alloc);
    for pipe in 0..pipes.len() {
        let (writer, reader) = pipes[pipe];
        links.push(Link {
            writer,
            branch: branches[pipe],
            reader,
            input: inputs[pipe],
        })?;
    }
    Ok(links)
}
