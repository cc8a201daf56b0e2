ghost use Rattle.std.specs.Prelude.{◌≡◌, ◌<◌, ◌^◌, IfOk, MatchOption};
ghost use Rattle.std.specs.List.{All, flat_map};
ghost use Rattle.graphs.specs.Orders.{IsPlannedOrder, HasNoOrder};
ghost use Rattle.planner.specs.Ends.{stage_pipes};
ghost use Rattle.planner.specs.inner.Ordered.{channel_number, channel_of, AreEndsOf};

use crate::place::{Channel, End, Place};
use graphs::{meeting_pairs, planned_order};
use machine::NoMemory;
use std::alloc::Global;

// The number of a channel, if there are `fifos` FIFOs.
fn channel_number(fifo_count: usize, channel: Channel) -> usize
    requires { channel_number fifo_count channel < 2 ^ 63 }
    ensures { result ≡ channel_number fifo_count channel }
{
    match channel {
        Channel::Fifo(fifo) => fifo,
        Channel::Bar(stage) => fifo_count + stage,
    }
}

// The stages of ends that have channels, each with the number of its channel.
fn channels(alloc: Global, fifo_count: usize, ends: &[End]) -> Result<Vec<(usize, usize)>, NoMemory>
    requires { All (λ e. e.0 < 2 ^ 63) (flat_map (channel_of fifo_count) ends.now) }
    ensures { IfOk result (λ found. found.items ≡ flat_map (channel_of fifo_count) ends.now) }
{
    let mut found = Vec::new(alloc);
    for end in ends {
        if let Place::Through(channel) = &end.place {
            found.push((channel_number(fifo_count, *channel), end.stage))?;
        }
    }
    Ok(found)
}

// The planned order of stages with these inputs and branches, or None if no order puts the writer
// of each pipe before its reader.
pub(crate) fn stage_order(
    alloc: Global,
    fifo_count: usize,
    stage_count: usize,
    ins: &[End],
    outs: &[End],
) -> Result<Option<Vec<usize>>, NoMemory>
    requires { AreEndsOf fifo_count stage_count ins.now outs.now }
    ensures { IfOk result
        (λ found. MatchOption found (HasNoOrder (stage_pipes ins.now outs.now))
        (λ order. IsPlannedOrder stage_count (stage_pipes ins.now outs.now) order.items)) }
{
    let writers = channels(alloc, fifo_count, outs)?;
    let readers = channels(alloc, fifo_count, ins)?;
    let count = fifo_count + stage_count + 1;
    let pairs = meeting_pairs(alloc, count, writers.as_slice(), readers.as_slice())?;
    planned_order(alloc, stage_count, pairs.as_slice())
}
