ghost use Rattle.std.specs.Prelude.{◌≡◌, ℕ, ◌<◌, ◌++◌, ◌↔◌, None, map, IfOk, IfSome, OnOk, slice_index_or};
ghost use Rattle.std.specs.List.{All};
ghost use Rattle.std.specs.Option.{option_to_list};
ghost use Rattle.graphs.specs.Orders.{Joins};
ghost use Rattle.graphs.specs.inner.Meetings.{Meet, readers_of};
ghost use Rattle.graphs.specs.inner.Rows.{row};

use crate::table::table_of;
use machine::NoMemory;
use std::alloc::Global;

// The readers of each channel: at most one each, or rows of them.
#[derive(Drop)]
enum Readers {
    Single(Vec<Option<usize>>),
    Rows(Vec<Vec<usize>>),
}

impl Readers {
    // Those of a channel.
    fn of(&self, channel: usize) -> &[usize]
        ensures { result.now ≡ readers_of self.now channel }
    {
        match self {
            Readers::Single(single) => match single.get(channel) {
                Some(Some(reader)) => std::slice::from_ref(reader),
                _ => &[],
            },
            Readers::Rows(rows) => match rows.get(channel) {
                Some(row) => row.as_slice(),
                None => &[],
            },
        }
    }
}

// The reader of each channel, if no channel has several.
fn single_readers(
    alloc: Global,
    channels: usize,
    readers: &[(usize, usize)],
) -> Result<Option<Vec<Option<usize>>>, NoMemory>
    requires { All (λ e. e.0 < channels) readers.now }
    ensures { IfOk result
        (λ found. IfSome found
        (λ single. (k : ℕ)
        → option_to_list (slice_index_or single.items k None) ≡ row readers.now k)) }
{
    let mut single = vec![in alloc; None; channels]?;
    for (channel, reader) in readers {
        if single[*channel].is_some() {
            return Ok(None);
        }
        single[*channel] = Some(*reader);
    }
    Ok(Some(single))
}

// The readers of each channel.
fn readers_of(
    alloc: Global,
    channels: usize,
    readers: &[(usize, usize)],
) -> Result<Readers, NoMemory>
    requires { All (λ e. e.0 < channels) readers.now }
    ensures { IfOk result (λ table. (k : ℕ) → readers_of table k ≡ row readers.now k) }
{
    match single_readers(alloc, channels, readers)? {
        Some(single) => Ok(Readers::Single(single)),
        None => Ok(Readers::Rows(table_of(alloc, channels, readers)?)),
    }
}

/// Who writes to whom, if each writer and each reader is a channel below `channels` and a thing:
/// each pair of a writer and a reader that share a channel.
pub fn meeting_pairs(
    alloc: Global,
    channels: usize,
    writers: &[(usize, usize)],
    readers: &[(usize, usize)],
) -> Result<Vec<(usize, usize)>, NoMemory>
    requires writers { All (λ e. e.0 < channels) writers.now }
    requires readers { All (λ e. e.0 < channels) readers.now }
    ensures meet { IfOk result
        (λ pairs. (s t : ℕ) → Joins pairs.items s t ↔ Meet writers.now readers.now s t) }
    ensures within { (count : ℕ) → All (λ e. e.1 < count) writers.now
        → All (λ e. e.1 < count) readers.now
        → IfOk result (λ pairs. All (λ e. (e.0 < count) × (e.1 < count)) pairs.items) }
{
    let table = readers_of(alloc, channels, readers)?;
    let mut pairs = Vec::new(alloc);
    for (channel, writer) in writers {
        append_pairs(&mut pairs, *writer, table.of(*channel))?;
    }
    Ok(pairs)
}

// Adds a pair of the writer and each reader.
fn append_pairs(
    pairs: &mut Vec<(usize, usize)>,
    writer: usize,
    readers: &[usize],
) -> Result<(), NoMemory>
    ensures { OnOk result
        (pairs.new.items ≡ pairs.old.items ++ map (λ reader. (writer, reader)) readers.now) }
{
    for reader in readers {
        pairs.push((writer, *reader))?;
    }
    Ok(())
}
