ghost use Rattle.std.specs.Prelude.{◌≡◌, ◌++◌, IfOk};
ghost use Rattle.graphs.specs.NamesByPlace.{texts};
ghost use Rattle.graphs.specs.Uses.{AreUses, IsTally, counted};

use machine::NoMemory;
use std::alloc::Global;
use std::collections::BTreeMap;

/// How often a name is made, how often it is read, and how often it is written.
#[derive(Clone, Copy, Debug, PartialEq, Eq)]
pub struct Uses {
    pub made: usize,
    pub read: usize,
    pub written: usize,
}

/// For each name in one of three lists, how often it is in each of them.
pub fn count_uses(
    alloc: Global,
    made: &[&[u8]],
    read: &[&[u8]],
    written: &[&[u8]],
) -> Result<Vec<Uses>, NoMemory>
    ensures { IfOk result
        (λ uses. AreUses (texts made.now) (texts read.now) (texts written.now) uses.items) }
{
    let makes = tally(alloc, made)?;
    let reads = tally(alloc, read)?;
    let writes = tally(alloc, written)?;
    let names = all_of(alloc, made, read, written)?;
    let mut uses = Vec::new(alloc);
    for name in names.as_slice() {
        uses.push(Uses {
            made: count_of(&makes, name),
            read: count_of(&reads, name),
            written: count_of(&writes, name),
        })?;
    }
    Ok(uses)
}

// How often each name is among these.
fn tally<'a>(alloc: Global, names: &[&'a [u8]]) -> Result<BTreeMap<&'a [u8], usize>, NoMemory>
    ensures { IfOk result (λ counts. IsTally (texts names.now) counts) }
{
    let mut counts = BTreeMap::new(alloc);
    for name in names {
        let count = count_of(&counts, name);
        counts.insert(*name, count + 1)?;
    }
    Ok(counts)
}

// How often the name was counted.
fn count_of(counts: &BTreeMap<&[u8], usize>, name: &[u8]) -> usize
    ensures { result ≡ counted counts.now name.now }
{
    counts.get(name).copied().unwrap_or(0)
}

// The names of three lists, one list after another.
fn all_of<'a>(
    alloc: Global,
    made: &[&'a [u8]],
    read: &[&'a [u8]],
    written: &[&'a [u8]],
) -> Result<Vec<&'a [u8]>, NoMemory>
    ensures { IfOk result (λ names. names.items ≡ made.now ++ read.now ++ written.now) }
{
    let mut names = Vec::from_slice(alloc, made)?;
    names.extend_from_slice(read)?;
    names.extend_from_slice(written)?;
    Ok(names)
}
