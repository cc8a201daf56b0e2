ghost use Rattle.std.specs.Prelude.{◌≡◌, ◌<◌, ◌^◌, [], IfOk, IfErr, IfSome, IsTrue, length, ◌↔◌, take, drop};
ghost use Rattle.shards.specs.Shards.{AreShards, HasNoShards};
ghost use Rattle.shards.specs.inner.Places.{after, at, before, each_in, joined_in};
ghost use Rattle.shards.specs.inner.Written.{IsUnwritten, Writes};
ghost use Rattle.run_types.specs.declared.names.OutName.TheVariants as outputs;

use crate::additions::added;
use crate::chain::{Chain, chain_of};
use crate::division::{Division, divide, needs_whole};
use crate::fault::ShardsFault;
use crate::reading::check_written;
use crate::same::Half;
use crate::writing::{Excerpt, Picked};
use pipeline_text::Script;
use planner::{Node, Plan};
use run_types::OutName;
use std::alloc::Global;

/// Two scripts that together do what one does, over an input in parts. Both read the standard input.
#[derive(Drop)]
pub struct Shards {
    /// Runs on each part, and writes the standard output.
    pub map: Vec<u8>,
    /// Runs on the outputs for the parts, one after another in the order of the parts, and writes to the output of the script.
    pub combine: Vec<u8>,
}

/// The shards of a script, which has this plan, if it has any; or why it has none (POSIX.1-2017 XCU 2.9.2, and the pages of the utilities).
///
/// The input is cut at ends of lines: each part is empty or ends with a newline, or nothing but empty parts follow it.
pub fn shards_of(alloc: Global, script: &Script, plan: &Plan) -> Result<Shards, ShardsFault>
    ensures same { IfOk result (λ s. AreShards plan.now s.map.items s.combine.items) }
    ensures cause { IfErr result (HasNoShards script.now plan.now) }
{
    let Some(chain) = chain_of(plan) else {
        return Err(ShardsFault::NotOnePipeline);
    };
    if !is_one_pipeline(script) {
        return Err(ShardsFault::NotOnePipeline);
    }
    if let Some(cause) = needs_whole(chain.stages) {
        return Err(ShardsFault::NeedsWholeInput(cause));
    }
    let division = divide(chain.stages, true);
    let map = map_of(alloc, script, chain, division)?;
    let combine = combine_of(alloc, script, chain, division)?;
    Ok(Shards { map, combine })
}

// Whether a script is one pipeline, without FIFOs.
fn is_one_pipeline(script: &Script) -> bool
    ensures { IsTrue result ↔ ((script.now.fifos ≡ []) × (length script.now.pipelines ≡ 1)) }
{
    script.fifos.is_empty() && script.pipelines.as_slice().len() == 1
}

// The script that runs on each part.
fn map_of(
    alloc: Global,
    script: &Script,
    chain: Chain<'_>,
    division: Division,
) -> Result<Vec<u8>, ShardsFault>
    requires { IfSome division.late (λ place. place < 2 ^ 63) }
    ensures written { IfOk result
        (λ text. Writes text.items (each_in division chain.entry.stages.now) outputs.Standard) }
    ensures cause { IfErr result IsUnwritten }
{
    let added = added(alloc, division.last)?;
    let half = each_half(chain.stages, division, added.as_slice());
    let picked = Picked {
        first: None,
        addition: None,
        from: 0,
        end: division.front,
        without: division.late,
        last: division.last,
    };
    let text = excerpt(script, chain).written(alloc, picked, &OutName::Standard)?;
    check_written(alloc, text.as_slice(), half, &OutName::Standard)?;
    Ok(text)
}

// The script that runs on the joined outputs for the parts.
fn combine_of(
    alloc: Global,
    script: &Script,
    chain: Chain<'_>,
    division: Division,
) -> Result<Vec<u8>, ShardsFault>
    ensures written { IfOk result
        (λ text. Writes text.items (joined_in division chain.entry.stages.now) chain.entry.to.now) }
    ensures cause { IfErr result IsUnwritten }
{
    let added = added(alloc, division.first)?;
    let half = joined_half(chain.stages, division, added.as_slice());
    let picked = Picked {
        first: division.late,
        addition: division.first,
        from: division.before,
        end: chain.stages.len(),
        without: None,
        last: None,
    };
    let text = excerpt(script, chain).written(alloc, picked, chain.to)?;
    check_written(alloc, text.as_slice(), half, chain.to)?;
    Ok(text)
}

// What runs on each part: the first stages but the late one, and what is added.
fn each_half<'a>(stages: &'a [Node], division: Division, added: &'a [Node]) -> Half<'a>
    requires { IfSome division.late (λ place. place < 2 ^ 63) }
    ensures first { result.first.now ≡ before division.late (take division.front stages.now) }
    ensures second { result.second.now ≡ after division.late (take division.front stages.now) }
    ensures third { result.third.now ≡ added.now }
{
    let front = first_stages(stages, division.front);
    match division.late {
        Some(place) => Half {
            first: first_stages(front, place),
            second: last_stages(front, place + 1),
            third: added,
        },
        None => Half {
            first: front,
            second: &[],
            third: added,
        },
    }
}

// What runs on the joined outputs for the parts: the late stage, what is added, and the other stages.
fn joined_half<'a>(stages: &'a [Node], division: Division, added: &'a [Node]) -> Half<'a>
    ensures first { result.first.now ≡ at division.late stages.now }
    ensures second { result.second.now ≡ added.now }
    ensures third { result.third.now ≡ drop division.before stages.now }
{
    let third = last_stages(stages, division.before);
    match division.late {
        Some(place) => Half {
            first: first_stages(last_stages(stages, place), 1),
            second: added,
            third,
        },
        None => Half {
            first: &[],
            second: added,
            third,
        },
    }
}

// The first stages, this many.
fn first_stages(stages: &[Node], count: usize) -> &[Node]
    ensures { result.now ≡ take count stages.now }
{
    if count < stages.len() {
        &stages[..count]
    } else {
        stages
    }
}

// The stages after this many.
fn last_stages(stages: &[Node], before: usize) -> &[Node]
    ensures { result.now ≡ drop before stages.now }
{
    if before < stages.len() {
        &stages[before..]
    } else {
        &[]
    }
}

// The commands of a script that is this chain.
fn excerpt<'a>(script: &'a Script, chain: Chain<'a>) -> Excerpt<'a> {
    Excerpt {
        script,
        stages: chain.stages,
        from: chain.from,
    }
}
