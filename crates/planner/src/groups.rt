ghost use Rattle.std.specs.Prelude.{◌≡◌, ◌≤◌, map, IfOk, slice_get};
ghost use Rattle.std.specs.List.{count_by};
ghost use Rattle.planner.specs.inner.Groups.{is_stage, is_of_group, group_of, groups_of};

use crate::plan::{Node, Plan};
use machine::NoMemory;
use std::alloc::Global;

// Whether a node is a stage.
fn is_stage(node: &Node) -> bool
    ensures { result ≡ is_stage node.now }
{
    match node {
        Node::Stage { .. } => true,
        _ => false,
    }
}

// How many stages there are.
fn stage_count(nodes: &[Node]) -> usize
    ensures { result ≡ count_by is_stage nodes.now }
{
    let mut count = 0;
    for node in nodes {
        if is_stage(node) {
            count += 1;
        }
    }
    count
}

// Whether the node of this number is a stage of the group `group`, of `count` groups.
fn is_of_group(nodes: &[Node], count: usize, group: usize, number: usize) -> bool
    requires { 1 ≤ count }
    ensures { result ≡ is_of_group count group (slice_get nodes.now number) }
{
    match nodes.get(number) {
        Some(Node::Stage { number, .. }) => number.saturating_sub(1) % count == group,
        _ => false,
    }
}

// The nodes of a group, of `count` groups.
fn group_of(
    alloc: Global,
    nodes: &[Node],
    count: usize,
    group: usize,
) -> Result<Vec<usize>, NoMemory>
    requires { 1 ≤ count }
    ensures { IfOk result (λ numbers. numbers.items ≡ group_of nodes.now count group) }
{
    Ok(
        (0..nodes.len())
            .filter(|number| is_of_group(nodes, count, group, *number))
            .collect(alloc)?,
    )
}

impl Plan {
    /// The stages in groups, by the numbers of their nodes: one group for each of `workers`
    /// workers, if there are stages enough.
    pub fn groups(&self, alloc: Global, workers: usize) -> Result<Vec<Vec<usize>>, NoMemory>
        requires { 1 ≤ workers }
        ensures { IfOk result
            (λ groups. map (λ v. v.items) groups.items ≡ groups_of self.now workers) }
    {
        let nodes = self.order();
        let count = workers.min(stage_count(nodes));
        let mut groups = Vec::new(alloc);
        for group in 0..count {
            groups.push(group_of(alloc, nodes, count, group)?)?;
        }
        Ok(groups)
    }
}
