//! Labels counted from a walk's last node.
//!
//! Put into the part each absent edge that shortens no way to the last node, as far as the ways were counted: still each
//! walk costs more than the bound, and the labels that are found then rise along fewer absent edges. What is evidence
//! against a predicate in the greater part is evidence in the part itself. Which edges are put in is free: a walk within
//! the bound shows itself in the search.

ghost use Rattle.std.specs.Prelude.{◌≡◌, ◌<◌, ℕ, All, IfOk, length};
ghost use Rattle.mono_graph.specs.Digraph.{IsPartOf, IsSubpart};
ghost use Rattle.mono_paths.specs.Found.{HasBound};

use crate::label_table::others_of;
use mono_graph::{Graph, Limit, Part};
use std::alloc::{AllocError, Global};

/// How often a node is taken up, on average, before the rest is left out.
const ROUNDS: usize = 8;

/// A node has this cost and waits, unless it had one that is as low.
fn lower(
    costs: &mut Vec<u64>,
    waiting: &mut Vec<u32>,
    node: u32,
    cost: u64,
) -> Result<(), AllocError>
    requires { node < length costs.old.items }
    ensures len { length costs.new.items ≡ length costs.old.items }
    ensures waiting { (n : ℕ) → node < n → All (λ u. u < n) waiting.old.items → All (λ u. u < n) waiting.new.items }
{
    if costs[node as usize] <= cost {
        return Ok(());
    }
    costs[node as usize] = cost;
    waiting.push(node)?;
    Ok(())
}

/// By node, what some walk of present edges to the last one costs, or one more than the bound where none was found that
/// costs less.
fn costs_to(
    alloc: Global,
    graph: &Graph,
    part: &Part,
    last: u32,
    limit: Limit,
) -> Result<Vec<u64>, AllocError>
    requires part { IsPartOf part.now graph.now }
    requires last { last < graph.now.nodes }
    requires limit { HasBound limit }
    ensures { IfOk result (λ costs. length costs.items ≡ graph.now.nodes) }
{
    let count = graph.nodes();
    let others = others_of(limit);
    let mut costs = vec![in alloc; others; count as usize]?;
    let mut waiting = Vec::new(alloc);
    lower(&mut costs, &mut waiting, last, 0)?;
    for at in 0..count as usize * ROUNDS {
        if at >= waiting.len() {
            break;
        }
        let node = waiting[at];
        let cost = costs[node as usize];
        for place in graph.entering(node) {
            if !part.has(*place) {
                continue;
            }
            let edge = graph.edge(*place);
            let through = cost.saturating_add(limit.cost_of(edge));
            lower(&mut costs, &mut waiting, edge.from, through)?;
        }
    }
    Ok(costs)
}

/// The part with each edge that isn't a shorter way.
fn widened(
    alloc: Global,
    graph: &Graph,
    part: &Part,
    limit: Limit,
    costs: &[u64],
) -> Result<Part, AllocError>
    requires part { IsPartOf part.now graph.now }
    requires len { length costs.now ≡ graph.now.nodes }
    ensures part { IfOk result (λ wide. IsPartOf wide graph.now) }
    ensures within { IfOk result (λ wide. IsSubpart part.now wide) }
{
    let mut wide = Part::none(alloc, graph.edge_count())?;
    for place in 0..graph.edge_count() {
        let edge = graph.edge(place);
        let through = costs[edge.to as usize].saturating_add(limit.cost_of(edge));
        if part.has(place) || costs[edge.from as usize] <= through {
            wide.put(place);
        }
    }
    Ok(wide)
}

/// A greater part, in which a search finds labels that are counted from the last node.
pub(crate) fn widened_for(
    alloc: Global,
    graph: &Graph,
    part: &Part,
    last: u32,
    limit: Limit,
) -> Result<Part, AllocError>
    requires part { IsPartOf part.now graph.now }
    requires last { last < graph.now.nodes }
    requires limit { HasBound limit }
    ensures part { IfOk result (λ wide. IsPartOf wide graph.now) }
    ensures within { IfOk result (λ wide. IsSubpart part.now wide) }
{
    let costs = costs_to(alloc, graph, part, last, limit)?;
    widened(alloc, graph, part, limit, costs.as_slice())
}
