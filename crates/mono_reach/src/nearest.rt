//! The cut nearest to a walk's last node.
//!
//! Put into the part each edge that leads to a node from which no walk leads to the last one: still no walk leads there,
//! and the set that is reached then is left only by absent edges that lead where one does. What is evidence against a
//! predicate in the greater part is evidence in the part itself. Which edges are put in is free: a walk through them shows
//! itself in the search.

ghost use Rattle.std.specs.Prelude.{◌≡◌, ◌<◌, ℕ, All, IfOk, length};
ghost use Rattle.mono_graph.specs.Digraph.{IsPartOf, IsSubpart};

use mono_graph::{Graph, Part};
use std::alloc::{AllocError, Global};

/// A node is found and waits, unless it was found before.
fn find(found: &mut Vec<bool>, waiting: &mut Vec<u32>, node: u32) -> Result<(), AllocError>
    requires { node < length found.old.items }
    ensures len { length found.new.items ≡ length found.old.items }
    ensures waiting { (n : ℕ) → node < n → All (λ u. u < n) waiting.old.items → All (λ u. u < n) waiting.new.items }
{
    if found[node as usize] {
        return Ok(());
    }
    found[node as usize] = true;
    waiting.push(node)?;
    Ok(())
}

/// By node, whether a walk of present edges was found that leads from it to the last one.
fn leading_to(alloc: Global, graph: &Graph, part: &Part, last: u32) -> Result<Vec<bool>, AllocError>
    requires part { IsPartOf part.now graph.now }
    requires last { last < graph.now.nodes }
    ensures { IfOk result (λ found. length found.items ≡ graph.now.nodes) }
{
    let count = graph.nodes() as usize;
    let mut found = vec![in alloc; false; count]?;
    let mut waiting = Vec::new(alloc);
    find(&mut found, &mut waiting, last)?;
    for at in 0..count {
        if at >= waiting.len() {
            break;
        }
        for place in graph.entering(waiting[at]) {
            if !part.has(*place) {
                continue;
            }
            find(&mut found, &mut waiting, graph.edge(*place).from)?;
        }
    }
    Ok(found)
}

/// The part with each edge that leads to no marked node.
fn widened(alloc: Global, graph: &Graph, part: &Part, marked: &[bool]) -> Result<Part, AllocError>
    requires part { IsPartOf part.now graph.now }
    requires marked { length marked.now ≡ graph.now.nodes }
    ensures part { IfOk result (λ wide. IsPartOf wide graph.now) }
    ensures within { IfOk result (λ wide. IsSubpart part.now wide) }
{
    let mut wide = Part::none(alloc, graph.edge_count())?;
    for place in 0..graph.edge_count() {
        if part.has(place) || !marked[graph.edge(place).to as usize] {
            wide.put(place);
        }
    }
    Ok(wide)
}

/// A greater part, in which a search finds the cut nearest to the last node.
pub(crate) fn widened_for(
    alloc: Global,
    graph: &Graph,
    part: &Part,
    last: u32,
) -> Result<Part, AllocError>
    requires part { IsPartOf part.now graph.now }
    requires last { last < graph.now.nodes }
    ensures part { IfOk result (λ wide. IsPartOf wide graph.now) }
    ensures within { IfOk result (λ wide. IsSubpart part.now wide) }
{
    let marked = leading_to(alloc, graph, part, last)?;
    widened(alloc, graph, part, marked.as_slice())
}
