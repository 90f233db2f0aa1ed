//! Evidence from edges that are named one by one, for every kind of predicate that a walk serves.

ghost use Rattle.std.specs.Prelude.{◌≡◌, ◌<◌, ℕ, length, All, IfOk, IfSome};
ghost use Rattle.mono_theory.specs.Walked.{numbers_of, walk_evidence as walk_evidence_of};

use crate::Evidence;
use mono_base::Row;
use mono_graph::Graph;
use mono_steps::Witness;
use std::alloc::{AllocError, Global};

/// The numbers of the edges at these places.
pub fn edge_numbers(alloc: Global, graph: &Graph, places: &[u32]) -> Result<Vec<u32>, AllocError>
    requires { All (λ k. k < length graph.now.edges) places.now }
    ensures { IfOk result (λ numbers. numbers.items ≡ numbers_of graph.now places.now) }
{
    let mut numbers = Vec::new(alloc);
    for place in places {
        let edge = graph.edge(*place);
        numbers.push(edge.number)?;
    }
    Ok(numbers)
}

/// The evidence that a walk along the edges at these places is. It rests on each of them.
pub fn walk_evidence(alloc: Global, graph: &Graph, places: Vec<u32>) -> Result<Evidence, AllocError>
    requires { All (λ k. k < length graph.now.edges) places.items }
    ensures { IfOk result (λ e. e ≡ walk_evidence_of graph.now places.items) }
{
    let numbers = edge_numbers(alloc, graph, places.as_slice())?;
    Ok(Evidence {
        witness: Witness::Path(Row::from_vec(numbers)),
        edges: Row::from_vec(places),
    })
}

/// The edges of a walk that is kept, by their places: none where nothing is kept. `None` where what is kept is no walk.
pub fn kept_walk(kept: Option<&Evidence>) -> Option<&[u32]>
    ensures { (count : ℕ) → IfSome kept.entry (λ e. All (λ k. k < count) e.now.edges) → IfSome result (λ ks. All (λ k. k < count) ks.now) }
{
    match kept {
        None => Some(&[]),
        Some(evidence) => match evidence.witness {
            Witness::Path(_) => Some(evidence.edges.as_slice()),
            _ => None,
        },
    }
}
