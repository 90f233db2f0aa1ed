//! The values of an assignment, and the edges that it enables.

ghost use Rattle.std.specs.Prelude.{◌≡◌, ◌<◌, ◌≤◌, ℕ, IfOk, length};
ghost use Rattle.mono_base.specs.Literal.{value_in};
ghost use Rattle.mono_graph.specs.Digraph.{edge_at, enabled};

use crate::{Graph, Part};
use std::alloc::{AllocError, Global};

/// The value of a variable under the assignment that a model lists, variable 1 first.
pub fn value_of(model: &[bool], var: u32) -> bool
    requires low { 0 < var }
    requires high { var ≤ length model.now }
    ensures { result ≡ value_in model.now var }
{
    model[var as usize - 1]
}

/// The edges whose variable is true, where variable x has the value `model[x - 1]`.
pub fn enabled_edges(alloc: Global, graph: &Graph, model: &[bool]) -> Result<Part, AllocError>
    requires { (k : ℕ) → k < length graph.now.edges → (edge_at graph.now k).var ≤ length model.now }
    ensures { IfOk result (λ part. part ≡ enabled (value_in model.now) graph.now) }
{
    let mut part = Part::none(alloc, graph.edge_count())?;
    for place in 0..graph.edge_count() {
        part.put_if(place, value_of(model, graph.edge(place).var));
    }
    Ok(part)
}
