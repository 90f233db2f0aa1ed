//! Parts of a graph after a step.

ghost use Rattle.mono_graph.specs.Digraph.{IsPartOf};

use mono_graph::{Graph, Part};

/// A part of a graph after a step, and the number of the step.
#[derive(Clone, Copy)]
pub struct PartAfter<'a> {
    pub graph: &'a Graph,
    pub part: &'a Part,
    pub stamp: u32,
    ghost part_of_graph: { IsPartOf part.now graph.now },
}
