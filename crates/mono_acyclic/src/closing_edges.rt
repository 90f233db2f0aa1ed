//! Edges that would close a cycle with those of a part: through an edge of the part they lead from a node to which a walk
//! goes on from there back to one from which a walk leads there.
//!
//! What a search finds is a guess, of which no contract speaks: who takes an edge tests it.

ghost use Rattle.std.specs.Prelude.{◌<◌, All, length};
ghost use Rattle.mono_graph.specs.Digraph.{IsPartOf};

use crate::node_set::NodeSet;
use mono_graph::{Graph, Part};
use std::alloc::{AllocError, Global};

/// A search goes on from so many nodes at most each way. The edges that it then doesn't find are found where they close a
/// cycle.
const MOST_NODES: usize = 100;

/// So many searches are made however little they find.
const FIRST_CREDIT: u32 = 2000;

/// An edge that is taken pays for so many more.
const CREDIT_OF_EDGE: u32 = 50;

/// Edges that were found and weren't taken, and room to search for more.
pub(crate) struct ClosingEdges {
    /// The nodes from which walks lead to the beginning of an edge.
    before: NodeSet,
    /// The nodes to which walks lead from its end.
    after: NodeSet,
    found: Vec<u32>,
    /// How many searches are still to be made.
    credit: u32,
}

impl Drop for ClosingEdges {
    fn drop(self) {
        let ClosingEdges {
            before: _,
            after: _,
            found: _,
            credit: _,
        } = self;
    }
}

/// The beginnings of those of these edges that are present join.
fn add_beginnings(
    nodes: &mut NodeSet,
    graph: &Graph,
    part: &Part,
    places: &[u32],
) -> Result<(), AllocError>
    requires part { IsPartOf part.now graph.now }
    requires known { All (λ k. k < length graph.now.edges) places.now }
{
    for place in places {
        if part.has(*place) {
            nodes.insert(graph.edge(*place).from)?;
        }
    }
    Ok(())
}

/// The nodes from which walks lead to one of the set join.
fn spread_back(nodes: &mut NodeSet, graph: &Graph, part: &Part) -> Result<(), AllocError>
    requires { IsPartOf part.now graph.now }
{
    for index in 0..MOST_NODES {
        let Some(node) = nodes.get(index) else {
            return Ok(());
        };
        if node < graph.nodes() {
            add_beginnings(nodes, graph, part, graph.entering(node))?;
        }
    }
    Ok(())
}

/// The ends of those of these edges that are present join. Of the others those that may come are found where they lead to a
/// node of the other set.
fn add_ends(
    nodes: &mut NodeSet,
    before: &NodeSet,
    graph: &Graph,
    part: &Part,
    over: &Part,
    places: &[u32],
    found: &mut Vec<u32>,
) -> Result<(), AllocError>
    requires part { IsPartOf part.now graph.now }
    requires over { IsPartOf over.now graph.now }
    requires known { All (λ k. k < length graph.now.edges) places.now }
{
    for place in places {
        let to = graph.edge(*place).to;
        if part.has(*place) {
            nodes.insert(to)?;
        } else if over.has(*place) && before.has(to) {
            found.push(*place)?;
        }
    }
    Ok(())
}

/// The nodes to which walks lead from one of the set join, and the edges that may come from there to a node of the other set
/// are found.
fn spread_on(
    nodes: &mut NodeSet,
    before: &NodeSet,
    graph: &Graph,
    part: &Part,
    over: &Part,
    found: &mut Vec<u32>,
) -> Result<(), AllocError>
    requires part { IsPartOf part.now graph.now }
    requires over { IsPartOf over.now graph.now }
{
    for index in 0..MOST_NODES {
        let Some(node) = nodes.get(index) else {
            return Ok(());
        };
        if node < graph.nodes() {
            add_ends(nodes, before, graph, part, over, graph.leaving(node), found)?;
        }
    }
    Ok(())
}

impl ClosingEdges {
    /// Nothing found, in graphs with so many nodes.
    pub(crate) fn new(alloc: Global, nodes: u32) -> Result<ClosingEdges, AllocError> {
        Ok(ClosingEdges {
            before: NodeSet::new(alloc, nodes)?,
            after: NodeSet::new(alloc, nodes)?,
            found: Vec::new(alloc),
            credit: FIRST_CREDIT,
        })
    }

    /// Finds edges that may come and would close a cycle with those of the part through the one at the place, as long as such
    /// searches pay.
    pub(crate) fn find(
        &mut self,
        graph: &Graph,
        part: &Part,
        over: &Part,
        place: u32,
    ) -> Result<(), AllocError>
        requires part { IsPartOf part.now graph.now }
        requires over { IsPartOf over.now graph.now }
        requires place { place < length graph.now.edges }
    {
        if self.credit == 0 {
            return Ok(());
        }
        self.credit -= 1;
        let edge = graph.edge(place);
        self.before.clear();
        self.before.insert(edge.from)?;
        spread_back(&mut self.before, graph, part)?;
        self.after.clear();
        self.after.insert(edge.to)?;
        spread_on(
            &mut self.after,
            &self.before,
            graph,
            part,
            over,
            &mut self.found,
        )
    }

    /// How many edges were found and not taken.
    pub(crate) fn count(&self) -> usize {
        self.found.len()
    }

    /// The edge that was found last is taken.
    pub(crate) fn take(&mut self) -> Option<u32> {
        self.found.pop()
    }

    /// An edge that was taken closes a cycle.
    pub(crate) fn reward(&mut self) {
        self.credit = self.credit.saturating_add(CREDIT_OF_EDGE);
    }

    /// What was found is forgotten.
    pub(crate) fn forget(&mut self) {
        self.found.clear();
    }
}
