//! Tests of cuts and labellings that keep their room.
//!
//! A checker has two marks and a value for each node of a graph. No node is marked between two tests, and a test marks
//! and clears only what its list names. So a test costs its list and the edges at the nodes there, and not the graph.

ghost use Rattle.std.specs.Prelude.{◌≡◌, ◌<◌, All, IfOk};
ghost use Rattle.mono_graph.specs.Digraph.{IsPartOf};
ghost use Rattle.mono_graph.specs.Walks.{is_cut as is_cut_of, is_labelling as is_labelling_of};
ghost use Rattle.mono_paths.specs.Found.{HasBound};

use crate::table::LabelTable;
use crate::{cut, labelling};
use mono_graph::{Graph, Label, Limit, Part, mark, unmark};
use std::alloc::{AllocError, Global};
use std::marker::Model;

/// Tests witnesses in graphs with some number of nodes. Contracts see that number.
///
/// Its calls are those of the same names, for a caller that makes many. They take no memory.
pub struct WalkChecker {
    table: LabelTable,
    /// By node: whether its edges have been looked at.
    seen: Vec<bool>,
}

impl Drop for WalkChecker {
    fn drop(self) {
        let WalkChecker { table: _, seen: _ } = self;
    }
}

impl Model for WalkChecker {
    ghost use Rattle.std.specs.Prelude.{ℕ};
    ghost use Rattle.mono_paths.specs.Checkers.{node_count, IsClear};

    ghost Value = { ℕ };

    ghost view = { node_count };

    ghost invariant = { IsClear };
}

impl WalkChecker {
    /// A checker for graphs with this many nodes.
    pub fn new(alloc: Global, nodes: u32) -> Result<Self, AllocError>
        ensures { IfOk result (λ checker. checker ≡ nodes) }
    {
        Ok(WalkChecker {
            table: LabelTable::new(alloc, nodes)?,
            seen: vec![in alloc; false; nodes as usize]?,
        })
    }

    /// What [`is_cut`] answers.
    pub fn is_cut(&mut self, graph: &Graph, part: &Part, from: u32, to: u32, nodes: &[u32]) -> bool
        requires checker { self.old ≡ graph.now.nodes }
        requires part { IsPartOf part.now graph.now }
        requires from { from < graph.now.nodes }
        requires to { to < graph.now.nodes }
        requires nodes { All (λ u. u < graph.now.nodes) nodes.now }
        ensures passes { result ≡ is_cut_of graph.now part.now from to nodes.now }
        ensures checker { self.new ≡ self.old }
    {
        let inside = &mut self.table.listed;
        mark(inside, nodes);
        let passes = cut::holds(graph, part, inside, &mut self.seen, from, to, nodes);
        unmark(inside, nodes);
        unmark(&mut self.seen, nodes);
        passes
    }

    /// What [`is_labelling`] answers.
    pub fn is_labelling(
        &mut self,
        graph: &Graph,
        part: &Part,
        from: u32,
        to: u32,
        limit: Limit,
        labels: &[Label],
    ) -> bool
        requires checker { self.old ≡ graph.now.nodes }
        requires part { IsPartOf part.now graph.now }
        requires from { from < graph.now.nodes }
        requires to { to < graph.now.nodes }
        requires limit { HasBound limit }
        requires labels { All (λ l. l.node < graph.now.nodes) labels.now }
        ensures passes { result ≡ is_labelling_of graph.now part.now from to limit labels.now }
        ensures checker { self.new ≡ self.old }
    {
        let passes = labelling::holds(graph, part, &mut self.table, from, to, limit, labels);
        self.table.clear(labels);
        passes
    }
}

/// Whether the set has `from`, lacks `to`, and no present edge leaves it. The list is read as a set.
///
/// It looks at the edges that leave the listed nodes alone.
pub fn is_cut(
    alloc: Global,
    graph: &Graph,
    part: &Part,
    from: u32,
    to: u32,
    nodes: &[u32],
) -> Result<bool, AllocError>
    requires part { IsPartOf part.now graph.now }
    requires from { from < graph.now.nodes }
    requires to { to < graph.now.nodes }
    requires nodes { All (λ u. u < graph.now.nodes) nodes.now }
    ensures { IfOk result (λ passes. passes ≡ is_cut_of graph.now part.now from to nodes.now) }
{
    let mut checker = WalkChecker::new(alloc, graph.nodes())?;
    Ok(checker.is_cut(graph, part, from, to, nodes))
}

/// Whether no node is listed twice, `from` has label 0, `to` has a label above the bound, and along no present edge the
/// label rises by more than the edge counts: 1 under `Steps`, its weight under `Weight`. A node that isn't listed has one
/// more than the bound as its label.
///
/// The limit isn't `Free`, and its bound is from -1 to 2^53. It looks at the edges at the listed nodes alone.
pub fn is_labelling(
    alloc: Global,
    graph: &Graph,
    part: &Part,
    from: u32,
    to: u32,
    limit: Limit,
    labels: &[Label],
) -> Result<bool, AllocError>
    requires part { IsPartOf part.now graph.now }
    requires from { from < graph.now.nodes }
    requires to { to < graph.now.nodes }
    requires limit { HasBound limit }
    requires labels { All (λ l. l.node < graph.now.nodes) labels.now }
    ensures { IfOk result (λ passes. passes ≡ is_labelling_of graph.now part.now from to limit labels.now) }
{
    let mut checker = WalkChecker::new(alloc, graph.nodes())?;
    Ok(checker.is_labelling(graph, part, from, to, limit, labels))
}
