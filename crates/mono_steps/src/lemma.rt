//! Lemmas: clauses that a predicate over a graph makes true, and what shows it (Bayless et al. 2015).

ghost use Rattle.std.specs.Prelude.{◌≡◌, IfOk};
ghost use Rattle.mono_steps.specs.WitnessLists.{list_of};

use crate::Clause;
use mono_base::Row;
use mono_graph::{Amount, Label};
use std::alloc::{AllocError, Global};

/// What shows that a predicate holds or fails. Edges are named by their numbers, from 1, nodes from 0.
///
/// `Path`, `Flow` and `Tree` show that it holds where some edges are present, and `Cycle` that it fails there. `Order` shows
/// that it holds where some edges are absent, and the others that it fails there.
pub enum Witness {
    /// The edges of a walk, in order, for a predicate on walks.
    Path(Row<u32>),
    /// A set of nodes that the walk would have to leave, for a predicate on walks of any cost.
    Cut(Row<u32>),
    /// Labels that bound what walks cost, for a predicate with a bound. A node that isn't listed has the bound plus 1.
    Label(Row<Label>),
    /// The amounts of a flow. An edge that isn't listed carries nothing.
    Flow(Row<Amount>),
    /// A set of nodes that too little flow can leave.
    FlowCut(Row<u32>),
    /// The edges of a spanning tree within the bound.
    Tree(Row<u32>),
    /// A set of nodes that no edge joins with the rest, for a predicate on spanning trees.
    Split(Row<u32>),
    /// The edges of a spanning tree above the bound, present or not, that none is lighter than.
    Least(Row<u32>),
    /// The edges of a walk from a node to itself, in order, against the predicate that there is none.
    Cycle(Row<u32>),
    /// Each node once, so that each edge begins before it ends in the list, for the predicate that there is no cycle.
    Order(Row<u32>),
}

impl Drop for Witness {
    fn drop(self) {
        match self {
            Witness::Path(_) => {}
            Witness::Cut(_) => {}
            Witness::Label(_) => {}
            Witness::Flow(_) => {}
            Witness::FlowCut(_) => {}
            Witness::Tree(_) => {}
            Witness::Split(_) => {}
            Witness::Least(_) => {}
            Witness::Cycle(_) => {}
            Witness::Order(_) => {}
        }
    }
}

/// The list that a witness consists of, whatever it shows.
#[derive(Drop)]
pub enum WitnessList {
    /// Edges or nodes.
    Numbers(Row<u32>),
    /// The labels of nodes.
    Labels(Row<Label>),
    /// The amounts of edges.
    Amounts(Row<Amount>),
}

/// A clause that follows from what one predicate says of its graph.
#[derive(Drop)]
pub struct Lemma {
    /// The predicate's number, from 1.
    pub atom: u32,
    /// The clause that follows.
    pub clause: Clause,
    /// Why it does.
    pub witness: Witness,
}

fn copy_row<T: Copy + Drop>(alloc: Global, row: &Row<T>) -> Result<Row<T>, AllocError>
    ensures { IfOk result (λ copy. copy ≡ row.now) }
{
    Ok(Row::from_vec(Vec::from_slice(alloc, row.as_slice())?))
}

impl Witness {
    /// An equal witness.
    pub fn copy(&self, alloc: Global) -> Result<Witness, AllocError>
        ensures { IfOk result (λ copy. copy ≡ self.now) }
    {
        match self {
            Witness::Path(edges) => Ok(Witness::Path(copy_row(alloc, edges)?)),
            Witness::Cut(nodes) => Ok(Witness::Cut(copy_row(alloc, nodes)?)),
            Witness::Label(labels) => Ok(Witness::Label(copy_row(alloc, labels)?)),
            Witness::Flow(amounts) => Ok(Witness::Flow(copy_row(alloc, amounts)?)),
            Witness::FlowCut(nodes) => Ok(Witness::FlowCut(copy_row(alloc, nodes)?)),
            Witness::Tree(edges) => Ok(Witness::Tree(copy_row(alloc, edges)?)),
            Witness::Split(nodes) => Ok(Witness::Split(copy_row(alloc, nodes)?)),
            Witness::Least(edges) => Ok(Witness::Least(copy_row(alloc, edges)?)),
            Witness::Cycle(edges) => Ok(Witness::Cycle(copy_row(alloc, edges)?)),
            Witness::Order(nodes) => Ok(Witness::Order(copy_row(alloc, nodes)?)),
        }
    }

    /// Its list, so that another can be written in its room.
    pub fn into_list(self) -> WitnessList
        ensures { result ≡ list_of self }
    {
        match self {
            Witness::Path(edges) => WitnessList::Numbers(edges),
            Witness::Cut(nodes) => WitnessList::Numbers(nodes),
            Witness::Label(labels) => WitnessList::Labels(labels),
            Witness::Flow(amounts) => WitnessList::Amounts(amounts),
            Witness::FlowCut(nodes) => WitnessList::Numbers(nodes),
            Witness::Tree(edges) => WitnessList::Numbers(edges),
            Witness::Split(nodes) => WitnessList::Numbers(nodes),
            Witness::Least(edges) => WitnessList::Numbers(edges),
            Witness::Cycle(edges) => WitnessList::Numbers(edges),
            Witness::Order(nodes) => WitnessList::Numbers(nodes),
        }
    }
}

impl Lemma {
    /// An equal lemma.
    pub fn copy(&self) -> Result<Lemma, AllocError>
        ensures { IfOk result (λ copy. copy ≡ self.now) }
    {
        let clause = self.clause.copy()?;
        let witness = self.witness.copy(clause.allocator())?;
        Ok(Lemma {
            atom: self.atom,
            clause,
            witness,
        })
    }
}
