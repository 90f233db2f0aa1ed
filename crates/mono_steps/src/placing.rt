//! What a witness names, looked up in the predicate's graph.

ghost use Rattle.std.specs.Prelude.{◌≡◌, ◌<◌, nat_lt, All, IfOk, IsTrue, is_some, length};
ghost use Rattle.std.specs.List.{list_all};
ghost use Rattle.mono_graph.specs.Digraph.{place_of};
ghost use Rattle.mono_steps.specs.Witnesses.{names_edges, names_known, names_nodes, placed, placed_amounts};
ghost use Rattle.mono_steps.specs.Placing.{ArePlaced};

use crate::{Amount, Label, Witness};
use mono_graph::Graph;
use std::alloc::{AllocError, Global};

/// The edges that a witness lists, by their places. Its room is kept from one witness to the next.
#[derive(Drop)]
pub(crate) struct PlacedEdges {
    pub(crate) places: Vec<u32>,
    pub(crate) amounts: Vec<Amount>,
}

fn place_edges(graph: &Graph, numbers: &[u32], places: &mut Vec<u32>) -> Result<bool, AllocError>
    ensures known { IfOk result (λ known. known ≡ names_edges graph.now numbers.now) }
    ensures places { IfOk result (λ known. IsTrue known → places.new.items ≡ placed graph.now numbers.now) }
    ensures held { IfOk result (λ known. IsTrue known → All (λ k. k < length graph.now.edges) places.new.items) }
{
    places.clear();
    for number in numbers {
        let Some(place) = graph.place(*number) else {
            return Ok(false);
        };
        places.push(place)?;
    }
    Ok(true)
}

fn place_amounts(
    graph: &Graph,
    listed: &[Amount],
    amounts: &mut Vec<Amount>,
) -> Result<bool, AllocError>
    ensures known { IfOk result (λ known. known ≡ list_all (λ m. is_some (place_of graph.now m.edge)) listed.now) }
    ensures amounts { IfOk result (λ known. IsTrue known → amounts.new.items ≡ placed_amounts graph.now listed.now) }
    ensures held { IfOk result (λ known. IsTrue known → All (λ m. m.edge < length graph.now.edges) amounts.new.items) }
{
    amounts.clear();
    for entry in listed {
        let Some(place) = graph.place(entry.edge) else {
            return Ok(false);
        };
        amounts.push(Amount {
            edge: place,
            amount: entry.amount,
        })?;
    }
    Ok(true)
}

fn are_nodes(graph: &Graph, nodes: &[u32]) -> bool
    ensures { result ≡ names_nodes graph.now nodes.now }
{
    let count = graph.nodes();
    nodes.iter().all(|node| *node < count)
}

fn are_labelled_nodes(graph: &Graph, labels: &[Label]) -> bool
    ensures { result ≡ list_all (λ l. nat_lt l.node graph.now.nodes) labels.now }
{
    let count = graph.nodes();
    labels.iter().all(|label| label.node < count)
}

impl PlacedEdges {
    /// Room for none.
    pub(crate) fn new(alloc: Global) -> PlacedEdges {
        PlacedEdges {
            places: Vec::new(alloc),
            amounts: Vec::new(alloc),
        }
    }

    /// Whether the graph has every node and every edge that the witness names. If so these are its edges, by place.
    pub(crate) fn place(&mut self, graph: &Graph, witness: &Witness) -> Result<bool, AllocError>
        ensures known { IfOk result (λ known. known ≡ names_known graph.now witness.now) }
        ensures placed { IfOk result (λ known. IsTrue known → ArePlaced graph.now witness.now self.new) }
    {
        self.places.clear();
        self.amounts.clear();
        match witness {
            Witness::Path(edges) => place_edges(graph, edges.as_slice(), &mut self.places),
            Witness::Cut(nodes) => Ok(are_nodes(graph, nodes.as_slice())),
            Witness::Label(labels) => Ok(are_labelled_nodes(graph, labels.as_slice())),
            Witness::Flow(amounts) => place_amounts(graph, amounts.as_slice(), &mut self.amounts),
            Witness::FlowCut(nodes) => Ok(are_nodes(graph, nodes.as_slice())),
            Witness::Tree(edges) => place_edges(graph, edges.as_slice(), &mut self.places),
            Witness::Split(nodes) => Ok(are_nodes(graph, nodes.as_slice())),
            Witness::Least(edges) => place_edges(graph, edges.as_slice(), &mut self.places),
            Witness::Cycle(edges) => place_edges(graph, edges.as_slice(), &mut self.places),
            Witness::Order(nodes) => Ok(are_nodes(graph, nodes.as_slice())),
        }
    }
}
