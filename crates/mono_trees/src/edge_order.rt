//! An order of a graph's edges that is kept from one search to the next.

ghost use Rattle.std.specs.Prelude.{◌≡◌, [], IsPermutation, OnErr, OnOk};
ghost use Rattle.std.specs.List.Sorted.{IsNonDecreasingBy};
ghost use Rattle.mono_graph.specs.Digraph.{edge_at, places};
ghost use Rattle.mono_trees.specs.Order.{IsOrder};

use crate::order::all_by_weight;
use mono_graph::Graph;
use std::alloc::{AllocError, Global};
use std::marker::Model;

/// Places of edges, each below their number once. Which graph they are sorted for is said by their users.
#[derive(Drop)]
pub struct EdgeOrder {
    places: Vec<u32>,
}

impl Model for EdgeOrder {
    ghost use Rattle.std.specs.Prelude.{List, ℕ};
    ghost use Rattle.mono_trees.specs.Order.{IsOrder};

    ghost Value = { List ℕ };

    ghost view = { λ o. o.places.items };

    ghost invariant = { λ o. IsOrder o.places.items };
}

impl EdgeOrder {
    /// The order of no edges.
    pub fn empty(alloc: Global) -> Self
        ensures { result ≡ [] }
    {
        EdgeOrder {
            places: Vec::new(alloc),
        }
    }

    /// The places in order.
    pub fn as_slice(&self) -> &[u32]
        ensures items { result.now ≡ self.now }
        ensures order { IsOrder self.now }
    {
        &self.places
    }

    /// Makes it the order of the graph's edges from the lightest to the heaviest.
    pub fn sort_for(&mut self, alloc: Global, graph: &Graph) -> Result<(), AllocError>
        ensures permutation { OnOk result (IsPermutation (places graph.now) self.new) }
        ensures rising { OnOk result (IsNonDecreasingBy (λ k. (edge_at graph.now k).weight) self.new) }
        ensures err { OnErr result (self.new ≡ self.old) }
    {
        self.places = all_by_weight(alloc, graph)?;
        Ok(())
    }
}
