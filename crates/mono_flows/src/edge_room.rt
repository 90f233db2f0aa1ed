//! Room by edge that is kept from one search to the next.
//!
//! Between two searches it is clear. A search clears only what it touched, so it needs no time for edges far away.

ghost use Rattle.std.specs.Prelude.{◌≡◌, ℕ, OnOk, length};
ghost use Rattle.mono_flows.specs.Residual.{amount_of};
ghost use Rattle.mono_flows.specs.Rooms.{HasRoomFor, IsClearRoom};

use mono_graph::Graph;
use std::alloc::{AllocError, Global};
use std::mem;

/// What each edge carries, and whether it is listed, by place.
#[derive(Drop)]
pub(crate) struct EdgeRoom {
    pub amounts: Vec<u64>,
    pub listed: Vec<bool>,
}

impl EdgeRoom {
    /// Room for no edge.
    pub fn new(alloc: Global) -> Self
        ensures { IsClearRoom result }
    {
        EdgeRoom {
            amounts: Vec::new(alloc),
            listed: Vec::new(alloc),
        }
    }

    /// Makes it room for the edges of the graph, where it isn't.
    pub fn fit(&mut self, alloc: Global, graph: &Graph) -> Result<(), AllocError>
        requires { IsClearRoom self.old }
        ensures clear { IsClearRoom self.new }
        ensures room { OnOk result (HasRoomFor (length graph.now.edges) self.new) }
    {
        let edges = graph.edge_count() as usize;
        if self.amounts.len() != edges {
            self.amounts = vec![in alloc; 0; edges]?;
        }
        if self.listed.len() != edges {
            self.listed = vec![in alloc; false; edges]?;
        }
        Ok(())
    }
    /// Takes the table of amounts, in which nothing is carried.
    pub fn take_amounts(&mut self, alloc: Global) -> Vec<u64>
        requires { IsClearRoom self.old }
        ensures len { length result.items ≡ length self.old.amounts.items }
        ensures empty { (k : ℕ) → amount_of result.items k ≡ 0 }
        ensures clear { IsClearRoom self.new }
    {
        mem::replace(&mut self.amounts, Vec::new(alloc))
    }
}
