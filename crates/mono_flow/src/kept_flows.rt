//! Flows that earlier searches came to, with which later ones begin.
//!
//! Nothing is claimed of them: a search tests what it begins with. Of a source and a sink two flows are kept: the last that
//! carried as much as was asked for, and the last that carried less. The possibly present edges mostly carry enough, and
//! lose an edge here and there: then the former is nearly whole, and is mended near the gap. The surely present edges
//! mostly carry less, and most edges of the former are none of theirs.

ghost use Rattle.std.specs.Prelude.{◌<◌, ◌≤◌, All, IfOk, IfSome, IsTrue, length};
ghost use Rattle.mono_graph.specs.Digraph.{IsPartOf};

use mono_graph::{Amount, Graph, Part};
use std::alloc::{AllocError, Global};

/// Flows from one node to another.
#[derive(Drop)]
struct KeptFlow {
    source: u32,
    sink: u32,
    /// The last that carried as much as was asked for.
    whole: Vec<Amount>,
    /// The last that carried less.
    less: Vec<Amount>,
}

/// The flows that are kept.
#[derive(Drop)]
pub(crate) struct KeptFlows {
    flows: Vec<KeptFlow>,
}

/// How many of the edges are present.
fn present_count(part: &Part, amounts: &[Amount]) -> usize
    requires { All (λ a. a.edge < length part.now) amounts.now }
    ensures { result ≤ length amounts.now }
{
    let mut count = 0;
    for amount in amounts {
        if part.has(amount.edge) {
            count += 1;
        }
    }
    count
}

/// Whether all edges are of the graph.
pub(crate) fn are_known(graph: &Graph, amounts: &[Amount]) -> bool
    ensures { IsTrue result → All (λ a. a.edge < length graph.now.edges) amounts.now }
{
    for amount in amounts {
        if amount.edge >= graph.edge_count() {
            return false;
        }
    }
    true
}

/// Whether all edges are of the graph, and at least three quarters of them present.
fn is_nearly_whole(graph: &Graph, part: &Part, amounts: &[Amount]) -> bool
    requires { IsPartOf part.now graph.now }
    ensures { IsTrue result → All (λ a. a.edge < length graph.now.edges) amounts.now }
{
    if amounts.is_empty() || !are_known(graph, amounts) {
        return false;
    }
    let present = present_count(part, amounts);
    amounts.len() - present <= amounts.len() / 4
}

impl KeptFlows {
    /// No flow is kept.
    pub(crate) fn new(alloc: Global) -> Self {
        KeptFlows {
            flows: Vec::new(alloc),
        }
    }

    /// The place of the flow between the nodes.
    fn place_of(&self, source: u32, sink: u32) -> Option<usize>
        ensures { IfSome result (λ place. place < length self.now.flows.items) }
    {
        for place in 0..self.flows.len() {
            let flow = &self.flows[place];
            if flow.source == source && flow.sink == sink {
                return Some(place);
            }
        }
        None
    }

    /// The place of the flows between the nodes, which is made where there is none.
    fn place_for(&mut self, alloc: Global, source: u32, sink: u32) -> Result<usize, AllocError>
        ensures { IfOk result (λ place. place < length self.new.flows.items) }
    {
        if let Some(place) = self.place_of(source, sink) {
            return Ok(place);
        }
        let place = self.flows.len();
        self.flows.push(KeptFlow {
            source,
            sink,
            whole: Vec::new(alloc),
            less: Vec::new(alloc),
        })?;
        Ok(place)
    }

    /// A flow between the nodes with which a search of the part may well begin, if one is kept.
    pub(crate) fn choose(
        &self,
        alloc: Global,
        graph: &Graph,
        part: &Part,
        source: u32,
        sink: u32,
    ) -> Result<Vec<Amount>, AllocError>
        requires { IsPartOf part.now graph.now }
        ensures { IfOk result (λ flow. All (λ a. a.edge < length graph.now.edges) flow.items) }
    {
        let Some(place) = self.place_of(source, sink) else {
            return Ok(Vec::new(alloc));
        };
        let flow = &self.flows[place];
        if is_nearly_whole(graph, part, flow.whole.as_slice()) {
            return Vec::from_slice(alloc, flow.whole.as_slice());
        }
        if are_known(graph, flow.less.as_slice()) && present_count(part, flow.less.as_slice()) > 0 {
            return Vec::from_slice(alloc, flow.less.as_slice());
        }
        Ok(Vec::new(alloc))
    }

    /// Whether a flow that carries as much as is asked for may well be there: none was found yet, or the last one is nearly whole.
    pub(crate) fn may_be_whole(&self, graph: &Graph, part: &Part, source: u32, sink: u32) -> bool
        requires { IsPartOf part.now graph.now }
    {
        match self.place_of(source, sink) {
            None => true,
            Some(place) => {
                let whole = self.flows[place].whole.as_slice();
                whole.is_empty() || is_nearly_whole(graph, part, whole)
            }
        }
    }

    /// Whether the last flow that carried less than was asked for is there still, and carries something: then the sink can be reached.
    pub(crate) fn still_carries(&self, graph: &Graph, part: &Part, source: u32, sink: u32) -> bool
        requires { IsPartOf part.now graph.now }
    {
        match self.place_of(source, sink) {
            None => false,
            Some(place) => {
                let less = self.flows[place].less.as_slice();
                !less.is_empty()
                    && are_known(graph, less)
                    && present_count(part, less) == less.len()
            }
        }
    }

    /// Keeps a flow in place of the last of its sort between these nodes.
    pub(crate) fn put(
        &mut self,
        alloc: Global,
        source: u32,
        sink: u32,
        amounts: Vec<Amount>,
        is_whole: bool,
    ) -> Result<(), AllocError> {
        let place = self.place_for(alloc, source, sink)?;
        if is_whole {
            self.flows[place].whole = amounts;
        } else {
            self.flows[place].less = amounts;
        }
        Ok(())
    }
}
