//! Flows that pass each node once.
//!
//! Where each edge carries 1 at most, clauses often say that a node is passed once, as the cells of a board are. A flow that does so meets them,
//! and decisions that follow it run into no conflict; any other runs into one after the other. So such a flow is looked for first: paths of which
//! no two share a node, by augmenting paths over nodes that are split in two. It is a guess, with which the search for a flow begins, and which
//! that tests as all with which it begins. So nothing is claimed here but that the edges are of the graph, and that too is looked at in the end.

ghost use Rattle.std.specs.Prelude.{◌<◌, All, IfOk, IfSome, length};
ghost use Rattle.mono_graph.specs.Digraph.{IsPartOf};

use crate::by_node::{
    NONE, carries_one, edge_at, edge_of, forget_edges, is_marked, is_present, leaves, set_edge,
    set_mark,
};
use crate::kept_flows::are_known;
use mono_graph::{Amount, Edge, Graph, Part};
use std::alloc::{AllocError, Global};

/// How often one after the other such flows are looked for in vain.
const FIRST_CREDIT: u32 = 32;

/// A side of a node that a search reached: where paths enter it, or where they leave it.
#[derive(Clone, Copy)]
struct NodeSide {
    node: u32,
    leaves: bool,
    /// The edge by which it was reached, in its direction to where paths enter, against it to where they leave, or none.
    edge: u32,
    /// The place of the side before.
    before: usize,
}

/// Paths that share no node, and room for finding them.
pub(crate) struct NodePaths {
    /// By node: the edge by which a path enters it.
    entering: Vec<u32>,
    /// By node: the edge by which a path leaves it.
    leaving: Vec<u32>,
    /// The nodes that may have such edges.
    touched: Vec<u32>,
    /// By node: whether the search reached where paths enter, and where they leave.
    entered: Vec<bool>,
    left: Vec<bool>,
    /// The sides reached, in order.
    sides: Vec<NodeSide>,
    /// How often such flows may still be looked for in vain.
    credit: u32,
    /// Whether the graph's edges carry 1 at most, once that was looked at.
    light: Option<bool>,
}

impl Drop for NodePaths {
    fn drop(self) {
        let NodePaths {
            entering: _,
            leaving: _,
            touched: _,
            entered: _,
            left: _,
            sides: _,
            credit: _,
            light: _,
        } = self;
    }
}

/// The side at a place, if there is one.
fn side_at(sides: &[NodeSide], place: usize) -> Option<NodeSide> {
    match sides.get(place) {
        Some(side) => Some(*side),
        None => None,
    }
}

/// Takes the marks of the sides back.
fn unmark_sides(entered: &mut Vec<bool>, left: &mut Vec<bool>, sides: &[NodeSide]) {
    for side in sides {
        set_mark(entered, side.node, false);
        set_mark(left, side.node, false);
    }
}

/// The edges of the way to the last side that it takes against their direction leave the paths.
fn drop_edges(graph: &Graph, entering: &mut Vec<u32>, leaving: &mut Vec<u32>, sides: &[NodeSide]) {
    let mut at = sides.len().saturating_sub(1);
    for _step in 0..sides.len() {
        let Some(side) = side_at(sides, at) else {
            return;
        };
        if side.leaves {
            if let Some(edge) = edge_of(graph, side.edge) {
                set_edge(leaving, edge.from, NONE);
                set_edge(entering, edge.to, NONE);
            }
        }
        if at == 0 {
            return;
        }
        at = side.before;
    }
}

/// The edge, which carries 1.
fn push_edge(amounts: &mut Vec<Amount>, edge: u32) -> Result<(), AllocError> {
    amounts.push(Amount { edge, amount: 1 })?;
    Ok(())
}

/// The edges by which paths enter these nodes, and those by which they reach the sink. The nodes have them no more, so a node that is listed
/// twice counts once.
fn take_edges(
    alloc: Global,
    graph: &Graph,
    sink: u32,
    entering: &mut Vec<u32>,
    leaving: &mut Vec<u32>,
    nodes: &[u32],
) -> Result<Vec<Amount>, AllocError> {
    let mut amounts = Vec::new(alloc);
    for node in nodes {
        let first = edge_at(entering, *node);
        let last = edge_at(leaving, *node);
        set_edge(entering, *node, NONE);
        set_edge(leaving, *node, NONE);
        if first != NONE {
            push_edge(&mut amounts, first)?;
        }
        if let Some(edge) = edge_of(graph, last) {
            if edge.to == sink {
                push_edge(&mut amounts, last)?;
            }
        }
    }
    Ok(amounts)
}

impl NodePaths {
    /// Room for graphs with this many nodes.
    pub(crate) fn new(alloc: Global, nodes: u32) -> Result<Self, AllocError> {
        Ok(NodePaths {
            entering: vec![in alloc; NONE; nodes as usize]?,
            leaving: vec![in alloc; NONE; nodes as usize]?,
            touched: Vec::new(alloc),
            entered: vec![in alloc; false; nodes as usize]?,
            left: vec![in alloc; false; nodes as usize]?,
            sides: Vec::new(alloc),
            credit: FIRST_CREDIT,
            light: None,
        })
    }

    /// Whether flows that pass each node once are looked for: the edges carry 1 at most, and such flows were found.
    pub(crate) fn are_apt(&mut self, graph: &Graph) -> bool {
        if self.credit == 0 {
            return false;
        }
        if let Some(light) = self.light {
            return light;
        }
        let light = are_light(graph);
        self.light = Some(light);
        light
    }

    /// Takes the marks of the last search back.
    fn forget_sides(&mut self) {
        unmark_sides(&mut self.entered, &mut self.left, &self.sides);
        self.sides.clear();
    }

    /// Takes all paths back.
    fn forget_paths(&mut self) {
        forget_edges(&mut self.entering, &mut self.leaving, &self.touched);
        self.touched.clear();
    }

    /// The edge is one of the paths.
    fn use_edge(
        &mut self,
        graph: &Graph,
        place: u32,
        source: u32,
        sink: u32,
    ) -> Result<(), AllocError> {
        let Some(edge) = edge_of(graph, place) else {
            return Ok(());
        };
        if edge.from != source {
            self.touched.push(edge.from)?;
            set_edge(&mut self.leaving, edge.from, place);
        }
        if edge.to != sink {
            self.touched.push(edge.to)?;
            set_edge(&mut self.entering, edge.to, place);
        }
        Ok(())
    }

    /// The edges are of the paths, each node having the last that enters it and the last that leaves it.
    fn use_edges(
        &mut self,
        graph: &Graph,
        places: &[u32],
        source: u32,
        sink: u32,
    ) -> Result<(), AllocError> {
        for place in places {
            self.use_edge(graph, *place, source, sink)?;
        }
        Ok(())
    }

    /// So are the present ones of a flow that carry 1.
    fn use_flow(
        &mut self,
        graph: &Graph,
        part: &Part,
        source: u32,
        sink: u32,
        flow: &[Amount],
    ) -> Result<(), AllocError>
        requires { IsPartOf part.now graph.now }
    {
        for amount in flow {
            if carries_one(graph, part, *amount) {
                self.use_edge(graph, amount.edge, source, sink)?;
            }
        }
        Ok(())
    }

    /// The side of a node is reached, if it wasn't.
    fn reach(
        &mut self,
        node: u32,
        leaves: bool,
        edge: u32,
        before: usize,
    ) -> Result<(), AllocError> {
        if leaves && is_marked(&self.left, node) {
            return Ok(());
        }
        if !leaves && is_marked(&self.entered, node) {
            return Ok(());
        }
        self.sides.push(NodeSide {
            node,
            leaves,
            edge,
            before,
        })?;
        if leaves {
            set_mark(&mut self.left, node, true);
            return Ok(());
        }
        set_mark(&mut self.entered, node, true);
        Ok(())
    }

    /// The edges of the path that begins with this edge, along those by which paths leave: none where it ends before the sink, or passes a node
    /// that was passed before.
    fn walk_from(
        &mut self,
        alloc: Global,
        graph: &Graph,
        place: u32,
        sink: u32,
    ) -> Result<Vec<u32>, AllocError> {
        let mut edges = Vec::new(alloc);
        let mut next = place;
        for _step in 0..graph.nodes() {
            edges.push(next)?;
            let Some(edge) = edge_of(graph, next) else {
                return Ok(Vec::new(alloc));
            };
            if edge.to == sink {
                return Ok(edges);
            }
            if is_marked(&self.entered, edge.to) {
                return Ok(Vec::new(alloc));
            }
            self.reach(edge.to, false, NONE, 0)?;
            next = edge_at(&self.leaving, edge.to);
        }
        Ok(Vec::new(alloc))
    }

    /// Adds the edges of the paths that are left of a flow. The answer is how many paths.
    fn push_whole(
        &mut self,
        alloc: Global,
        graph: &Graph,
        part: &Part,
        source: u32,
        sink: u32,
        flow: &[Amount],
        whole: &mut Vec<u32>,
    ) -> Result<i64, AllocError>
        requires { IsPartOf part.now graph.now }
    {
        let mut count: i64 = 0;
        for amount in flow {
            if carries_one(graph, part, *amount) && leaves(graph, amount.edge, source) {
                let edges = self.walk_from(alloc, graph, amount.edge, sink)?;
                if !edges.is_empty() {
                    count = count.saturating_add(1);
                    whole.extend_from_slice(edges.as_slice())?;
                }
            }
        }
        Ok(count)
    }

    /// Begins with the paths that are left of a flow. The answer is how many.
    fn begin(
        &mut self,
        alloc: Global,
        graph: &Graph,
        part: &Part,
        source: u32,
        sink: u32,
        flow: &[Amount],
    ) -> Result<i64, AllocError>
        requires { IsPartOf part.now graph.now }
    {
        self.forget_sides();
        self.forget_paths();
        self.use_flow(graph, part, source, sink, flow)?;
        let mut whole = Vec::new(alloc);
        let count = self.push_whole(alloc, graph, part, source, sink, flow, &mut whole)?;
        self.forget_sides();
        self.forget_paths();
        self.use_edges(graph, whole.as_slice(), source, sink)?;
        Ok(count)
    }

    /// Whether a path may go on by this edge from where paths leave its beginning.
    fn may_take(&self, edge: Edge, place: u32, source: u32, sink: u32) -> bool {
        edge.to != source
            && (edge.from != source || edge.to != sink)
            && edge_at(&self.leaving, edge.from) != place
            && edge_at(&self.entering, edge.to) != place
    }

    /// Goes on from where paths leave a node. Whether the sink was reached.
    fn leave(
        &mut self,
        graph: &Graph,
        part: &Part,
        source: u32,
        sink: u32,
        node: u32,
        at: usize,
    ) -> Result<bool, AllocError>
        requires { IsPartOf part.now graph.now }
    {
        if node >= graph.nodes() {
            return Ok(false);
        }
        for place in graph.leaving(node) {
            let Some(edge) = edge_of(graph, *place) else {
                continue;
            };
            if is_present(graph, part, *place) && self.may_take(edge, *place, source, sink) {
                self.reach(edge.to, false, *place, at)?;
                if edge.to == sink {
                    return Ok(true);
                }
            }
        }
        if node != source && edge_at(&self.entering, node) != NONE {
            self.reach(node, false, NONE, at)?;
        }
        Ok(false)
    }

    /// Goes on from where paths enter a node: through it, where none does, or else back along the one that does.
    fn enter(
        &mut self,
        graph: &Graph,
        source: u32,
        node: u32,
        at: usize,
    ) -> Result<(), AllocError> {
        let own = edge_at(&self.entering, node);
        let Some(edge) = edge_of(graph, own) else {
            return self.reach(node, true, NONE, at);
        };
        if edge.from == source {
            return Ok(());
        }
        self.reach(edge.from, true, own, at)
    }

    /// Searches for a way to one path more. Whether there is one: then it ends at the last side.
    fn find_path(
        &mut self,
        graph: &Graph,
        part: &Part,
        source: u32,
        sink: u32,
    ) -> Result<bool, AllocError>
        requires { IsPartOf part.now graph.now }
    {
        self.forget_sides();
        self.reach(source, true, NONE, 0)?;
        for head in 0..(graph.nodes() as usize).saturating_mul(2) {
            let Some(side) = side_at(&self.sides, head) else {
                return Ok(false);
            };
            if !side.leaves {
                self.enter(graph, source, side.node, head)?;
                continue;
            }
            if self.leave(graph, part, source, sink, side.node, head)? {
                return Ok(true);
            }
        }
        Ok(false)
    }

    /// The edges of the way to the last side that it takes in their direction join the paths.
    fn add_edges(&mut self, graph: &Graph, source: u32, sink: u32) -> Result<(), AllocError> {
        let mut at = self.sides.len().saturating_sub(1);
        for _step in 0..self.sides.len() {
            let Some(side) = side_at(&self.sides, at) else {
                return Ok(());
            };
            if !side.leaves {
                self.use_edge(graph, side.edge, source, sink)?;
            }
            if at == 0 {
                return Ok(());
            }
            at = side.before;
        }
        Ok(())
    }

    /// Adds paths until there are so many. Whether there are.
    fn complete(
        &mut self,
        graph: &Graph,
        part: &Part,
        source: u32,
        sink: u32,
        count: i64,
        least: i64,
    ) -> Result<bool, AllocError>
        requires { IsPartOf part.now graph.now }
    {
        let mut count = count;
        for _path in 0..graph.nodes() {
            if count >= least {
                break;
            }
            if !self.find_path(graph, part, source, sink)? {
                return Ok(false);
            }
            drop_edges(graph, &mut self.entering, &mut self.leaving, &self.sides);
            self.add_edges(graph, source, sink)?;
            count = count.saturating_add(1);
        }
        Ok(count == least)
    }

    /// A flow of the value `least` that passes each node once, found from what is left of the kept one: none where there is none.
    pub(crate) fn find(
        &mut self,
        alloc: Global,
        graph: &Graph,
        part: &Part,
        source: u32,
        sink: u32,
        least: i64,
        kept: &[Amount],
    ) -> Result<Option<Vec<Amount>>, AllocError>
        requires { IsPartOf part.now graph.now }
        ensures { IfOk result (λ found. IfSome found (λ flow. All (λ a. a.edge < length graph.now.edges) flow.items)) }
    {
        let count = self.begin(alloc, graph, part, source, sink, kept)?;
        if !self.complete(graph, part, source, sink, count, least)? {
            self.credit = self.credit.saturating_sub(1);
            return Ok(None);
        }
        self.credit = FIRST_CREDIT;
        let flow = take_edges(
            alloc,
            graph,
            sink,
            &mut self.entering,
            &mut self.leaving,
            &self.touched,
        )?;
        if !are_known(graph, flow.as_slice()) {
            return Ok(None);
        }
        Ok(Some(flow))
    }
}

/// Whether each edge carries 1 at most.
fn are_light(graph: &Graph) -> bool {
    for place in 0..graph.edge_count() {
        if graph.edge(place).weight > 1 {
            return false;
        }
    }
    true
}
