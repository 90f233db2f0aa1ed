//! The surely present edges in an order, which are kept while literals come and go.
//!
//! While literals come, the surely present edges only grow. As long as they have no cycle, a list of all nodes is kept in
//! which each of them begins before it ends: an edge that agrees with it costs nothing, another one only the nodes between its
//! ends (Marchetti-Spaccamela, Nanni and Rohnert 1996). The first literal whose edges close a cycle is kept with the cycle,
//! and the edges of that literal and of the later ones aren't put in. Each atom asks for the same, so a cycle that closes makes
//! all of them due. Going back takes out the edges that came since, and leaves the order as it is: it is one of fewer edges
//! too.
//!
//! While an atom has to hold, the open edges that would close a cycle are looked for through each edge that came.

ghost use Rattle.std.specs.Prelude.{◌≡◌, ◌+◌, ◌<◌, ◌≤◌, true, length, int_lt, pos, slice_index_or, IfOk, OnErr};
ghost use Rattle.mono_acyclic.specs.Orders.{IsKeptTo, IsOrderedTo, ordered_count};

use crate::acyclic::{Acyclic, cycle_evidence};
use crate::closing_edges::ClosingEdges;
use crate::ordering::{insert_all, remove_all};
use crate::threatening::{find_threat, first_true};
use mono_base::{Lit, Worklist};
use mono_cycles::OrderedPart;
use mono_graph::Part;
use mono_theory::{Evidence, Frame, Rows, Threat};
use std::alloc::{AllocError, Global};
use std::marker::Model;

/// The literal that closed a cycle, and the cycle.
#[derive(Drop)]
pub struct Closing {
    /// The place of the literal in the list of those seen.
    pub at: usize,
    /// The places of the cycle's edges.
    pub cycle: Vec<u32>,
}

/// The surely present edges in an order, or a cycle that they have.
pub struct OrderedEdges {
    alloc: Global,
    /// The edges of the literals before the one that closed a cycle, or of all.
    ordered: OrderedPart,
    closing: Option<Closing>,
    /// Edges that would close a cycle, as far as they were looked for.
    closers: ClosingEdges,
    /// Through the edges of how many first literals they were looked for.
    searched: usize,
}

impl Drop for OrderedEdges {
    fn drop(self) {
        let OrderedEdges {
            alloc: _,
            ordered: _,
            closing: _,
            closers: _,
            searched: _,
        } = self;
    }
}

impl Model for OrderedEdges {
    ghost use Rattle.mono_acyclic.specs.Orders.{OrderedView};

    ghost Value = { OrderedView };

    ghost view = { λ s. record { ordered = s.ordered; closing = s.closing } };
}

/// The edges of the literal at a place come, which is positive. Where they close a cycle, they go again.
fn advance(
    alloc: Global,
    frame: &Frame,
    ordered: &mut OrderedPart,
    lit: Lit,
    at: usize,
) -> Result<Option<Closing>, AllocError>
    requires ordered { IsOrderedTo frame.now at ordered.old }
    requires more { at < length frame.now.seen }
    requires next { slice_index_or frame.now.seen at lit ≡ lit }
    requires positive { int_lt (pos 0) lit ≡ true }
    ensures kept { IfOk result (λ closing. IsKeptTo frame.now (at + 1) ordered.new closing) }
    ensures stays { OnErr result (IsOrderedTo frame.now at ordered.new) }
{
    frame.known();
    let graph = frame.graph();
    let places = frame.edges_at(at);
    if insert_all(ordered, graph, places) {
        return Ok(None);
    }
    let cycle = Vec::from_slice(alloc, ordered.cycle());
    remove_all(ordered, places);
    Ok(Some(Closing { at, cycle: cycle? }))
}

/// The edges of the literal at a place go.
fn undo_last(frame: &Frame, ordered: &mut OrderedPart, at: usize)
    requires ordered { IsOrderedTo frame.now (at + 1) ordered.old }
    requires at { at < length frame.now.seen }
    ensures { IsOrderedTo frame.now at ordered.new }
{
    frame.known();
    let lit = frame.literal_at(at);
    // The variable of a literal isn't 0.
    let _ = lit.var();
    if lit.is_positive() {
        remove_all(ordered, frame.edges_at(at));
    }
}

/// The edges of the literals from the first `kept` on go.
fn undo_edges_to(frame: &Frame, ordered: &mut OrderedPart, looked: usize, kept: usize)
    requires ordered { IsOrderedTo frame.now looked ordered.old }
    requires looked { looked ≤ length frame.now.seen }
    requires kept { kept ≤ looked }
    ensures { IsOrderedTo frame.now kept ordered.new }
{
    let mut at = looked;
    'back: while at > kept {
        at -= 1;
        undo_last(frame, ordered, at);
    }
}

impl OrderedEdges {
    /// Of how many first literals the edges are there, of those that were looked at.
    fn ordered_count(&self, looked: usize) -> usize
        ensures { result ≡ ordered_count looked self.now.closing }
    {
        match &self.closing {
            Some(closing) => closing.at,
            None => looked,
        }
    }
}

impl Rows<Acyclic> for OrderedEdges {
    ghost use Rattle.std.specs.Prelude.{false};
    ghost use Rattle.mono_theory.specs.RowSides.{AlwaysStand};
    ghost use Rattle.mono_acyclic.specs.Orders.{AreEdgesOf, shows_cycle};

    const IS_POSSIBLE: bool = false;

    ghost IS_POSSIBLE = { false };

    ghost are_right = { AreEdgesOf };

    ghost shown = { shows_cycle };

    ghost stand = { AlwaysStand };

    fn are_few(alloc: Global, frame: &Frame) -> Result<bool, AllocError> {
        frame.known();
        let _ = alloc;
        Ok(true)
    }

    fn of_frame(alloc: Global, frame: &Frame) -> Result<Self, AllocError> {
        let graph = frame.graph();
        let ordered = OrderedPart::new(alloc, graph.nodes(), graph.edge_count())?;
        let closers = ClosingEdges::new(alloc, graph.nodes())?;
        Ok(OrderedEdges {
            alloc,
            ordered,
            closing: None,
            closers,
            searched: 0,
        })
    }

    fn look_at(
        &mut self,
        frame: &Frame,
        part: &Part,
        looked: usize,
        lit: Lit,
        due: &mut Worklist,
    ) -> Result<(), AllocError> {
        frame.known();
        let _ = lit.var();
        if self.closing.is_some() {
            return Ok(());
        }
        if !lit.is_positive() {
            return Ok(());
        }
        let ordered = &mut self.ordered;
        let Some(closing) = advance(self.alloc, frame, ordered, lit, looked)? else {
            return Ok(());
        };
        self.closing = Some(closing);
        due.fill();
        Ok(())
    }

    fn settle(
        &mut self,
        alloc: Global,
        frame: &Frame,
        part: &Part,
        looked: usize,
        due: &mut Worklist,
    ) -> Result<(), AllocError> {
        frame.known();
        let _ = (alloc, looked);
        Ok(())
    }

    fn undo_to(&mut self, frame: &Frame, looked: usize, kept: usize) {
        self.searched = self.searched.min(kept);
        self.closers.forget();
        let ordered = self.ordered_count(looked);
        if ordered < kept {
            return;
        }
        self.closing = None;
        undo_edges_to(frame, &mut self.ordered, ordered, kept);
    }

    fn threat(
        &mut self,
        alloc: Global,
        frame: &Frame,
        looked: usize,
    ) -> Result<Option<Threat>, AllocError> {
        frame.known();
        let _ = looked;
        if self.closing.is_some() {
            return Ok(None);
        }
        let Some(atom) = first_true(frame) else {
            return Ok(None);
        };
        let from = self.searched;
        self.searched = looked;
        find_threat(
            alloc,
            frame,
            &mut self.ordered,
            &mut self.closers,
            atom,
            from,
        )
    }

    fn shows(&self, frame: &Frame, looked: usize, place: usize) -> bool {
        frame.known();
        let _ = (looked, place);
        self.closing.is_some()
    }

    fn evidence(
        &self,
        alloc: Global,
        frame: &Frame,
        looked: usize,
        place: usize,
        kept: usize,
    ) -> Result<Option<Evidence>, AllocError> {
        let _ = (looked, place);
        let Some(closing) = &self.closing else {
            return Ok(None);
        };
        if closing.at >= kept {
            return Ok(None);
        }
        let cycle = Vec::from_slice(alloc, closing.cycle.as_slice())?;
        let evidence = cycle_evidence(alloc, frame.graph(), cycle)?;
        Ok(Some(evidence))
    }
}
