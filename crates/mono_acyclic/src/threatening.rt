//! Open edges that would close a cycle, and so break an atom that has to hold.
//!
//! While an atom has to hold, they are looked for through each edge that came since. Each edge that was found is tested by
//! putting it into the order.

ghost use Rattle.std.specs.Prelude.{◌≡◌, ◌<◌, false, length, pos, All, IfOk, IfSome, IsTrue};
ghost use Rattle.mono_base.specs.Partial.{is_true_in};
ghost use Rattle.mono_graph.specs.Digraph.{IsPartOf};
ghost use Rattle.mono_problem.specs.Quiet.{over as over_of};
ghost use Rattle.mono_theory.specs.Sound.{atom_at};
ghost use Rattle.mono_theory.specs.Supports.{AreCovered};
ghost use Rattle.mono_theory.specs.Threats.{IsThreat};
ghost use Rattle.mono_acyclic.specs.Cyclic.{is_cycle_predicate};
ghost use Rattle.mono_acyclic.specs.Orders.{IsOrderedTo};
ghost use Rattle.mono_acyclic.specs.Together.{HasSameEdges, IsClosing};

use crate::acyclic::cycle_evidence;
use crate::closing_edges::ClosingEdges;
use mono_cycles::OrderedPart;
use mono_graph::{Graph, Part};
use mono_theory::{Frame, Threat};
use std::alloc::{AllocError, Global};

/// The first atom whose variable is true.
pub(crate) fn first_true(frame: &Frame) -> Option<u32>
    ensures { IfSome result (λ a. (a < length frame.now.atoms) × IsTrue (is_true_in frame.now.seen (pos (atom_at frame.now.atoms a).var))) }
{
    for place in 0..frame.atom_count() {
        if frame.is_true(place) {
            return Some(place as u32);
        }
    }
    None
}

/// Whether the edge may come, isn't there, and closes a cycle, which is told then. The edges that are there stay the same.
fn closes(ordered: &mut OrderedPart, graph: &Graph, over: &Part, place: u32) -> bool
    requires size { length ordered.old.order ≡ graph.now.nodes }
    requires part { IsPartOf ordered.old.part graph.now }
    requires over { IsPartOf over.now graph.now }
    requires place { place < length graph.now.edges }
    ensures same { HasSameEdges graph.now ordered.old ordered.new }
    ensures closing { IsTrue result → IsClosing graph.now ordered.new.part over.now ordered.new.cycle place }
{
    if ordered.part().has(place) {
        return false;
    }
    if !over.has(place) {
        return false;
    }
    if !ordered.insert(graph, place) {
        return true;
    }
    ordered.remove(place);
    false
}

/// Takes the edges that were found, up to one that may come and closes a cycle.
fn take_closing(
    closers: &mut ClosingEdges,
    ordered: &mut OrderedPart,
    graph: &Graph,
    over: &Part,
) -> Option<u32>
    requires size { length ordered.old.order ≡ graph.now.nodes }
    requires part { IsPartOf ordered.old.part graph.now }
    requires over { IsPartOf over.now graph.now }
    ensures same { HasSameEdges graph.now ordered.old ordered.new }
    ensures closing { IfSome result (IsClosing graph.now ordered.new.part over.now ordered.new.cycle) }
{
    for _left in 0..closers.count() {
        let place = closers.take()?;
        // What was found is an edge of the graph: this only spares the proof of it.
        if place >= graph.edge_count() {
            return None;
        }
        if closes(ordered, graph, over, place) {
            closers.reward();
            return Some(place);
        }
    }
    None
}

/// One of the edges that were found, if one would close a cycle.
fn take_closer(frame: &Frame, ordered: &mut OrderedPart, closers: &mut ClosingEdges) -> Option<u32>
    requires { IsOrderedTo frame.now (length frame.now.seen) ordered.old }
    ensures ordered { IsOrderedTo frame.now (length frame.now.seen) ordered.new }
    ensures closing { IfSome result (IsClosing frame.now.graph ordered.new.part (over_of frame.now.graph frame.now.seen) ordered.new.cycle) }
{
    let graph = frame.graph();
    take_closing(closers, ordered, graph, frame.over())
}

/// One of the edges that were found, if one would close a cycle, and so break the atom, whose variable is true.
fn take_threat(
    alloc: Global,
    frame: &Frame,
    ordered: &mut OrderedPart,
    closers: &mut ClosingEdges,
    atom: u32,
) -> Result<Option<Threat>, AllocError>
    requires ordered { IsOrderedTo frame.now (length frame.now.seen) ordered.old }
    requires covered { AreCovered is_cycle_predicate frame.now.atoms }
    requires atom { atom < length frame.now.atoms }
    requires holds { IsTrue (is_true_in frame.now.seen (pos (atom_at frame.now.atoms atom).var)) }
    ensures ordered { IsOrderedTo frame.now (length frame.now.seen) ordered.new }
    ensures threat { IfOk result (λ found. IfSome found (IsThreat frame.now false)) }
{
    let graph = frame.graph();
    let Some(edge) = take_closer(frame, ordered, closers) else {
        return Ok(None);
    };
    let cycle = Vec::from_slice(alloc, ordered.cycle())?;
    let evidence = cycle_evidence(alloc, graph, cycle)?;
    Ok(Some(Threat {
        atom,
        edge,
        evidence,
    }))
}

/// Looks for edges that would close a cycle through these.
fn find_closers_through(
    frame: &Frame,
    ordered: &OrderedPart,
    closers: &mut ClosingEdges,
    places: &[u32],
) -> Result<(), AllocError>
    requires ordered { IsOrderedTo frame.now (length frame.now.seen) ordered.now }
    requires places { All (λ k. k < length frame.now.graph.edges) places.now }
{
    let graph = frame.graph();
    for place in places {
        closers.find(graph, ordered.part(), frame.over(), *place)?;
    }
    Ok(())
}

/// Looks for edges that would close a cycle through those of the literals from a place on.
fn find_closers(
    frame: &Frame,
    ordered: &OrderedPart,
    closers: &mut ClosingEdges,
    from: usize,
) -> Result<(), AllocError>
    requires { IsOrderedTo frame.now (length frame.now.seen) ordered.now }
{
    for at in from..frame.seen() {
        let lit = frame.literal_at(at);
        if lit.is_positive() {
            let places = frame.edges_at(at);
            find_closers_through(frame, ordered, closers, places)?;
        }
    }
    Ok(())
}

/// Looks for edges that would close a cycle through those of the literals from a place on, and takes one that would break the
/// atom, whose variable is true.
pub(crate) fn find_threat(
    alloc: Global,
    frame: &Frame,
    ordered: &mut OrderedPart,
    closers: &mut ClosingEdges,
    atom: u32,
    from: usize,
) -> Result<Option<Threat>, AllocError>
    requires ordered { IsOrderedTo frame.now (length frame.now.seen) ordered.old }
    requires covered { AreCovered is_cycle_predicate frame.now.atoms }
    requires atom { atom < length frame.now.atoms }
    requires holds { IsTrue (is_true_in frame.now.seen (pos (atom_at frame.now.atoms atom).var)) }
    ensures ordered { IsOrderedTo frame.now (length frame.now.seen) ordered.new }
    ensures threat { IfOk result (λ found. IfSome found (IsThreat frame.now false)) }
{
    find_closers(frame, ordered, closers, from)?;
    take_threat(alloc, frame, ordered, closers, atom)
}
