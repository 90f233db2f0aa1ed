//! What theories keep of their atoms, as their readers tell it.

ghost use Rattle.std.specs.Prelude.{IfSome, IsSome};
ghost use Rattle.mono_problem.specs.WellFormed.{IsOver};
ghost use Rattle.mono_theory.specs.Supports.{facts_in};
ghost use Rattle.mono_theory.specs.Theories.{atom_of};

use mono_distance::{DistanceTheory, HasLabels};
use mono_flow::{FlowTheory, HasFlows};
use mono_kinds::AnyTheory;
use mono_problem::{Atom, Predicate};
use mono_reach::{HasMarks, ReachTheory};
use mono_theory::Frame;

/// Whether an atom's predicate holds, by what a theory keeps.
#[derive(Clone, Copy)]
pub struct Kept {
    /// Whether it is known to hold with the surely present edges.
    under: bool,
    /// Whether it may hold with the possibly present edges, as far as it is known.
    over: bool,
    /// The value of `over` that is right at any time.
    known: bool,
}

impl Kept {
    /// Whether it is what searches find: in full after an answer of Quiet, and at any other time where it is known.
    pub fn is_right(self, surely: bool, possibly: bool, quiet: bool) -> bool {
        let under = self.under == surely || !(quiet || self.under);
        let over = self.over == possibly || !(quiet || self.over == self.known);
        under && over
    }
}

/// The atom of the number, if it is in the frame.
fn atom_in(frame: &Frame, number: u32) -> Option<Atom>
    ensures { IfSome result (λ x. IsSome (atom_of frame.now.atoms number) × IsOver frame.now.graph x.predicate) }
{
    for place in 0..frame.atom_count() {
        let atom = frame.atom_at(place);
        if atom.number == number {
            return Some(atom);
        }
    }
    None
}

/// The marks of the last node of a predicate on reachability.
fn kept_marks(theory: &ReachTheory, number: u32) -> Option<Kept> {
    let Some(atom) = atom_in(theory.frame(), number) else {
        return None;
    };
    let Predicate::Reach { from: _, to } = atom.predicate else {
        return None;
    };
    let marks = theory.marks(number, to);
    Some(Kept {
        under: marks.under,
        over: marks.over,
        known: false,
    })
}

/// The last node of a predicate on walks within a bound, and the bound.
fn last_within(predicate: Predicate) -> Option<(u32, i64)> {
    match predicate {
        Predicate::Steps { from: _, to, most } => Some((to, most)),
        Predicate::Distance { from: _, to, most } => Some((to, most)),
        _ => None,
    }
}

/// The labels of the last node of a predicate on walks within a bound.
fn kept_labels(theory: &DistanceTheory, number: u32) -> Option<Kept> {
    let frame = theory.frame();
    let Some(atom) = atom_in(frame, number) else {
        return None;
    };
    let Some((to, most)) = last_within(atom.predicate) else {
        return None;
    };
    if to >= frame.graph().nodes() {
        return None;
    }
    let labels = theory.labels(number, to);
    Some(Kept {
        under: labels.under.is_some(),
        over: most >= 0 && labels.over <= most.unsigned_abs(),
        known: false,
    })
}

/// Whether the value of the flow that is kept of the atom along the surely or the possibly present edges is at least the bound.
fn is_carried(theory: &FlowTheory, number: u32, source: u32, least: u64, possibly: bool) -> bool
    requires { IsSome (atom_of (facts_in theory.now).atoms number) }
{
    let graph = theory.frame().graph();
    let mut leaving = 0u64;
    let mut coming = least;
    for place in 0..graph.edge_count() {
        let edge = graph.edge(place);
        let flows = theory.flows(number, place);
        let amount = if possibly { flows.over } else { flows.under };
        if edge.from == source {
            leaving = leaving.saturating_add(amount);
        }
        if edge.to == source {
            coming = coming.saturating_add(amount);
        }
    }
    leaving >= coming
}

/// The values of the flows of a predicate on flows.
fn kept_flows(theory: &FlowTheory, number: u32) -> Option<Kept> {
    let Some(atom) = atom_in(theory.frame(), number) else {
        return None;
    };
    let Predicate::Flow {
        source,
        sink: _,
        least,
    } = atom.predicate
    else {
        return None;
    };
    let least = least.unsigned_abs();
    Some(Kept {
        under: is_carried(theory, number, source, least, false),
        over: is_carried(theory, number, source, least, true),
        known: true,
    })
}

/// What the theory keeps of its atom of the number. Theories of trees and of cycles tell nothing.
pub fn kept_of(theory: &AnyTheory, number: u32) -> Option<Kept> {
    match theory {
        AnyTheory::Reach(theory) => kept_marks(theory, number),
        AnyTheory::Distance(theory) => kept_labels(theory, number),
        AnyTheory::Flow(theory) => kept_flows(theory, number),
        AnyTheory::Tree(_) | AnyTheory::Acyclic(_) => None,
    }
}
