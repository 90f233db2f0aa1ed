//! What predicates ask for that ask for a walk.
//!
//! Reachability and distances ask for a walk between two nodes, of any cost or within a limit. Atoms whose walks begin at one
//! node and are measured alike share what is searched from there.

ghost use Rattle.std.specs.Prelude.{◌≡◌, ◌<◌, ◌≤◌, ℕ, All, IfOk, IsTrue, length};
ghost use Rattle.mono_graph.specs.Walks.{IsBounded};
ghost use Rattle.mono_dynamic.specs.LeastRows.{cost_slot, IsCostSource};
ghost use Rattle.mono_dynamic.specs.Sources.{AreApart};
ghost use Rattle.mono_theory.specs.Supports.{AreCovered};
ghost use Rattle.mono_theory.specs.Asked.{predicate_of, AreOfAtoms, HasTarget, HaveRows, IsSourceFor};

use crate::{Frame, Kind};
use mono_dynamic::{CostSource, Sources, WalkTarget};
use mono_graph::Limit;
use mono_problem::Predicate;
use std::alloc::{AllocError, Global};

/// The walk for which a predicate asks.
#[derive(Clone, Copy, Debug, PartialEq, Eq)]
pub struct Asked {
    /// The node at which it begins.
    pub from: u32,
    /// The node to which it leads.
    pub to: u32,
    /// What it may cost.
    pub limit: Limit,
}

/// A kind of predicates each of which asks for a walk.
pub trait AsksWalk: Kind {
    ghost use Rattle.std.specs.Prelude.{◌≡◌, IsTrue};
    ghost use Rattle.mono_theory.specs.Asked.{predicate_of};

    /// The walk for which the predicate asks.
    fn asked(predicate: Predicate) -> Asked
        requires { IsTrue (Self.covers predicate) }
        ensures { predicate ≡ predicate_of result.from result.to result.limit };
}

/// From where a walk is searched, and up to what it may cost.
fn source_for(asked: Asked) -> CostSource
    requires { IsBounded asked.limit }
    ensures source { IsSourceFor (predicate_of asked.from asked.to asked.limit) result }
    ensures known { (n : ℕ) → asked.from < n → IsCostSource n result }
{
    CostSource {
        node: asked.from,
        limit: asked.limit,
        cap: asked.limit.cap(),
    }
}

/// From where the walks of the atoms of a frame are searched, by place of the atom.
fn asked_by<K: AsksWalk>(alloc: Global, frame: &Frame) -> Result<Vec<CostSource>, AllocError>
    requires { AreCovered K.covers frame.now.atoms }
    ensures asked { IfOk result (λ v. AreOfAtoms IsSourceFor frame.now.atoms (length frame.now.atoms) v.items) }
    ensures known { IfOk result (λ v. All (IsCostSource frame.now.graph.nodes) v.items) }
{
    let mut sources = Vec::new(alloc);
    for place in 0..frame.atom_count() {
        let atom = frame.atom_at(place);
        sources.push(source_for(K::asked(atom.predicate)))?;
    }
    Ok(sources)
}

/// Where the walks of the atoms of a frame are to lead, by place of the atom.
pub(crate) fn targets_of<K: AsksWalk>(
    alloc: Global,
    frame: &Frame,
) -> Result<Vec<WalkTarget>, AllocError>
    requires { AreCovered K.covers frame.now.atoms }
    ensures targets { IfOk result (λ v. AreOfAtoms HasTarget frame.now.atoms (length frame.now.atoms) v.items) }
    ensures known { IfOk result (λ v. All (λ t. t.node < frame.now.graph.nodes) v.items) }
{
    let mut targets = Vec::new(alloc);
    for place in 0..frame.atom_count() {
        let atom = frame.atom_at(place);
        let asked = K::asked(atom.predicate);
        targets.push(WalkTarget {
            node: asked.to,
            limit: asked.limit,
        })?;
    }
    Ok(targets)
}

/// From where the walks of the atoms of a frame are searched, each node and measure once, and for each atom which of them is its
/// own. Each goes up to beyond the greatest bound of its atoms.
pub(crate) fn sources_of<K: AsksWalk>(alloc: Global, frame: &Frame) -> Result<Sources, AllocError>
    requires { AreCovered K.covers frame.now.atoms }
    ensures known { IfOk result (λ s. All (IsCostSource frame.now.graph.nodes) s.rows.items) }
    ensures few { IfOk result (λ s. length s.rows.items ≤ length frame.now.atoms) }
    ensures apart { IfOk result (λ s. AreApart cost_slot s.rows.items) }
    ensures rows { IfOk result (λ s. HaveRows frame.now.atoms (length frame.now.atoms) s.row_of.items s.rows.items) }
{
    frame.known();
    let asked = asked_by::<K>(alloc, frame)?;
    let sources = Sources::of(alloc, frame.graph().nodes(), asked.as_slice())?;
    Ok(sources)
}
