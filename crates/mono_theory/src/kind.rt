//! What a kind of predicate supplies. All else is the same for every kind.

ghost use Rattle.std.specs.Prelude.{◌≡◌, IfOk, IfSome, IsTrue};
ghost use Rattle.mono_steps.specs.Witnesses.{rests_on_present};
ghost use Rattle.mono_theory.specs.Evidences.{IsEvidence};
ghost use Rattle.mono_theory.specs.Sound.{IsSound};

use crate::Evidence;
use mono_graph::{Graph, Part};
use mono_problem::Predicate;
use std::alloc::{AllocError, Global};

/// A kind of predicate: what shows that one holds in a part of a graph, or that it fails there.
///
/// A value of the kind is room for searches in graphs with one number of nodes, which is kept from one search to the next.
pub trait Kind: Drop {
    ghost use Rattle.std.specs.Prelude.{Bool, ℕ};
    ghost use Rattle.mono_graph.specs.Digraph.{IsPartOf};
    ghost use Rattle.mono_problem.specs.declared.atom.Predicate.{Predicate};
    ghost use Rattle.mono_problem.specs.WellFormed.{IsOver};

    /// Whether a predicate is of this kind.
    ghost covers: { Predicate → Bool };
    /// How many nodes the graphs have.
    ghost nodes: { Self → ℕ };

    /// Whether theories decide predicates of the kind also where the atom's variable has the value that they would force.
    const IS_THOROUGH: bool;

    ghost IS_THOROUGH: { Bool };

    /// Until a theory has explained so many literals, a decision takes an edge to be present where what shows that a predicate
    /// may hold, whose variable is true, rests on it. Nothing hangs on it but how long a search takes.
    ///
    /// Where a problem has a model that needs few conflicts, following finds it: each edge that is decided absent may take away
    /// something that is kept. Where conflicts go on, following walks within bounds, and trees, makes more of them.
    const MOST_FOLLOWED: u32;

    /// Decisions do so only in graphs with so many edges: in a small one it costs little to find something else.
    const LEAST_FOLLOWED: u32;

    /// Room for graphs with this many nodes.
    fn with_nodes(alloc: Global, count: u32) -> Result<Self, AllocError>
        ensures { IfOk result (λ kind. nodes kind ≡ count) };

    /// What shows that the predicate holds in the part, or that it fails there.
    fn evidence(
        &mut self,
        alloc: Global,
        graph: &Graph,
        part: &Part,
        predicate: Predicate,
    ) -> Result<Evidence, AllocError>
        requires size { nodes self.old ≡ graph.now.nodes }
        requires kind { IsTrue (covers predicate) }
        requires over { IsOver graph.now predicate }
        requires part { IsPartOf part.now graph.now }
        ensures size { nodes self.new ≡ nodes self.old }
        ensures evidence { IfOk result (IsEvidence graph.now part.now predicate) };

    /// What shows that the predicate holds in the part, or that it fails there, found near to the evidence that was kept of it and
    /// that is right no more: edges on which that rests came or went. It passes still wherever these are as it needs them. Where
    /// none was kept, what a short search finds. `None` where nothing was found: then `evidence` tells.
    fn mend(
        &mut self,
        alloc: Global,
        graph: &Graph,
        part: &Part,
        predicate: Predicate,
        kept: Option<&Evidence>,
    ) -> Result<Option<Evidence>, AllocError>
        requires size { nodes self.old ≡ graph.now.nodes }
        requires kind { IsTrue (covers predicate) }
        requires over { IsOver graph.now predicate }
        requires part { IsPartOf part.now graph.now }
        requires kept { IfSome kept (λ e. IsSound graph.now predicate (rests_on_present e.now.witness) e.now) }
        ensures size { nodes self.new ≡ nodes self.old }
        ensures evidence { IfOk result (λ found. IfSome found (IsEvidence graph.now part.now predicate)) }
    {
        graph.known();
        let _ = (alloc, predicate);
        Ok(None)
    }
}
