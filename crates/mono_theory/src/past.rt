//! What the first literals seen show. The bounds go back to these literals and come again to all of them, in proportion
//! to those that are left out, and without memory.

ghost use Rattle.std.specs.Prelude.{◌≡◌, ◌≤◌, length, take, pos, int_lt, IfOk, IfSome, IsTrue};
ghost use Rattle.mono_base.specs.Partial.{is_partial};
ghost use Rattle.mono_graph.specs.Digraph.{IsPartOf};
ghost use Rattle.mono_problem.specs.WellFormed.{IsOver};
ghost use Rattle.mono_bounds.specs.Bound.{edge_vars};
ghost use Rattle.mono_theory.specs.Evidences.{IsEvidence, side, shown_by as shown_by_of};
ghost use Rattle.mono_bounds.specs.SeenBounds.{IsSeenBound};
ghost use Rattle.mono_theory.specs.Sound.{IsSound};

use crate::evidence::shown_by;
use crate::kept_evidence::have;
use crate::{Evidence, Kind, Question};
use mono_base::Lit;
use mono_bounds::SeenBounds;
use mono_graph::{Graph, Part};
use mono_problem::Predicate;
use std::alloc::{AllocError, Global};

/// What shows that the predicate holds or fails in the part: the evidence that is known, where it is right there, or else what
/// a search finds.
fn known_or_found<K: Kind>(
    alloc: Global,
    kind: &mut K,
    graph: &Graph,
    part: &Part,
    known: Option<&Evidence>,
    value: bool,
    predicate: Predicate,
) -> Result<Evidence, AllocError>
    requires size { K.nodes kind.old ≡ graph.now.nodes }
    requires kind { IsTrue (K.covers predicate) }
    requires over { IsOver graph.now predicate }
    requires part { IsPartOf part.now graph.now }
    requires known { IfSome known (λ e. IsSound graph.now predicate value e.now) }
    ensures size { K.nodes kind.new ≡ K.nodes kind.old }
    ensures evidence { IfOk result (IsEvidence graph.now part.now predicate) }
{
    match known {
        None => kind.evidence(alloc, graph, part, predicate),
        Some(evidence) => {
            if have(part, evidence.edges.as_slice(), value) {
                return evidence.copy(alloc);
            }
            kind.evidence(alloc, graph, part, predicate)
        }
    }
}

/// What shows that the predicate holds or fails with the edges by which a literal is forced, under the first literals.
pub(crate) fn evidence_by<K: Kind>(
    alloc: Global,
    kind: &mut K,
    graph: &Graph,
    bounds: &mut SeenBounds,
    lits: &[Lit],
    known: Option<&Evidence>,
    predicate: Predicate,
    question: Question,
) -> Result<Evidence, AllocError>
    requires size { K.nodes kind.old ≡ graph.now.nodes }
    requires kept { question.kept ≤ length lits.now }
    requires partial { IsTrue (is_partial lits.now) }
    requires bounds { IsSeenBound bounds.old (edge_vars graph.now) lits.now }
    requires kind { IsTrue (K.covers predicate) }
    requires over { IsOver graph.now predicate }
    requires known { IfSome known (λ e. IsSound graph.now predicate (shown_by_of predicate (int_lt (pos 0) question.lit)) e.now) }
    ensures size { K.nodes kind.new ≡ K.nodes kind.old }
    ensures same { bounds.new ≡ bounds.old }
    ensures evidence { IfOk result (IsEvidence graph.now (side graph.now predicate (take question.kept lits.now) question.lit) predicate) }
{
    let value = shown_by(predicate, question.lit.is_positive());
    bounds.go_back(lits, question.kept);
    let part = bounds.part(value);
    let found = known_or_found::<K>(alloc, kind, graph, part, known, value, predicate);
    bounds.come_again(lits, question.kept);
    found
}
