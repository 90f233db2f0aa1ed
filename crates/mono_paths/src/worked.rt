//! Worked rows: what the words of this crate's contracts make of small graphs.
//!
//! What walks, cuts and labellings are is pinned by rows of the graph crate.

ghost use Rattle.std.specs.Prelude.{◌≡◌, ◌∷◌, [], ◌+◌, pos, negsuc, true, false, ℕ, Vec};
ghost use Rattle.std.specs.declared.alloc.Global.{Global};
ghost use Rattle.mono_graph.specs.Worked.{label, parallel, pipe, both, first_alone};
ghost use Rattle.mono_graph.specs.declared.label.Label.{Label};
ghost use Rattle.mono_paths.specs.Found.{IsPathOrCut, IsPathOrLabels, HasKnownNames, HasKnownLabels, HasBound, is_path_found, is_light_found};
ghost use Rattle.mono_paths.specs.Asked.{limit_by, IsTarget, AreAnswers};
ghost use Rattle.mono_paths.specs.declared.find.PathOrCut.TheVariants as any;
ghost use Rattle.mono_paths.specs.declared.find.PathOrLabels.TheVariants as light;

use crate::Measure;
use mono_base::limits::{MAX_BOUND, MAX_WITNESS_VALUE};
use mono_graph::Limit;

/// A found walk passes where it leads from the one node to the other, and a found set where it is a cut.
pub fn found_path_passes()
    ensures walk { (edges : Vec ℕ Global) → edges.items ≡ 0 ∷ 1 ∷ [] → IsPathOrCut (pipe 1 1) both 0 2 (any.Path edges) }
    ensures no_walk { (edges : Vec ℕ Global) → edges.items ≡ 0 ∷ [] → IsPathOrCut (pipe 1 1) both 0 2 (any.Path edges) → ⊥ }
    ensures cut { (nodes : Vec ℕ Global) → nodes.items ≡ 0 ∷ 1 ∷ [] → IsPathOrCut (pipe 1 1) first_alone 0 2 (any.Cut nodes) }
    ensures no_cut { (nodes : Vec ℕ Global) → nodes.items ≡ 0 ∷ [] → IsPathOrCut (pipe 1 1) first_alone 0 2 (any.Cut nodes) → ⊥ }
{}

/// What was found names places of edges and nodes of the graph.
pub fn found_path_is_known()
    ensures last_edge { (edges : Vec ℕ Global) → edges.items ≡ 1 ∷ [] → HasKnownNames (pipe 1 1) (any.Path edges) }
    ensures no_edge { (edges : Vec ℕ Global) → edges.items ≡ 2 ∷ [] → HasKnownNames (pipe 1 1) (any.Path edges) → ⊥ }
    ensures last_node { (nodes : Vec ℕ Global) → nodes.items ≡ 2 ∷ [] → HasKnownNames (pipe 1 1) (any.Cut nodes) }
    ensures no_node { (nodes : Vec ℕ Global) → nodes.items ≡ 3 ∷ [] → HasKnownNames (pipe 1 1) (any.Cut nodes) → ⊥ }
{}

/// A found walk passes where it is within the limit, and found labels where they show that none is.
pub fn found_light_passes()
    ensures walk { (edges : Vec ℕ Global) → edges.items ≡ 1 ∷ [] → IsPathOrLabels (parallel 1 4) both 0 1 (Limit.Weight (pos 4)) (light.Path edges) }
    ensures too_heavy { (edges : Vec ℕ Global) → edges.items ≡ 1 ∷ [] → IsPathOrLabels (parallel 1 4) both 0 1 (Limit.Weight (pos 3)) (light.Path edges) → ⊥ }
    ensures labels { (labels : Vec Label Global) → labels.items ≡ label 0 0 ∷ []
        → IsPathOrLabels (parallel 1 4) both 0 1 (Limit.Weight (pos 0)) (light.Labels labels) }
    ensures not_above { (labels : Vec Label Global) → labels.items ≡ label 0 0 ∷ []
        → IsPathOrLabels (parallel 1 4) both 0 1 (Limit.Weight (pos 1)) (light.Labels labels) → ⊥ }
{}

/// What was found names places of edges and nodes of the graph, and no label is above the greatest of a witness.
pub fn found_light_is_known()
    ensures last_edge { (edges : Vec ℕ Global) → edges.items ≡ 1 ∷ [] → HasKnownLabels (pipe 1 1) (light.Path edges) }
    ensures no_edge { (edges : Vec ℕ Global) → edges.items ≡ 2 ∷ [] → HasKnownLabels (pipe 1 1) (light.Path edges) → ⊥ }
    ensures last_node { (labels : Vec Label Global) → labels.items ≡ label 2 (MAX_WITNESS_VALUE) ∷ [] → HasKnownLabels (pipe 1 1) (light.Labels labels) }
    ensures no_node { (labels : Vec Label Global) → labels.items ≡ label 3 0 ∷ [] → HasKnownLabels (pipe 1 1) (light.Labels labels) → ⊥ }
    ensures too_great { (labels : Vec Label Global) → labels.items ≡ label 2 (MAX_WITNESS_VALUE + 1) ∷ []
        → HasKnownLabels (pipe 1 1) (light.Labels labels) → ⊥ }
{}

/// A found walk is told from what shows that there is none.
pub fn found_is_one_of_two()
    ensures path { (edges : Vec ℕ Global) → is_path_found (any.Path edges) ≡ true }
    ensures cut { (nodes : Vec ℕ Global) → is_path_found (any.Cut nodes) ≡ false }
    ensures light { (edges : Vec ℕ Global) → is_light_found (light.Path edges) ≡ true }
    ensures labels { (labels : Vec Label Global) → is_light_found (light.Labels labels) ≡ false }
{}

/// A bound is from -1 to the greatest. No limit has none.
pub fn limits_with_bounds()
    ensures free { HasBound Limit.Free → ⊥ }
    ensures least_steps { HasBound (Limit.Steps (negsuc 0)) }
    ensures fewer_steps { HasBound (Limit.Steps (negsuc 1)) → ⊥ }
    ensures most_steps { HasBound (Limit.Steps (pos (MAX_BOUND))) }
    ensures more_steps { HasBound (Limit.Steps (pos (MAX_BOUND + 1))) → ⊥ }
    ensures least_weight { HasBound (Limit.Weight (negsuc 0)) }
    ensures less_weight { HasBound (Limit.Weight (negsuc 1)) → ⊥ }
    ensures most_weight { HasBound (Limit.Weight (pos (MAX_BOUND))) }
    ensures more_weight { HasBound (Limit.Weight (pos (MAX_BOUND + 1))) → ⊥ }
{}

/// What is measured is what the limit counts.
pub fn measures_are_limits()
    ensures nothing { limit_by Measure.Free (pos 5) ≡ Limit.Free }
    ensures edges { limit_by Measure.Steps (pos 5) ≡ Limit.Steps (pos 5) }
    ensures weight { limit_by Measure.Weight (pos 5) ≡ Limit.Weight (pos 5) }
{}

/// A target is a node of the graph with a bound from -1 to the greatest.
pub fn targets_are_nodes()
    ensures last_node { IsTarget (pipe 1 1) (record { node = 2; most = negsuc 0 }) }
    ensures no_node { IsTarget (pipe 1 1) (record { node = 3; most = pos 0 }) → ⊥ }
    ensures less { IsTarget (pipe 1 1) (record { node = 2; most = negsuc 1 }) → ⊥ }
    ensures most { IsTarget (pipe 1 1) (record { node = 2; most = pos (MAX_BOUND) }) }
    ensures more { IsTarget (pipe 1 1) (record { node = 2; most = pos (MAX_BOUND + 1) }) → ⊥ }
{}

/// An answer is true exactly where a walk leads to its target within the bound, and there is one for each target.
pub fn answers_are_exact()
    ensures reached { AreAnswers (pipe 1 1) both Measure.Steps 0 (record { node = 1; most = pos 1 } ∷ []) (true ∷ []) }
    ensures denied { AreAnswers (pipe 1 1) both Measure.Steps 0 (record { node = 1; most = pos 1 } ∷ []) (false ∷ []) → ⊥ }
    ensures out_of_bound { AreAnswers (pipe 1 1) both Measure.Steps 0 (record { node = 1; most = negsuc 0 } ∷ []) (false ∷ []) }
    ensures too_good { AreAnswers (pipe 1 1) both Measure.Steps 0 (record { node = 1; most = negsuc 0 } ∷ []) (true ∷ []) → ⊥ }
    ensures too_few { AreAnswers (pipe 1 1) both Measure.Steps 0 (record { node = 1; most = pos 1 } ∷ []) [] → ⊥ }
{}
