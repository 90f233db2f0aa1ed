//! Worked rows: what evidence is, and when what is kept of it stays right. Edges 1 and 2 of a graph lead from node 0 over node 1
//! to node 2, where not both of them lead from node 0 to node 1. Their places are 0 and 1.

ghost use Rattle.std.specs.Prelude.{[], ◌∷◌, pos, true, false};
ghost use Rattle.mono_graph.specs.Worked.{amount, both, first_alone, label, neither, parallel, pipe};
ghost use Rattle.mono_problem.specs.declared.atom.Predicate.TheVariants as kind;
ghost use Rattle.mono_steps.specs.declared.lemma.Witness.TheVariants as by;
ghost use Rattle.mono_theory.specs.Evidences.{IsEvidence};
ghost use Rattle.mono_theory.specs.Sound.{IsSound};
ghost use Rattle.mono_flow.specs.Flowing.{AreNeeded, EachIsNeeded};

/// A walk is evidence where it rests on its edges and they are present. A cut is evidence where it rests on the edges that leave
/// it and they are absent.
pub fn what_evidence_is()
    ensures walk { IsEvidence (pipe 1 1) both (kind.Reach 0 2) (record { witness = by.Path (1 ∷ 2 ∷ []); edges = 0 ∷ 1 ∷ [] }) }
    ensures cut { IsEvidence (pipe 1 1) neither (kind.Reach 0 2) (record { witness = by.Cut (0 ∷ []); edges = 0 ∷ [] }) }
    ensures over_an_absent_edge { IsEvidence (pipe 1 1) first_alone (kind.Reach 0 2) (record { witness = by.Path (1 ∷ 2 ∷ []); edges = 0 ∷ 1 ∷ [] }) → ⊥ }
    ensures against_a_present_edge { IsEvidence (pipe 1 1) first_alone (kind.Reach 0 2) (record { witness = by.Cut (0 ∷ []); edges = 0 ∷ [] }) → ⊥ }
    ensures resting_on_too_little { IsEvidence (pipe 1 1) both (kind.Reach 0 2) (record { witness = by.Path (1 ∷ 2 ∷ []); edges = 0 ∷ [] }) → ⊥ }
    ensures leaving_an_edge_out { IsEvidence (pipe 1 1) neither (kind.Reach 0 2) (record { witness = by.Cut (0 ∷ []); edges = 1 ∷ [] }) → ⊥ }
    ensures no_such_place { IsEvidence (pipe 1 1) neither (kind.Reach 0 2) (record { witness = by.Cut (0 ∷ []); edges = 0 ∷ 2 ∷ [] }) → ⊥ }
    ensures no_such_node { IsEvidence (pipe 1 1) neither (kind.Reach 0 2) (record { witness = by.Cut (0 ∷ 3 ∷ []); edges = 0 ∷ [] }) → ⊥ }
{}

/// A flow rests on edges to which it gives something, and labels are no greater than a witness may list.
pub fn amounts_of_evidence()
    ensures used { IsEvidence (parallel 1 1) both (kind.Flow 0 1 (pos 1)) (record { witness = by.Flow (amount 2 1 ∷ []); edges = 1 ∷ [] }) }
    ensures unused { IsEvidence (parallel 1 1) both (kind.Flow 0 1 (pos 1)) (record { witness = by.Flow (amount 2 1 ∷ []); edges = 0 ∷ 1 ∷ [] }) → ⊥ }
    ensures small { IsEvidence (pipe 1 1) neither (kind.Distance 0 2 (pos 7))
        (record { witness = by.Label (label 0 0 ∷ label 1 1152921504606846976 ∷ []); edges = 0 ∷ 1 ∷ [] }) }
    ensures too_great { IsEvidence (pipe 1 1) neither (kind.Distance 0 2 (pos 7))
        (record { witness = by.Label (label 0 0 ∷ label 1 1152921504606846977 ∷ []); edges = 0 ∷ 1 ∷ [] }) → ⊥ }
{}

/// Evidence is sound of edges of one value whatever their values are: its witness passes once they have it.
pub fn what_sound_evidence_is()
    ensures walk { IsSound (pipe 1 1) (kind.Reach 0 2) true (record { witness = by.Path (1 ∷ 2 ∷ []); edges = 0 ∷ 1 ∷ [] }) }
    ensures cut { IsSound (pipe 1 1) (kind.Reach 0 2) false (record { witness = by.Cut (0 ∷ []); edges = 0 ∷ [] }) }
    ensures of_the_other_value { IsSound (pipe 1 1) (kind.Reach 0 2) false (record { witness = by.Path (1 ∷ 2 ∷ []); edges = [] }) → ⊥ }
    ensures resting_on_too_little { IsSound (pipe 1 1) (kind.Reach 0 2) true (record { witness = by.Path (1 ∷ 2 ∷ []); edges = 0 ∷ [] }) → ⊥ }
    ensures leaving_an_edge_out { IsSound (pipe 1 1) (kind.Reach 0 2) false (record { witness = by.Cut (0 ∷ []); edges = 1 ∷ [] }) → ⊥ }
    ensures no_such_place { IsSound (pipe 1 1) (kind.Reach 0 2) false (record { witness = by.Cut (0 ∷ []); edges = 0 ∷ 2 ∷ [] }) → ⊥ }
    ensures no_such_node { IsSound (pipe 1 1) (kind.Reach 0 2) false (record { witness = by.Cut (0 ∷ 3 ∷ []); edges = 0 ∷ [] }) → ⊥ }
    ensures unused { IsSound (parallel 1 1) (kind.Flow 0 1 (pos 1)) true (record { witness = by.Flow (amount 2 1 ∷ []); edges = 0 ∷ 1 ∷ [] }) → ⊥ }
    ensures too_great { IsSound (pipe 1 1) (kind.Distance 0 2 (pos 7)) false
        (record { witness = by.Label (label 0 0 ∷ label 1 1152921504606846977 ∷ []); edges = 0 ∷ 1 ∷ [] }) → ⊥ }
{}

/// Of the absent edges that leave a set of nodes those have to stay absent whose weight is more than what may still come: at most
/// `slack` in sum. One that just fits needn't.
pub fn edges_that_flow_cuts_need()
    ensures just_fits { EachIsNeeded (parallel 3 4) 3 (0 ∷ []) (0 ∷ []) → ⊥ }
    ensures heavier_by_one { EachIsNeeded (parallel 4 3) 3 (0 ∷ []) (0 ∷ []) }
    ensures heavier_than_what_is_left { EachIsNeeded (parallel 3 4) 6 (0 ∷ 1 ∷ []) (1 ∷ []) }
    ensures fits_what_is_left { EachIsNeeded (parallel 3 4) 7 (0 ∷ 1 ∷ []) (1 ∷ []) → ⊥ }
    ensures one_of_two_fits { EachIsNeeded (parallel 3 9) 5 (0 ∷ 1 ∷ []) (0 ∷ 1 ∷ []) → ⊥ }
    ensures others_fit { AreNeeded (parallel 3 4) 3 (0 ∷ 1 ∷ []) (1 ∷ []) }
    ensures others_too_heavy { AreNeeded (parallel 3 4) 2 (0 ∷ 1 ∷ []) (1 ∷ []) → ⊥ }
    ensures not_absent { AreNeeded (parallel 3 4) 3 (0 ∷ []) (0 ∷ 1 ∷ []) → ⊥ }
{}
