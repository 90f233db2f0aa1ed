//! Worked rows: the flows that a theory tells, along one edge of weight 5 from node 0 to node 1, and which of them are kept.

ghost use Rattle.std.specs.Prelude.{◌≡◌, [], ◌∷◌, false, pos, true};
ghost use Rattle.mono_graph.specs.Worked.{amount, edge, single};
ghost use Rattle.mono_problem.specs.declared.atom.Predicate.TheVariants as kind;
ghost use Rattle.mono_steps.specs.WorkedLemmas.{minus};
ghost use Rattle.mono_theory.specs.declared.stage.Stage.TheVariants as stage;
ghost use Rattle.mono_flow.specs.KeptFlows.{AreBothDecided, IsDecidedBy, IsFlowFor, LosesFlow, flows_in};
ghost use Rattle.mono_flow.specs.Worked.{at_stage, keeping, keeping_second, side_of, standing};

/// A flow keeps to the weights of present edges, whatever the predicate's bound is.
pub fn flows_told()
    ensures full { IsFlowFor (single (edge 1 0 1 5)) (true ∷ []) (kind.Flow 0 1 (pos 5)) (λ _. 5) }
    ensures too_much { IsFlowFor (single (edge 1 0 1 5)) (true ∷ []) (kind.Flow 0 1 (pos 5)) (λ _. 6) → ⊥ }
    ensures too_much_for_nothing { IsFlowFor (single (edge 1 0 1 5)) (true ∷ []) (kind.Flow 0 1 (pos 0)) (λ _. 6) → ⊥ }
    ensures along_an_absent_edge { IsFlowFor (single (edge 1 0 1 5)) (false ∷ []) (kind.Flow 0 1 (pos 0)) (λ _. 1) → ⊥ }
{}

/// A flow decides where its value is at least the bound exactly where the predicate holds.
pub fn flows_that_decide()
    ensures enough { IsDecidedBy (single (edge 1 0 1 5)) (true ∷ []) (kind.Flow 0 1 (pos 5)) (λ _. 5) }
    ensures too_little { IsDecidedBy (single (edge 1 0 1 5)) (true ∷ []) (kind.Flow 0 1 (pos 5)) (λ _. 4) → ⊥ }
    ensures none { IsDecidedBy (single (edge 1 0 1 5)) (false ∷ []) (kind.Flow 0 1 (pos 5)) (λ _. 0) }
    ensures too_much { IsDecidedBy (single (edge 1 0 1 5)) (false ∷ []) (kind.Flow 0 1 (pos 5)) (λ _. 5) → ⊥ }
{}

/// A flow is lost where it gives something to an edge that the literal takes away.
pub fn flows_that_are_lost()
    ensures lost { LosesFlow (single (edge 1 0 1 5)) (minus 1) (standing (amount 1 3 ∷ [])) 0 }
    ensures carries_nothing { LosesFlow (single (edge 1 0 1 5)) (minus 1) (standing []) 0 → ⊥ }
    ensures edge_comes { LosesFlow (single (edge 1 0 1 5)) (pos 1) (standing (amount 1 3 ∷ [])) 0 → ⊥ }
    ensures another_edge { LosesFlow (single (edge 1 0 1 5)) (minus 2) (standing (amount 1 3 ∷ [])) 0 → ⊥ }
{}

/// Only an atom that stands on its flow can lose it.
pub fn flows_that_are_kept()
    ensures waits { LosesFlow (single (edge 1 0 1 5)) (minus 1) (at_stage stage.Waits (amount 1 3 ∷ [])) 0 → ⊥ }
    ensures shows { LosesFlow (single (edge 1 0 1 5)) (minus 1) (at_stage (stage.Shows 1) (amount 1 3 ∷ [])) 0 → ⊥ }
{}

/// The flow along the surely present edges is the one that is shown of the atom, and the one along the possibly present edges
/// is its support, each while its stage says so. The atom is told by its number, and the edge by its place.
pub fn flows_of_an_edge()
    ensures both { flows_in (keeping (side_of (stage.Shows 0) (amount 9 7 ∷ []) (amount 1 2 ∷ []))
        (side_of stage.Stands (amount 1 3 ∷ []) (amount 9 7 ∷ []))) 4 0 ≡ record { under = 2; over = 3 } }
    ensures exchanged { flows_in (keeping (side_of stage.Stands (amount 1 3 ∷ []) (amount 1 2 ∷ []))
        (side_of (stage.Shows 0) (amount 1 3 ∷ []) (amount 1 2 ∷ []))) 4 0 ≡ record { under = 0; over = 0 } }
    ensures waiting { flows_in (keeping (side_of stage.Waits (amount 1 3 ∷ []) (amount 1 2 ∷ []))
        (side_of stage.Waits (amount 1 3 ∷ []) (amount 1 2 ∷ []))) 4 0 ≡ record { under = 0; over = 0 } }
    ensures other_edge { flows_in (keeping (side_of (stage.Shows 0) [] (amount 0 2 ∷ [])) (side_of stage.Stands (amount 0 3 ∷ []) [])) 4 0
        ≡ record { under = 0; over = 0 } }
    ensures other_atom { flows_in (keeping (side_of (stage.Shows 0) [] (amount 1 2 ∷ [])) (side_of stage.Stands (amount 1 3 ∷ []) [])) 0 0
        ≡ record { under = 0; over = 0 } }
{}

/// An atom stands at a place of its own among the atoms, whatever the place of the edge is.
pub fn flows_of_two_atoms()
    ensures second { flows_in (keeping_second (side_of (stage.Shows 0) [] (amount 1 2 ∷ [])) (side_of stage.Stands (amount 1 3 ∷ []) [])) 4 0
        ≡ record { under = 2; over = 3 } }
    ensures first { flows_in (keeping_second (side_of (stage.Shows 0) [] (amount 1 2 ∷ [])) (side_of stage.Stands (amount 1 3 ∷ []) [])) 2 0
        ≡ record { under = 0; over = 0 } }
    ensures no_edge { flows_in (keeping_second (side_of (stage.Shows 0) [] (amount 1 2 ∷ [])) (side_of stage.Stands (amount 1 3 ∷ []) [])) 4 1
        ≡ record { under = 0; over = 0 } }
{}

/// What is kept decides where no atom waits, on either side.
pub fn theories_that_decide()
    ensures none_waits { AreBothDecided (keeping (side_of (stage.Shows 0) [] []) (side_of stage.Stands [] [])) }
    ensures surely_waits { AreBothDecided (keeping (side_of stage.Waits [] []) (side_of stage.Stands [] [])) → ⊥ }
    ensures possibly_waits { AreBothDecided (keeping (side_of (stage.Shows 0) [] []) (side_of stage.Waits [] [])) → ⊥ }
{}
