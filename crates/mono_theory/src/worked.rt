//! Worked rows: which lemmas a theory may find, which are unit, and which explain a literal. Edges 1 and 2 lead from node 0 to node 1, and the
//! variable of 'node 1 can be reached from node 0' is 3.

ghost use Rattle.std.specs.Prelude.{true, false, [], ◌∷◌, pos};
ghost use Rattle.mono_graph.specs.Worked.{parallel};
ghost use Rattle.mono_steps.specs.declared.lemma.Witness.TheVariants as by;
ghost use Rattle.mono_steps.specs.WorkedLemmas.{minus, of_1};
ghost use Rattle.mono_theory.specs.Theories.{IsForced, IsLemmaFor, IsLemmaOf, IsUnitLemma};
ghost use Rattle.mono_theory.specs.Threats.{IsThreat};
ghost use Rattle.mono_theory.specs.Worked.{along, reaches, seen_so_far, twice, walk_along};

/// No literal of a lemma that is found is true, at most one is open, each is of a variable that concerns the theory, and some
/// atom forces what isn't true.
pub fn lemmas_found()
    ensures found { IsLemmaFor (parallel 1 1) reaches (pos 1 ∷ []) (walk_along 1) }
    ensures two_open { IsLemmaFor (parallel 1 1) reaches (pos 1 ∷ []) (walk_along 2) → ⊥ }
    ensures one_open_while_quiet { IsLemmaFor (parallel 1 1) reaches (minus 3 ∷ []) (walk_along 1) → ⊥ }
    ensures one_true { IsLemmaFor (parallel 1 1) reaches (pos 2 ∷ minus 1 ∷ []) (walk_along 1) → ⊥ }
    ensures not_shown { IsLemmaFor (parallel 1 1) reaches (pos 1 ∷ []) (of_1 (minus 1 ∷ pos 3 ∷ []) (by.Path (2 ∷ []))) → ⊥ }
    ensures another_variable { IsLemmaFor (parallel 1 1) reaches (pos 1 ∷ minus 9 ∷ []) (of_1 (minus 1 ∷ pos 3 ∷ pos 9 ∷ []) (by.Path (1 ∷ []))) → ⊥ }
{}

/// The lemma of a literal is the atom's, has the literal, and its others are false.
pub fn lemmas_of_a_literal()
    ensures its { IsLemmaOf (parallel 1 1) reaches (pos 1 ∷ []) 1 (pos 3) (walk_along 1) }
    ensures another_open { IsLemmaOf (parallel 1 1) reaches (pos 1 ∷ []) 1 (pos 3) (walk_along 2) → ⊥ }
    ensures without_it { IsLemmaOf (parallel 1 1) reaches (pos 1 ∷ minus 3 ∷ []) 1 (minus 2) (walk_along 1) → ⊥ }
    ensures another_atom { IsLemmaOf (parallel 1 1) reaches (pos 1 ∷ []) 2 (pos 3) (walk_along 1) → ⊥ }
    ensures atom_alike { IsLemmaOf (parallel 1 1) twice (pos 1 ∷ []) 2 (pos 3) (walk_along 1) → ⊥ }
    ensures not_shown { IsLemmaOf (parallel 1 1) reaches (pos 1 ∷ []) 1 (pos 3) (of_1 (minus 1 ∷ pos 3 ∷ []) (by.Path (2 ∷ []))) → ⊥ }
    ensures another_variable { IsLemmaOf (parallel 1 1) reaches (pos 1 ∷ minus 9 ∷ []) 1 (pos 3) (of_1 (minus 1 ∷ pos 3 ∷ pos 9 ∷ []) (by.Path (1 ∷ []))) → ⊥ }
{}

/// One literal of a lemma that is unit is open, and its others are false. Whatever atom it is of shows it.
pub fn lemmas_that_are_unit()
    ensures by_an_edge { IsUnitLemma (parallel 1 1) reaches (minus 3 ∷ []) (minus 1) (walk_along 1) }
    ensures by_the_atom { IsUnitLemma (parallel 1 1) reaches (pos 1 ∷ []) (pos 3) (walk_along 1) }
    ensures another_open { IsUnitLemma (parallel 1 1) reaches [] (minus 1) (walk_along 1) → ⊥ }
    ensures true_already { IsUnitLemma (parallel 1 1) reaches (minus 3 ∷ minus 1 ∷ []) (minus 1) (walk_along 1) → ⊥ }
    ensures false_already { IsUnitLemma (parallel 1 1) reaches (minus 3 ∷ pos 1 ∷ []) (minus 1) (walk_along 1) → ⊥ }
    ensures without_it { IsUnitLemma (parallel 1 1) reaches (minus 3 ∷ pos 1 ∷ []) (minus 2) (walk_along 1) → ⊥ }
    ensures no_atom { IsUnitLemma (parallel 1 1) [] (minus 3 ∷ []) (minus 1) (walk_along 1) → ⊥ }
    ensures not_shown { IsUnitLemma (parallel 1 1) reaches (minus 3 ∷ []) (minus 1) (of_1 (minus 1 ∷ pos 3 ∷ []) (by.Path (2 ∷ []))) → ⊥ }
    ensures another_variable { IsUnitLemma (parallel 1 1) reaches (minus 3 ∷ minus 9 ∷ []) (minus 1)
        (of_1 (minus 1 ∷ pos 3 ∷ pos 9 ∷ []) (by.Path (1 ∷ []))) → ⊥ }
{}

/// An open edge breaks an atom where it is among the edges of evidence that is right with it, and that shows what the variable of
/// the atom denies.
pub fn edges_that_break_an_atom()
    ensures walk { IsThreat (seen_so_far (minus 3 ∷ [])) false (along 0 0 1) }
    ensures other_walk { IsThreat (seen_so_far (minus 3 ∷ minus 1 ∷ [])) false (along 1 1 2) }
    ensures not_denied { IsThreat (seen_so_far []) false (along 0 0 1) → ⊥ }
    ensures there_already { IsThreat (seen_so_far (minus 3 ∷ pos 1 ∷ [])) false (along 0 0 1) → ⊥ }
    ensures never_there { IsThreat (seen_so_far (minus 3 ∷ minus 1 ∷ [])) false (along 0 0 1) → ⊥ }
    ensures beside_the_evidence { IsThreat (seen_so_far (minus 3 ∷ [])) false (along 1 0 1) → ⊥ }
    ensures wrong_witness { IsThreat (seen_so_far (minus 3 ∷ [])) false (along 0 0 2) → ⊥ }
    ensures on_the_other_side { IsThreat (seen_so_far (minus 3 ∷ [])) true (along 0 0 1) → ⊥ }
    ensures no_atom { IsThreat (record { graph = parallel 0 0; atoms = []; seen = pos 0 ∷ [] }) false
        (record { atom = 0; edge = 0; evidence = record { witness = by.Tree (1 ∷ []); edges = 0 ∷ [] } }) → ⊥ }
{}

/// What an atom forces isn't true yet.
pub fn literals_that_are_forced()
    ensures forced { IsForced (parallel 1 1) reaches (pos 1 ∷ []) 1 (pos 3) }
    ensures true_already { IsForced (parallel 1 1) reaches (pos 1 ∷ pos 3 ∷ []) 1 (pos 3) → ⊥ }
    ensures no_atom { IsForced (parallel 1 1) reaches (pos 1 ∷ []) 2 (pos 3) → ⊥ }
{}
