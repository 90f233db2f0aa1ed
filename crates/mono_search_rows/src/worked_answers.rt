//! Worked rows: what theories answer, which of them own the atoms of a problem, and when there is no model.

ghost use Rattle.std.specs.Prelude.{[], ◌∷◌, pos, true, false};
ghost use Rattle.mono_graph.specs.Worked.{both, neither, parallel, pipe, round_trip};
ghost use Rattle.mono_problem.specs.declared.atom.Predicate.TheVariants as kind;
ghost use Rattle.mono_problem.specs.Holds.{HasNoModel};
ghost use Rattle.mono_problem.specs.Quiet.{HasForcedTrue, IsNearlyQuiet, TheoryQuiet};
ghost use Rattle.mono_problem.specs.Worked.{piped};
ghost use Rattle.mono_steps.specs.declared.lemma.Witness.TheVariants as by;
ghost use Rattle.mono_steps.specs.WorkedLemmas.{minus, of_1};
ghost use Rattle.mono_theory.specs.declared.theory.Finding.TheVariants as finding;
ghost use Rattle.mono_theory.specs.declared.theory.Force.TheVariants as force;
ghost use Rattle.mono_theory.specs.Evidences.{Decides};
ghost use Rattle.mono_theory.specs.Owners.{OwnsEach};
ghost use Rattle.mono_theory.specs.Theories.{FindingIs, ForceIs};
ghost use Rattle.mono_theory.specs.Worked.{reaches, walk_along};
ghost use Rattle.mono_search_rows.specs.Worked.{atom, its, of_four_atoms, over, reaches_without_cycles};

/// Whether a predicate holds in a part, decided.
pub fn what_decides_a_predicate()
    ensures holds { Decides (parallel 1 1) both (kind.Reach 0 1) true }
    ensures fails { Decides (parallel 1 1) neither (kind.Reach 0 1) false }
    ensures holds_nowhere { Decides (parallel 1 1) neither (kind.Reach 0 1) true → ⊥ }
    ensures fails_nowhere { Decides (parallel 1 1) both (kind.Reach 0 1) false → ⊥ }
{}

/// Atoms are quiet where what they force is true. Else a theory finds a lemma that is shown and not quiet either.
pub fn what_theories_find()
    ensures quiet { FindingIs (parallel 1 1) reaches (pos 1 ∷ pos 3 ∷ []) finding.Quiet }
    ensures not_quiet { FindingIs (parallel 1 1) reaches (pos 1 ∷ []) finding.Quiet → ⊥ }
    ensures lemma { FindingIs (parallel 1 1) reaches (pos 1 ∷ []) (finding.Lemma (walk_along 1)) }
    ensures lemma_while_open { FindingIs (parallel 1 1) reaches (pos 1 ∷ []) (finding.Lemma (walk_along 2)) → ⊥ }
    ensures nothing_seen { TheoryQuiet (parallel 1 1) reaches [] }
    ensures owed { TheoryQuiet (parallel 1 1) reaches (minus 1 ∷ minus 2 ∷ []) → ⊥ }
{}

/// A theory forces a literal that an atom forces and that isn't true. Else all atoms are quiet.
pub fn what_theories_force()
    ensures quiet { ForceIs (parallel 1 1) reaches (pos 1 ∷ pos 3 ∷ []) force.Quiet }
    ensures not_quiet { ForceIs (parallel 1 1) reaches (pos 1 ∷ []) force.Quiet → ⊥ }
    ensures literal { ForceIs (parallel 1 1) reaches (pos 1 ∷ []) (force.Literal 1 (pos 3)) }
    ensures true_already { ForceIs (parallel 1 1) reaches (pos 1 ∷ pos 3 ∷ []) (force.Literal 1 (pos 3)) → ⊥ }
    ensures of_another_atom { ForceIs (parallel 1 1) reaches (pos 1 ∷ []) (force.Literal 2 (pos 3)) → ⊥ }
{}

/// Of two atoms, one of which falls as edges come, each has to be quiet. A lemma is of an atom that forces one of its literals, and
/// none of them is true. Whether the other atom is quiet makes no difference.
pub fn what_theories_find_of_two_atoms()
    ensures quiet { FindingIs (parallel 1 1) reaches_without_cycles (pos 1 ∷ pos 3 ∷ pos 4 ∷ []) finding.Quiet }
    ensures first_owes { FindingIs (parallel 1 1) reaches_without_cycles (pos 1 ∷ pos 4 ∷ []) finding.Quiet → ⊥ }
    ensures second_owes { FindingIs (parallel 1 1) reaches_without_cycles (pos 1 ∷ pos 3 ∷ []) finding.Quiet → ⊥ }
    ensures lemma_of_one { FindingIs (parallel 1 1) reaches_without_cycles (pos 1 ∷ pos 4 ∷ []) (finding.Lemma (walk_along 1)) }
    ensures true_literal { FindingIs (parallel 1 1) reaches_without_cycles (pos 1 ∷ minus 2 ∷ pos 4 ∷ [])
        (finding.Lemma (of_1 (minus 1 ∷ minus 2 ∷ pos 3 ∷ []) (by.Path (1 ∷ [])))) → ⊥ }
    ensures of_a_quiet_atom { FindingIs (parallel 1 1) reaches_without_cycles (minus 3 ∷ []) (finding.Lemma (walk_along 1)) → ⊥ }
{}

/// An atom has forced what is true, or is nearly quiet.
pub fn what_an_atom_owes()
    ensures forced_already { HasForcedTrue (parallel 1 1) (pos 1 ∷ pos 3 ∷ []) (atom 1 3 (kind.Reach 0 1)) }
    ensures still_to_force { HasForcedTrue (parallel 1 1) (pos 1 ∷ []) (atom 1 3 (kind.Reach 0 1)) → ⊥ }
    ensures nearly_quiet { IsNearlyQuiet (parallel 1 1) (pos 1 ∷ pos 3 ∷ []) (atom 1 3 (kind.Reach 0 1)) }
    ensures to_hold { IsNearlyQuiet (parallel 1 1) (pos 1 ∷ []) (atom 1 3 (kind.Reach 0 1)) → ⊥ }
    ensures to_fail { IsNearlyQuiet (parallel 1 1) (minus 1 ∷ minus 2 ∷ []) (atom 1 3 (kind.Reach 0 1)) → ⊥ }
{}

/// Each atom of the problem is one theory's alone, and each theory is over the graph of its atoms.
pub fn who_owns_the_atoms()
    ensures each { OwnsEach of_four_atoms (over (pipe 1 1) (its 4 ∷ its 1 ∷ []) ∷ over (pipe 1 1) (its 2 ∷ []) ∷ over (round_trip 1 1) (its 3 ∷ []) ∷ []) }
    ensures one_left_out { OwnsEach of_four_atoms (over (pipe 1 1) (its 1 ∷ []) ∷ over (pipe 1 1) (its 2 ∷ []) ∷ over (round_trip 1 1)
        (its 3 ∷ []) ∷ []) → ⊥ }
    ensures owned_twice { OwnsEach of_four_atoms (over (pipe 1 1) (its 4 ∷ its 1 ∷ its 2 ∷ []) ∷ over (pipe 1 1) (its 2 ∷ []) ∷ over (round_trip 1 1)
        (its 3 ∷ []) ∷ []) → ⊥ }
    ensures another_variable { OwnsEach of_four_atoms (over (pipe 1 1) (its 4 ∷ its 1 ∷ []) ∷ over (pipe 1 1) (record (its 2) { var = 7 } ∷ [])
        ∷ over (round_trip 1 1) (its 3 ∷ []) ∷ []) → ⊥ }
    ensures over_another_graph { OwnsEach of_four_atoms (over (pipe 1 1) (its 4 ∷ its 1 ∷ []) ∷ over (round_trip 1 1) (its 2 ∷ [])
        ∷ over (round_trip 1 1) (its 3 ∷ []) ∷ []) → ⊥ }
{}

/// A clause without a literal is never true. Without clauses all variables may be.
pub fn problems_without_a_model()
    ensures empty_clause { HasNoModel (piped ([] ∷ [])) }
    ensures no_clause { HasNoModel (piped []) → ⊥ }
{}
