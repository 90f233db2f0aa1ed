//! Worked rows: what the two sides of a theory answer for their atoms. Edges 1 and 2 lead from node 0 to node 1, and the variable
//! of 'node 1 can be reached from node 0' is 3.

ghost use Rattle.std.specs.Prelude.{[], ◌∷◌, ◌==◌, pos, true, false};
ghost use Rattle.mono_problem.specs.declared.atom.Predicate.TheVariants as kind;
ghost use Rattle.mono_steps.specs.WorkedLemmas.{minus};
ghost use Rattle.mono_theory.specs.declared.theory.Force.TheVariants as force;
ghost use Rattle.mono_theory.specs.DueAtoms.{PutsDue};
ghost use Rattle.mono_theory.specs.RowSides.{AreSettledBut, DecidesRest};
ghost use Rattle.mono_theory.specs.Supports.{IsSettled, SideIs};
ghost use Rattle.mono_theory.specs.Worked.{reaches, seen_so_far};
ghost use Rattle.mono_search_rows.specs.Worked.{atom};

/// What is newly shown of an atom puts it among those that are due, and none that was due goes.
pub fn what_is_put_due()
    ensures newly { PutsDue 2 (λ a. false) (λ a. a == 1) (false ∷ false ∷ []) (false ∷ true ∷ []) }
    ensures shown_before { PutsDue 2 (λ a. a == 1) (λ a. a == 1) (false ∷ false ∷ []) (false ∷ false ∷ []) }
    ensures beyond_the_atoms { PutsDue 1 (λ a. false) (λ a. a == 1) (false ∷ false ∷ []) (false ∷ false ∷ []) }
    ensures not_put { PutsDue 2 (λ a. false) (λ a. a == 1) (false ∷ false ∷ []) (false ∷ false ∷ []) → ⊥ }
    ensures another_goes { PutsDue 2 (λ a. false) (λ a. a == 1) (true ∷ false ∷ []) (false ∷ true ∷ []) → ⊥ }
    ensures more_places { PutsDue 2 (λ a. false) (λ a. a == 1) (false ∷ false ∷ []) (false ∷ true ∷ false ∷ []) → ⊥ }
{}

/// Rows decide the rest where along the surely present edges no walk is left of which they don't know, and where along the
/// possibly present ones they know of each that is lacking.
pub fn what_rest_is_decided()
    ensures no_walk { DecidesRest (seen_so_far []) false (λ a. false) }
    ensures walk_known { DecidesRest (seen_so_far (pos 1 ∷ [])) false (λ a. true) }
    ensures walk_unknown { DecidesRest (seen_so_far (pos 1 ∷ [])) false (λ a. false) → ⊥ }
    ensures walk_possible { DecidesRest (seen_so_far []) true (λ a. false) }
    ensures lack_unknown { DecidesRest (seen_so_far (minus 1 ∷ minus 2 ∷ [])) true (λ a. false) → ⊥ }
{}

/// An atom is settled by the value that its side would force: of the surely present edges what their coming shows, and of the
/// possibly present ones what their going shows.
pub fn what_settles_an_atom()
    ensures surely { IsSettled (pos 3 ∷ []) false (atom 1 3 (kind.Reach 0 1)) }
    ensures possibly { IsSettled (minus 3 ∷ []) true (atom 1 3 (kind.Reach 0 1)) }
    ensures the_other_way { IsSettled (minus 3 ∷ []) false (atom 1 3 (kind.Reach 0 1)) → ⊥ }
    ensures open { IsSettled (pos 1 ∷ []) false (atom 1 3 (kind.Reach 0 1)) → ⊥ }
    ensures falling { IsSettled (minus 3 ∷ []) false (atom 1 3 kind.Acyclic) }
{}

/// An atom that isn't due is settled, if rows show something of it.
pub fn what_is_settled_but_for_some()
    ensures settled { AreSettledBut (pos 3 ∷ []) false reaches (λ a. true) (false ∷ []) }
    ensures due { AreSettledBut [] false reaches (λ a. true) (true ∷ []) }
    ensures nothing_shown { AreSettledBut [] false reaches (λ a. false) (false ∷ []) }
    ensures neither { AreSettledBut [] false reaches (λ a. true) (false ∷ []) → ⊥ }
    ensures on_the_other_side { AreSettledBut (pos 3 ∷ []) true reaches (λ a. true) (false ∷ []) → ⊥ }
    ensures more_places { AreSettledBut (pos 3 ∷ []) false reaches (λ a. true) (false ∷ false ∷ []) → ⊥ }
{}

/// A side is quiet where each atom is settled or its predicate decided the other way. Else it forces a literal that isn't true.
pub fn what_a_side_answers()
    ensures settled { SideIs (seen_so_far (pos 1 ∷ pos 3 ∷ [])) false force.Quiet }
    ensures no_walk { SideIs (seen_so_far []) false force.Quiet }
    ensures walk_owed { SideIs (seen_so_far (pos 1 ∷ [])) false force.Quiet → ⊥ }
    ensures lack_owed { SideIs (seen_so_far (minus 1 ∷ minus 2 ∷ [])) true force.Quiet → ⊥ }
    ensures forced { SideIs (seen_so_far (pos 1 ∷ [])) false (force.Literal 1 (pos 3)) }
    ensures true_already { SideIs (seen_so_far (pos 1 ∷ pos 3 ∷ [])) false (force.Literal 1 (pos 3)) → ⊥ }
    ensures not_forced { SideIs (seen_so_far []) false (force.Literal 1 (pos 3)) → ⊥ }
{}
