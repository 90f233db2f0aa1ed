//! Worked rows: for which walks atoms ask, which rows they have, and which atoms become due.

ghost use Rattle.std.specs.Prelude.{◌≡◌, ◌+◌, [], ◌∷◌, ℕ, pos, true, false, None, Some};
ghost use Rattle.mono_graph.specs.Worked.{edge_of, pipe, single, triangle};
ghost use Rattle.mono_dynamic.specs.Worked.{walks_from};
ghost use Rattle.mono_problem.specs.declared.atom.Predicate.TheVariants as kind;
ghost use Rattle.mono_steps.specs.WorkedLemmas.{minus};
ghost use Rattle.mono_theory.specs.declared.stage.Stage.TheVariants as stage;
ghost use Rattle.mono_theory.specs.Asked.{asks_walk, AreOfAtoms, HasTarget, HaveRows};
ghost use Rattle.mono_bounds.specs.Bound.{edge_vars};
ghost use Rattle.mono_bounds.specs.DueNodes.{PutsNodes};
ghost use Rattle.mono_theory.specs.Frames.{atom_vars};
ghost use Rattle.mono_theory.specs.Owners.{facts_of};
ghost use Rattle.mono_theory.specs.Sound.{evidence_at};
ghost use Rattle.mono_theory.specs.Stages.{shows, stage_at};
ghost use Rattle.mono_theory.specs.Supports.{AreCovered};
ghost use Rattle.mono_theory.specs.SureRows.{HaveLooked};
ghost use Rattle.mono_theory.specs.Walked.{numbers_of};
ghost use Rattle.mono_theory.specs.Worked.{seen_so_far};
ghost use Rattle.mono_search_rows.specs.Worked.{along_the_second, atom, its, one_row, over};

use mono_graph::Limit;

/// The predicate of each atom is of the kind.
pub fn atoms_of_a_kind()
    ensures walks { AreCovered asks_walk (its 1 ∷ its 4 ∷ []) }
    ensures none { AreCovered asks_walk [] }
    ensures one_on_cycles { AreCovered asks_walk (its 1 ∷ its 2 ∷ []) → ⊥ }
{}

/// Of each of the first atoms it is as their predicates ask: where a walk is to lead, and within which limit.
pub fn targets_of_atoms()
    ensures theirs { AreOfAtoms HasTarget (atom 1 3 (kind.Reach 0 2) ∷ atom 2 4 (kind.Steps 0 1 (pos 5)) ∷ []) 2
        (record { node = 2; limit = Limit.Free } ∷ record { node = 1; limit = Limit.Steps (pos 5) } ∷ []) }
    ensures of_the_first { AreOfAtoms HasTarget (its 1 ∷ its 2 ∷ []) 1 (record { node = 2; limit = Limit.Free } ∷ []) }
    ensures another_node { AreOfAtoms HasTarget (its 1 ∷ []) 1 (record { node = 1; limit = Limit.Free } ∷ []) → ⊥ }
    ensures another_limit { AreOfAtoms HasTarget (its 1 ∷ []) 1 (record { node = 2; limit = Limit.Steps (pos 5) } ∷ []) → ⊥ }
    ensures asking_for_none { AreOfAtoms HasTarget (its 2 ∷ []) 1 (record { node = 0; limit = Limit.Free } ∷ []) → ⊥ }
    ensures one_too_many { AreOfAtoms HasTarget (its 1 ∷ []) 1 (record { node = 2; limit = Limit.Free } ∷ record { node = 2; limit = Limit.Free } ∷ []) → ⊥ }
{}

/// The row of each atom begins at its first node and measures its walks to beyond their bound.
pub fn rows_for_atoms()
    ensures each { HaveRows (atom 1 3 (kind.Reach 2 0) ∷ atom 2 4 (kind.Steps 0 1 (pos 5)) ∷ []) 2 (1 ∷ 0 ∷ [])
        (walks_from 0 (Limit.Steps (pos 5)) 6 ∷ walks_from 2 Limit.Free 1 ∷ []) }
    ensures shared { HaveRows (atom 1 3 (kind.Steps 0 1 (pos 3)) ∷ atom 2 4 (kind.Steps 0 2 (pos 5)) ∷ []) 2 (0 ∷ 0 ∷ [])
        (walks_from 0 (Limit.Steps (pos 5)) 6 ∷ []) }
    ensures of_another { HaveRows (atom 1 3 (kind.Reach 2 0) ∷ []) 1 (0 ∷ []) (walks_from 0 Limit.Free 1 ∷ walks_from 2 Limit.Free 1 ∷ []) → ⊥ }
    ensures too_low { HaveRows (atom 1 3 (kind.Steps 0 1 (pos 5)) ∷ []) 1 (0 ∷ []) (walks_from 0 (Limit.Steps (pos 5)) 5 ∷ []) → ⊥ }
    ensures no_row { HaveRows (atom 1 3 (kind.Reach 0 2) ∷ []) 1 (1 ∷ []) (walks_from 0 Limit.Free 1 ∷ []) → ⊥ }
    ensures one_too_many { HaveRows (atom 1 3 (kind.Reach 0 2) ∷ []) 1 (0 ∷ 0 ∷ []) (walks_from 0 Limit.Free 1 ∷ []) → ⊥ }
{}

/// The atoms of a node become due, and those that are stay so.
pub fn atoms_due_by_node()
    ensures its_atoms { PutsNodes (4 ∷ 7 ∷ 4 ∷ []) (4 ∷ []) (false ∷ false ∷ false ∷ []) (true ∷ false ∷ true ∷ []) }
    ensures another_stays { PutsNodes (4 ∷ 7 ∷ 4 ∷ []) (4 ∷ []) (false ∷ true ∷ false ∷ []) (true ∷ true ∷ true ∷ []) }
    ensures one_left_out { PutsNodes (4 ∷ 7 ∷ 4 ∷ []) (4 ∷ []) (false ∷ false ∷ false ∷ []) (true ∷ false ∷ false ∷ []) → ⊥ }
    ensures another_goes { PutsNodes (4 ∷ 7 ∷ 4 ∷ []) (4 ∷ []) (false ∷ true ∷ false ∷ []) (true ∷ false ∷ true ∷ []) → ⊥ }
    ensures more_places { PutsNodes (4 ∷ 7 ∷ 4 ∷ []) (4 ∷ []) (false ∷ false ∷ false ∷ []) (true ∷ false ∷ true ∷ false ∷ []) → ⊥ }
{}

/// With a literal rows are as they were, or have grown by its edges, and the atoms are due whose nodes have changed.
pub fn rows_that_look_at_a_literal()
    ensures no_edge { HaveLooked {R = ℕ} (λ g P ks n old new. new ≡ old + 1) (λ n row. row ∷ []) (seen_so_far (minus 2 ∷ [])) 0 (one_row 5) (one_row 5)
        (false ∷ []) (false ∷ []) }
    ensures edge { HaveLooked {R = ℕ} (λ g P ks n old new. new ≡ old + 1) (λ n row. row ∷ []) (seen_so_far (pos 2 ∷ [])) 0 (one_row 5) (one_row 6)
        (false ∷ []) (true ∷ []) }
    ensures edge_not_looked_at { HaveLooked {R = ℕ} (λ g P ks n old new. new ≡ old + 1) (λ n row. row ∷ []) (seen_so_far (pos 2 ∷ [])) 0
        (one_row 5) (one_row 5)
        (false ∷ []) (false ∷ []) → ⊥ }
    ensures atom_not_due { HaveLooked {R = ℕ} (λ g P ks n old new. new ≡ old + 1) (λ n row. row ∷ []) (seen_so_far (pos 2 ∷ [])) 0 (one_row 5) (one_row 6)
        (false ∷ []) (false ∷ []) → ⊥ }
{}

/// Lists by place, of edges, of atoms and of theories.
pub fn lists_by_place()
    ensures variables_of_edges { edge_vars (single (edge_of 4 0 1 9 5)) ≡ 9 ∷ [] }
    ensures variables_of_atoms { atom_vars (its 3 ∷ its 1 ∷ []) ≡ 5 ∷ 3 ∷ [] }
    ensures numbers_of_edges { numbers_of (triangle 1 1 1) (2 ∷ 0 ∷ []) ≡ 9 ∷ 3 ∷ [] }
    ensures evidence { evidence_at (None ∷ Some along_the_second ∷ []) 1 ≡ Some along_the_second }
    ensures no_evidence { evidence_at (Some along_the_second ∷ []) 1 ≡ None }
    ensures at_a_stage { stage_at (stage.Waits ∷ stage.Shows 2 ∷ []) 1 ≡ stage.Shows 2 }
    ensures at_no_stage { stage_at (stage.Stands ∷ []) 1 ≡ stage.Waits }
    ensures shown { shows (stage.Shows 0) ≡ true }
    ensures standing { shows stage.Stands ≡ false }
    ensures waiting { shows stage.Waits ≡ false }
    ensures theories { facts_of {T = ℕ} (λ n. pipe n 1) (λ n. its n ∷ []) (λ n. pos n ∷ []) (2 ∷ 1 ∷ [])
        ≡ record (over (pipe 2 1) (its 2 ∷ [])) { seen = pos 2 ∷ [] } ∷ record (over (pipe 1 1) (its 1 ∷ [])) { seen = pos 1 ∷ [] } ∷ [] }
{}
