//! Worked rows: what is kept of an atom on a side. Edges 1 and 2, at the places 0 and 1, lead from node 0 to node 1, and the only
//! atom says with variable 3 that node 1 can be reached from node 0.

ghost use Rattle.std.specs.Prelude.{[], ◌∷◌, ℕ, pos, true, false, None, Some};
ghost use Rattle.mono_graph.specs.Worked.{both, first_alone, label, neither, parallel, pipe};
ghost use Rattle.mono_problem.specs.declared.atom.Predicate.TheVariants as kind;
ghost use Rattle.mono_steps.specs.declared.lemma.Witness.TheVariants as by;
ghost use Rattle.mono_steps.specs.WorkedLemmas.{minus};
ghost use Rattle.mono_theory.specs.declared.either_side.EitherSide.TheVariants as side;
ghost use Rattle.mono_theory.specs.declared.stage.Stage.TheVariants as stage;
ghost use Rattle.mono_theory.specs.EitherSides.{IsEitherBack, IsEitherKept};
ghost use Rattle.mono_theory.specs.Sound.{IsWitnessIn};
ghost use Rattle.mono_theory.specs.Stages.{NoneWaits};
ghost use Rattle.mono_theory.specs.Supports.{IsKeptBy, IsSide, IsSideFor};
ghost use Rattle.mono_theory.specs.Watching.{watch_by};
ghost use Rattle.mono_theory.specs.Worked.{seen_so_far};
ghost use Rattle.mono_search_rows.specs.Worked.{along_the_second, cut_at_0, keeping, rows_told, second_is_watched};

/// A witness rests on edges of its value, names what is there, and passes over the part.
pub fn witnesses_in_a_part()
    ensures walk { IsWitnessIn (pipe 1 1) both (kind.Reach 0 2) true (by.Path (1 ∷ 2 ∷ [])) }
    ensures cut { IsWitnessIn (pipe 1 1) neither (kind.Reach 0 2) false (by.Cut (0 ∷ [])) }
    ensures of_the_other_value { IsWitnessIn (pipe 1 1) both (kind.Reach 0 2) false (by.Path (1 ∷ 2 ∷ [])) → ⊥ }
    ensures no_such_node { IsWitnessIn (pipe 1 1) neither (kind.Reach 0 2) false (by.Cut (0 ∷ 3 ∷ [])) → ⊥ }
    ensures too_great { IsWitnessIn (pipe 1 1) neither (kind.Distance 0 2 (pos 7)) false (by.Label (label 0 0 ∷ label 1 1152921504606846977 ∷ [])) → ⊥ }
    ensures over_an_absent_edge { IsWitnessIn (pipe 1 1) first_alone (kind.Reach 0 2) true (by.Path (1 ∷ 2 ∷ [])) → ⊥ }
{}

/// An atom stands while its support is right, and is shown while what shows it is right and its variable has the value.
pub fn what_stages_say()
    ensures stands { IsSide (seen_so_far (minus 1 ∷ [])) true (keeping (Some along_the_second) None second_is_watched stage.Stands) }
    ensures on_an_absent_edge { IsSide (seen_so_far (minus 2 ∷ [])) true (keeping (Some along_the_second) None second_is_watched stage.Stands) → ⊥ }
    ensures shown { IsSide (seen_so_far (minus 1 ∷ minus 2 ∷ minus 3 ∷ [])) true (keeping None (Some cut_at_0) ([] ∷ [] ∷ []) (stage.Shows 3)) }
    ensures not_settled_yet { IsSide (seen_so_far (minus 1 ∷ minus 2 ∷ minus 3 ∷ [])) true
        (keeping None (Some cut_at_0) ([] ∷ [] ∷ []) (stage.Shows 2)) → ⊥ }
    ensures by_a_possible_edge { IsSide (seen_so_far (minus 1 ∷ minus 3 ∷ [])) true (keeping None (Some cut_at_0) ([] ∷ [] ∷ []) (stage.Shows 2)) → ⊥ }
    ensures by_literals_to_come { IsSide (seen_so_far (minus 1 ∷ minus 2 ∷ minus 3 ∷ [])) true
        (keeping None (Some cut_at_0) ([] ∷ [] ∷ []) (stage.Shows 4)) → ⊥ }
{}

/// What is kept on a side is of that side and of its atoms and edges. Supports and what is shown are sound whatever the stage.
pub fn what_a_side_keeps()
    ensures waits { IsSide (seen_so_far []) true (keeping None None ([] ∷ [] ∷ []) stage.Waits) }
    ensures of_the_other_side { IsSide (seen_so_far []) false (keeping None None ([] ∷ [] ∷ []) stage.Waits) → ⊥ }
    ensures resting_on_absent_edges { IsSide (seen_so_far []) true (keeping (Some cut_at_0) None
        ((watch_by 0 0 ∷ []) ∷ (watch_by 0 1 ∷ []) ∷ []) stage.Waits) → ⊥ }
    ensures shown_by_present_edges { IsSide (seen_so_far []) true (keeping None (Some along_the_second) ([] ∷ [] ∷ []) stage.Waits) → ⊥ }
    ensures unwatched { IsSide (seen_so_far []) true (keeping (Some along_the_second) None ([] ∷ [] ∷ []) stage.Waits) → ⊥ }
    ensures watched_elsewhere { IsSide (seen_so_far []) true (keeping (Some along_the_second) None ((watch_by 0 0 ∷ []) ∷ [] ∷ []) stage.Waits) → ⊥ }
    ensures no_such_atom { IsSide (seen_so_far []) true (keeping None None ([] ∷ (watch_by 1 0 ∷ []) ∷ []) stage.Waits) → ⊥ }
    ensures an_edge_too_few { IsSide (seen_so_far []) true (keeping None None ([] ∷ []) stage.Waits) → ⊥ }
    ensures a_stage_too_many { IsSide (seen_so_far []) true (record (keeping None None ([] ∷ [] ∷ []) stage.Waits)
        { stages = stage.Waits ∷ stage.Waits ∷ [] }) → ⊥ }
    ensures as_thorough { IsSideFor (seen_so_far []) true true (keeping None None ([] ∷ [] ∷ []) stage.Waits) }
    ensures nor_its_side { IsSideFor (seen_so_far []) false true (keeping None None ([] ∷ [] ∷ []) stage.Waits) → ⊥ }
    ensures less_thorough { IsSideFor (seen_so_far []) true false (keeping None None ([] ∷ [] ∷ []) stage.Waits) → ⊥ }
    ensures none_waits { NoneWaits (stage.Stands ∷ stage.Shows 2 ∷ []) }
    ensures one_waits { NoneWaits (stage.Stands ∷ stage.Waits ∷ []) → ⊥ }
{}

/// One more literal makes an atom wait where it changes an edge of its support on this side. All else is kept.
pub fn what_a_literal_changes()
    ensures edge_goes { IsKeptBy (parallel 1 1) true (minus 2) (keeping (Some along_the_second) None second_is_watched stage.Stands)
        (keeping (Some along_the_second) None second_is_watched stage.Waits) }
    ensures kept { IsKeptBy (parallel 1 1) true (minus 1) (keeping (Some along_the_second) None second_is_watched stage.Stands)
        (keeping (Some along_the_second) None second_is_watched stage.Stands) }
    ensures another_goes { IsKeptBy (parallel 1 1) true (minus 1) (keeping (Some along_the_second) None second_is_watched stage.Stands)
        (keeping (Some along_the_second) None second_is_watched stage.Waits) → ⊥ }
    ensures edge_comes { IsKeptBy (parallel 1 1) true (pos 2) (keeping (Some along_the_second) None second_is_watched stage.Stands)
        (keeping (Some along_the_second) None second_is_watched stage.Waits) → ⊥ }
    ensures stands_again { IsKeptBy (parallel 1 1) true (minus 2) (keeping (Some along_the_second) None second_is_watched stage.Waits)
        (keeping (Some along_the_second) None second_is_watched stage.Stands) → ⊥ }
    ensures support_changes { IsKeptBy (parallel 1 1) true (minus 1) (keeping (Some along_the_second) None second_is_watched stage.Waits)
        (keeping None None second_is_watched stage.Waits) → ⊥ }
    ensures a_stage_more { IsKeptBy (parallel 1 1) true (minus 1) (keeping None None ([] ∷ [] ∷ []) stage.Waits)
        (record (keeping None None ([] ∷ [] ∷ []) stage.Waits) { stages = stage.Waits ∷ stage.Waits ∷ [] }) → ⊥ }
{}

/// Rows stay while literals come, and what searches found is kept as on a side.
pub fn what_is_kept_either_way()
    ensures rows { IsEitherKept (seen_so_far []) (minus 1) (rows_told 1 5) (rows_told 1 5) }
    ensures rows_change { IsEitherKept (seen_so_far []) (minus 1) (rows_told 1 5) (rows_told 1 6) → ⊥ }
    ensures rows_look { IsEitherKept (seen_so_far []) (minus 1) (rows_told 1 5) (rows_told 2 5) → ⊥ }
    ensures searches { IsEitherKept {R = ℕ} (seen_so_far []) (minus 2) (side.Searches
        (keeping (Some along_the_second) None second_is_watched stage.Stands))
        (side.Searches (keeping (Some along_the_second) None second_is_watched stage.Waits)) }
    ensures searches_find { IsEitherKept {R = ℕ} (seen_so_far []) (minus 2)
        (side.Searches (keeping (Some along_the_second) None second_is_watched stage.Waits))
        (side.Searches (keeping None None second_is_watched stage.Waits)) → ⊥ }
    ensures rows_for_searches { IsEitherKept (seen_so_far []) (minus 1) (side.Searches (keeping None None ([] ∷ [] ∷ []) stage.Waits)) (rows_told 1 5) → ⊥ }
{}

/// Going back, rows are those of the literals that are left, and what searches found waits where a literal that went settled it.
pub fn what_goes_back()
    ensures rows { IsEitherBack 2 (rows_told 5 7) (rows_told 2 8) }
    ensures rows_behind { IsEitherBack 6 (rows_told 5 7) (rows_told 5 7) }
    ensures rows_too_far { IsEitherBack 2 (rows_told 5 7) (rows_told 1 7) → ⊥ }
    ensures rows_ahead { IsEitherBack 2 (rows_told 5 7) (rows_told 5 7) → ⊥ }
    ensures settled_later { IsEitherBack {R = ℕ} 1 (side.Searches (keeping None (Some cut_at_0) [] (stage.Shows 2)))
        (side.Searches (keeping None (Some cut_at_0) [] stage.Waits)) }
    ensures settled_before { IsEitherBack {R = ℕ} 1 (side.Searches (keeping None (Some cut_at_0) [] (stage.Shows 1)))
        (side.Searches (keeping None (Some cut_at_0) [] (stage.Shows 1))) }
    ensures still_settled { IsEitherBack {R = ℕ} 1 (side.Searches (keeping None (Some cut_at_0) [] (stage.Shows 2)))
        (side.Searches (keeping None (Some cut_at_0) [] (stage.Shows 2))) → ⊥ }
    ensures forgets_what_was_shown { IsEitherBack {R = ℕ} 1 (side.Searches (keeping None (Some cut_at_0) [] (stage.Shows 1)))
        (side.Searches (keeping None None [] (stage.Shows 1))) → ⊥ }
    ensures rows_for_searches { IsEitherBack 2 (side.Searches (keeping None None [] stage.Waits)) (rows_told 2 7) → ⊥ }
{}
