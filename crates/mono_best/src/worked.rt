//! Worked rows: what the definitions make of the bounds of predicates, of a problem that asks for one, and of what is found.

ghost use Rattle.std.specs.Prelude.{◌≡◌, ◌+◌, ◌-◌, ℤ, pos, negsuc, Bool, true, false, List, [], ◌∷◌, length, None, Some};
ghost use Rattle.mono_base.specs.declared.limits.TheConstants.{MAX_VARS, MAX_ATOMS, MAX_CLAUSES, MAX_LITERALS, MAX_BOUND};
ghost use Rattle.mono_problem.specs.declared.atom.Atom.{Atom};
ghost use Rattle.mono_problem.specs.declared.atom.Predicate.TheVariants as kind;
ghost use Rattle.mono_problem.specs.Instance.{literals_total};
ghost use Rattle.mono_steps.specs.declared.step.Step.{Step};
ghost use Rattle.mono_steps.specs.WorkedLemmas.{minus};
ghost use Rattle.mono_best.specs.Asking.{asking, HasBoundedAtom, HasRoomToAsk};
ghost use Rattle.mono_best.specs.Bounds.{has_bound, is_flow, with_bound, weakest, beyond, bound_at, IsBoundOf};
ghost use Rattle.mono_best.specs.Best.{IsBest, IsBeyond, IsOpen, IsBestOutcome};
ghost use Rattle.mono_best.specs.Leaps.{IsFound, IsGap};
ghost use Rattle.mono_best.specs.Optimum.{IsBetter, IsOptimum, IsNeverMet};
ghost use Rattle.mono_best.specs.Worked.{weighed, distance_to_2, heavy, wide, both_there, new_one_false, four_refuted, four_refuted_twice, all_refuted};
ghost use Rattle.mono_best.specs.declared.outcome.BestOutcome.TheVariants as outcome;

/// Steps, distances, flows and trees have bounds.
pub fn predicates_with_a_bound()
    ensures reach { has_bound (kind.Reach 0 1) ≡ false }
    ensures steps { has_bound (kind.Steps 0 1 (pos 2)) ≡ true }
    ensures distance { has_bound (kind.Distance 0 1 (pos 2)) ≡ true }
    ensures flow { has_bound (kind.Flow 0 1 (pos 2)) ≡ true }
    ensures tree { has_bound (kind.Tree (pos 2)) ≡ true }
    ensures acyclic { has_bound kind.Acyclic ≡ false }
    ensures only_flows { is_flow (kind.Flow 0 1 (pos 2)) ≡ true }
    ensures no_trees { is_flow (kind.Tree (pos 2)) ≡ false }
{}

/// Another bound changes nothing else.
pub fn predicates_with_another_bound()
    ensures steps { with_bound (kind.Steps 0 1 (pos 2)) (pos 7) ≡ kind.Steps 0 1 (pos 7) }
    ensures distance { with_bound (kind.Distance 1 0 (pos 2)) (negsuc 0) ≡ kind.Distance 1 0 (negsuc 0) }
    ensures flow { with_bound (kind.Flow 0 1 (pos 2)) (pos 7) ≡ kind.Flow 0 1 (pos 7) }
    ensures tree { with_bound (kind.Tree (pos 2)) (pos 7) ≡ kind.Tree (pos 7) }
    ensures no_bound_of_reach { with_bound (kind.Reach 0 1) (pos 7) ≡ kind.Reach 0 1 }
    ensures no_bound_of_acyclic { with_bound kind.Acyclic (pos 7) ≡ kind.Acyclic }
{}

/// A flow's bound is from 0 to 2^53 + 1, each other bound from -1 to 2^53.
pub fn bounds_of_each_kind()
    ensures least { IsBoundOf (kind.Flow 0 1 (pos 2)) (pos 0) }
    ensures greatest { IsBoundOf (kind.Flow 0 1 (pos 2)) (pos (MAX_BOUND + 1)) }
    ensures no_negative_flow { IsBoundOf (kind.Flow 0 1 (pos 2)) (negsuc 0) → ⊥ }
    ensures no_greater_flow { IsBoundOf (kind.Flow 0 1 (pos 2)) (pos (MAX_BOUND + 2)) → ⊥ }
    ensures steps_least { IsBoundOf (kind.Steps 0 1 (pos 2)) (negsuc 0) }
    ensures steps_greatest { IsBoundOf (kind.Steps 0 1 (pos 2)) (pos MAX_BOUND) }
    ensures no_greater_steps { IsBoundOf (kind.Steps 0 1 (pos 2)) (pos (MAX_BOUND + 1)) → ⊥ }
    ensures distance_least { IsBoundOf (kind.Distance 0 1 (pos 2)) (negsuc 0) }
    ensures distance_greatest { IsBoundOf (kind.Distance 0 1 (pos 2)) (pos MAX_BOUND) }
    ensures no_less_tree { IsBoundOf (kind.Tree (pos 2)) (negsuc 1) → ⊥ }
    ensures no_greater_tree { IsBoundOf (kind.Tree (pos 2)) (pos (MAX_BOUND + 1)) → ⊥ }
    ensures no_reach { IsBoundOf (kind.Reach 0 1) (pos 0) → ⊥ }
    ensures no_acyclic { IsBoundOf kind.Acyclic (pos 0) → ⊥ }
{}

/// The weakest bound, and the one that asks for one more: a greater flow, a lighter walk or tree.
pub fn stronger_bounds()
    ensures weakest_flow { weakest (kind.Flow 0 1 (pos 2)) ≡ pos 0 }
    ensures weakest_tree { weakest (kind.Tree (pos 2)) ≡ pos MAX_BOUND }
    ensures greater_flow { beyond (kind.Flow 0 1 (pos 2)) (pos 7) ≡ pos 8 }
    ensures fewer_steps { beyond (kind.Steps 0 1 (pos 2)) (pos 7) ≡ pos 6 }
    ensures less_distance { beyond (kind.Distance 0 1 (pos 2)) (pos 0) ≡ negsuc 0 }
    ensures third_flow { bound_at (kind.Flow 0 1 (pos 2)) 3 ≡ pos 3 }
    ensures third_steps { bound_at (kind.Steps 0 1 (pos 2)) 3 ≡ pos (MAX_BOUND - 3) }
    ensures third_distance { bound_at (kind.Distance 0 1 (pos 2)) 3 ≡ pos (MAX_BOUND - 3) }
    ensures third_tree { bound_at (kind.Tree (pos 2)) 3 ≡ pos (MAX_BOUND - 3) }
    ensures better_flow { IsBetter (kind.Flow 0 1 (pos 2)) (pos 8) (pos 7) }
    ensures better_steps { IsBetter (kind.Steps 0 1 (pos 2)) (pos 6) (pos 7) }
    ensures worse_steps { IsBetter (kind.Steps 0 1 (pos 2)) (pos 8) (pos 7) → ⊥ }
    ensures better_tree { IsBetter (kind.Tree (pos 2)) (pos 6) (pos 7) }
    ensures worse_tree { IsBetter (kind.Tree (pos 2)) (pos 8) (pos 7) → ⊥ }
    ensures as_good { IsBetter (kind.Flow 0 1 (pos 2)) (pos 7) (pos 7) → ⊥ }
{}

/// The first predicate once more, with the bound 4 and the new variable 6, which the last clause makes true.
pub fn problem_that_asks()
    ensures vars { (asking (weighed ((pos 1 ∷ []) ∷ [])) 1 (pos 4)).vars ≡ 6 }
    ensures graphs { (asking (weighed []) 1 (pos 4)).graphs ≡ (weighed []).graphs }
    ensures atoms { (asking (weighed []) 1 (pos 4)).atoms ≡ distance_to_2 1 5 (pos 9) ∷ distance_to_2 2 6 (pos 4) ∷ [] }
    ensures clauses { (asking (weighed ((pos 1 ∷ []) ∷ [])) 1 (pos 4)).clauses ≡ (pos 1 ∷ []) ∷ (pos 6 ∷ []) ∷ [] }
{}

/// The predicate has to be there and to have a bound, and there has to be room.
pub fn problems_to_ask()
    ensures first { HasBoundedAtom (weighed []) 1 }
    ensures none { HasBoundedAtom (weighed []) 0 → ⊥ }
    ensures no_second { HasBoundedAtom (weighed []) 2 → ⊥ }
    ensures no_bound { HasBoundedAtom (record (weighed []) { atoms = record (distance_to_2 1 5 (pos 9)) { predicate = kind.Reach 0 2 } ∷ [] }) 1 → ⊥ }
    ensures room { HasRoomToAsk (weighed []) }
    ensures one_variable_left { HasRoomToAsk (record (weighed []) { vars = MAX_VARS - 1 }) }
    ensures no_variable_left { HasRoomToAsk (record (weighed []) { vars = MAX_VARS }) → ⊥ }
    ensures one_predicate_left { (atoms : List Atom) → length atoms + 1 ≡ MAX_ATOMS → HasRoomToAsk (record (weighed []) { atoms = atoms }) }
    ensures no_predicate_left { (atoms : List Atom) → length atoms ≡ MAX_ATOMS → HasRoomToAsk (record (weighed []) { atoms = atoms }) → ⊥ }
    ensures one_clause_left { (clauses : List (List ℤ)) → length clauses + 1 ≡ MAX_CLAUSES → literals_total (weighed clauses) + 1 ≡ MAX_LITERALS
        → HasRoomToAsk (weighed clauses) }
    ensures no_clause_left { (clauses : List (List ℤ)) → length clauses ≡ MAX_CLAUSES → HasRoomToAsk (weighed clauses) → ⊥ }
    ensures no_literal_left { (clauses : List (List ℤ)) → literals_total (weighed clauses) ≡ MAX_LITERALS → HasRoomToAsk (weighed clauses) → ⊥ }
{}

/// The walk over both edges weighs 5: with no clause that is the best bound.
pub fn best_bounds()
    ensures five { IsOptimum (weighed []) 1 (pos 5) }
    ensures not_six { IsOptimum (weighed []) 1 (pos 6) → ⊥ }
    ensures not_four { IsOptimum (weighed []) 1 (pos 4) → ⊥ }
    ensures met { IsNeverMet (weighed []) 1 → ⊥ }
    ensures never_met { IsNeverMet (weighed ([] ∷ [])) 1 }
{}

/// A best bound has a model, and a refutation of the bound that asks for one more, of which each step is used.
pub fn best_outcomes()
    ensures five { IsBestOutcome (weighed []) 1 1 (outcome.Best (pos 5) both_there four_refuted) }
    ensures no_model { IsBest (weighed []) 1 (pos 5) new_one_false four_refuted → ⊥ }
    ensures model_too_short { IsBest (weighed []) 1 (pos 5) (true ∷ true ∷ false ∷ false ∷ true ∷ []) four_refuted → ⊥ }
    ensures refutation_of_another_bound { IsBest (weighed []) 1 (pos 6) both_there four_refuted → ⊥ }
    ensures no_refutation { IsBest (weighed []) 1 (pos 5) both_there [] → ⊥ }
    ensures step_not_used { IsBest (weighed []) 1 (pos 5) both_there four_refuted_twice → ⊥ }
    ensures too_great { (model : List Bool) (steps : List Step) → IsBest heavy 1 (pos (MAX_BOUND + 1)) model steps → ⊥ }
    ensures below_0 { (model : List Bool) (steps : List Step) → IsBest (weighed []) 1 (negsuc 0) model steps → ⊥ }
{}

/// No bound is met where the weakest one is refuted, and a flow is beyond every bound where it reaches 2^53 + 1.
pub fn outcomes_without_a_best_bound()
    ensures never { IsBestOutcome (weighed ((minus 1 ∷ []) ∷ [])) 1 1 (outcome.Never all_refuted) }
    ensures not_the_weakest { IsBestOutcome (weighed []) 1 1 (outcome.Never four_refuted) → ⊥ }
    ensures beyond { IsBestOutcome wide 1 1 (outcome.Beyond both_there) }
    ensures beyond_without_a_model { IsBeyond wide 1 new_one_false → ⊥ }
    ensures weight { IsBeyond (weighed []) 1 both_there → ⊥ }
    ensures spent { IsBestOutcome (weighed []) 1 0 (outcome.Unknown (pos 5) []) }
    ensures spent_on_the_weakest { IsBestOutcome (weighed []) 1 0 (outcome.Unknown (pos MAX_BOUND) []) }
    ensures not_next_after_one_met { IsBestOutcome (weighed []) 1 0 (outcome.Unknown (pos 3) []) → ⊥ }
    ensures not_spent { IsBestOutcome (weighed []) 1 1 (outcome.Unknown (pos 5) []) → ⊥ }
    ensures no_bound { IsOpen (weighed []) 1 0 (pos (MAX_BOUND + 1)) [] → ⊥ }
{}

/// A leap finds models that meet the bound of their number, from one number on, and asks for no bound before that or behind the last.
pub fn models_of_leaps()
    ensures found { IsFound wide 1 3 (record { model = both_there; number = MAX_BOUND + 1 }) }
    ensures found_before { IsFound wide 1 (MAX_BOUND + 2) (record { model = both_there; number = MAX_BOUND + 1 }) → ⊥ }
    ensures behind_the_last { (model : List Bool) → IsFound wide 1 3 (record { model = model; number = MAX_BOUND + 2 }) → ⊥ }
    ensures no_model { IsFound wide 1 3 (record { model = new_one_false; number = MAX_BOUND + 1 }) → ⊥ }
    ensures nothing_found { IsGap wide 1 3 (record { found = None; low = 3; high = MAX_BOUND + 2; step = 1; falls = true; patience = 3 }) }
    ensures asked_before { IsGap wide 1 3 (record { found = None; low = 2; high = MAX_BOUND + 2; step = 1; falls = true; patience = 3 }) → ⊥ }
    ensures asked_behind { IsGap wide 1 3 (record { found = None; low = 3; high = MAX_BOUND + 3; step = 1; falls = true; patience = 3 }) → ⊥ }
    ensures last_is_no_model { IsGap wide 1 3 (record {
      found = Some (record { model = new_one_false; number = MAX_BOUND + 1 });
      low = 3;
      high = 5;
      step = 1;
      falls = true;
      patience = 3;
    }) → ⊥ }
{}
