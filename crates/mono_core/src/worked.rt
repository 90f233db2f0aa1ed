//! Worked rows: what the definitions make of needs, cores, outcomes, minimal sets and dropped assumptions.

ghost use Rattle.std.specs.Prelude.{◌≡◌, ℕ, true, false, List, [], ◌∷◌, pos, None, Some};
ghost use Rattle.mono_steps.specs.declared.step.Step.{Step};
ghost use Rattle.mono_steps.specs.WorkedLemmas.{minus, chain};
ghost use Rattle.mono_search.specs.Worked.{both_signs};
ghost use Rattle.mono_core.specs.Cores.{AreNeeds, IsCore, IsNeed, IsCoreOutcome, IsLeftAt, IsTried, others_of};
ghost use Rattle.mono_core.specs.Dropped.{are_over, is_over, steps_without};
ghost use Rattle.mono_core.specs.Minimal.{IsMinimal, IsModelNeed};
ghost use Rattle.mono_core.specs.Worked.{one_clause};
ghost use Rattle.mono_core.specs.declared.outcome.CoreOutcome.TheVariants as outcome;
ghost use Rattle.mono_core.specs.declared.outcome.Need.TheVariants as need;

/// The others are told by places: of a repeated assumption one stays.
pub fn other_assumptions()
    ensures repeated { others_of (pos 1 ∷ pos 2 ∷ pos 1 ∷ []) (true ∷ true ∷ true ∷ []) 0 ≡ pos 2 ∷ pos 1 ∷ [] }
    ensures dropped { others_of (pos 1 ∷ pos 2 ∷ pos 3 ∷ []) (true ∷ false ∷ true ∷ []) 2 ≡ pos 1 ∷ [] }
    ensures alone { others_of (pos 1 ∷ []) (true ∷ []) 0 ≡ [] }
{}

/// One need for each assumption that is kept, told by its place.
pub fn needs_by_place()
    ensures none { AreNeeds (λ j n. IsModelNeed n) 0 (false ∷ []) [] }
    ensures too_few { AreNeeds (λ j n. IsModelNeed n) 0 (true ∷ false ∷ []) [] → ⊥ }
    ensures too_many { AreNeeds (λ j n. IsModelNeed n) 0 (true ∷ false ∷ []) (need.Model [] ∷ need.Model [] ∷ []) → ⊥ }
    ensures tried { AreNeeds (λ j n. IsModelNeed n) 0 (true ∷ []) (need.Tried [] [] ∷ []) → ⊥ }
    ensures own_place { AreNeeds (λ j n. j ≡ 1) 0 (false ∷ true ∷ []) (need.Model [] ∷ []) }
    ensures other_place { AreNeeds (λ j n. j ≡ 1) 0 (true ∷ false ∷ []) (need.Model [] ∷ []) → ⊥ }
{}

/// {1} has a model, and none under -1.
pub fn needs()
    ensures model { IsNeed one_clause 1 (minus 1 ∷ []) (true ∷ []) 0 (need.Model (true ∷ [])) }
    ensures no_model { IsNeed one_clause 1 (minus 1 ∷ []) (true ∷ []) 0 (need.Model (false ∷ [])) → ⊥ }
    ensures too_short { IsNeed one_clause 1 (minus 1 ∷ []) (true ∷ []) 0 (need.Model []) → ⊥ }
    ensures too_long { IsNeed one_clause 1 (minus 1 ∷ pos 2 ∷ []) (true ∷ false ∷ []) 0 (need.Model (true ∷ true ∷ [])) → ⊥ }
    ensures tried_with_itself { (budget : ℕ) (steps : List Step) → IsTried one_clause budget (minus 1 ∷ []) (true ∷ []) 0 (minus 1 ∷ []) steps → ⊥ }
{}

/// A core is some of the assumptions, with a refutation under them each of whose steps but the last is named later.
pub fn cores()
    ensures core { IsCore one_clause 1 (pos 2 ∷ minus 1 ∷ []) (minus 1 ∷ []) (chain [] (1 ∷ 2 ∷ []) ∷ []) (need.Model (true ∷ []) ∷ []) }
    ensures no_refutation { IsCore one_clause 1 (minus 1 ∷ []) (minus 1 ∷ []) [] (need.Model (true ∷ []) ∷ []) → ⊥ }
    ensures number_of_the_larger_list { IsCore one_clause 1 (pos 2 ∷ minus 1 ∷ []) (minus 1 ∷ [])
        (chain [] (1 ∷ 3 ∷ []) ∷ []) (need.Model (true ∷ []) ∷ []) → ⊥ }
    ensures named_later { IsCore one_clause 1 (pos 2 ∷ minus 1 ∷ []) (minus 1 ∷ [])
        (chain (pos 1 ∷ []) (1 ∷ []) ∷ chain [] (3 ∷ 2 ∷ []) ∷ []) (need.Model (true ∷ []) ∷ []) }
    ensures idle_chain { IsCore one_clause 1 (pos 2 ∷ minus 1 ∷ []) (minus 1 ∷ [])
        (chain (pos 1 ∷ []) (1 ∷ []) ∷ chain [] (1 ∷ 2 ∷ []) ∷ []) (need.Model (true ∷ []) ∷ []) → ⊥ }
{}

/// The variable of a dropped assumption is none of the first.
pub fn variables_that_are_left()
    ensures first { is_over 2 (pos 1 ∷ minus 2 ∷ []) ≡ true }
    ensures beyond { is_over 2 (pos 1 ∷ minus 3 ∷ []) ≡ false }
    ensures no_literal { is_over 2 (pos 0 ∷ []) ≡ false }
    ensures each_step { are_over 2 (chain (pos 1 ∷ []) [] ∷ chain (minus 2 ∷ []) [] ∷ []) ≡ true }
    ensures first_step_beyond { are_over 2 (chain (pos 3 ∷ []) [] ∷ chain (pos 1 ∷ []) [] ∷ []) ≡ false }
{}

/// A clause of the problem keeps its number, and the steps are numbered behind the assumptions that stay.
pub fn steps_behind_fewer_assumptions()
    ensures { steps_without 1 (false ∷ true ∷ []) (chain (pos 1 ∷ []) (1 ∷ 3 ∷ []) ∷ chain [] (4 ∷ 3 ∷ []) ∷ [])
        ≡ chain (pos 1 ∷ []) (1 ∷ 2 ∷ []) ∷ chain [] (3 ∷ 2 ∷ []) ∷ [] }
{}

/// What was tried has all others that are kept, and the whole budget was spent on it.
pub fn tried_assumptions()
    ensures spent { IsTried one_clause 0 (minus 1 ∷ []) (true ∷ []) 0 [] [] }
    ensures unspent { IsTried one_clause 1 (minus 1 ∷ []) (true ∷ []) 0 [] [] → ⊥ }
    ensures need_unspent { IsNeed one_clause 1 (minus 1 ∷ []) (true ∷ []) 0 (need.Tried [] []) → ⊥ }
    ensures model_that_breaks_another { IsNeed one_clause 1 (pos 2 ∷ minus 1 ∷ []) (true ∷ true ∷ []) 0 (need.Model (true ∷ [])) → ⊥ }
    ensures other_left_out { IsTried one_clause 0 (minus 1 ∷ pos 1 ∷ []) (true ∷ true ∷ []) 0 [] [] → ⊥ }
    ensures earlier_left_out { IsTried one_clause 0 (minus 1 ∷ pos 1 ∷ []) (true ∷ true ∷ []) 1 [] [] → ⊥ }
    ensures not_assumed { IsTried one_clause 0 (minus 1 ∷ []) (true ∷ []) 0 (pos 2 ∷ []) [] → ⊥ }
    ensures more_flags { IsTried one_clause 0 [] (true ∷ true ∷ []) 0 [] [] → ⊥ }
{}

/// A core's literals are assumptions, and each need is that of one of these.
pub fn assumptions_kept()
    ensures not_assumed { IsCore one_clause 1 (pos 2 ∷ []) (minus 1 ∷ []) (chain [] (1 ∷ 2 ∷ []) ∷ []) (need.Model (true ∷ []) ∷ []) → ⊥ }
    ensures no_need { IsCore one_clause 1 (minus 1 ∷ []) (minus 1 ∷ []) (chain [] (1 ∷ 2 ∷ []) ∷ []) (need.Model (false ∷ []) ∷ []) → ⊥ }
    ensures need_of_none { IsCore one_clause 0 (minus 1 ∷ []) (minus 1 ∷ []) (chain [] (1 ∷ 2 ∷ []) ∷ [])
        (need.Model (true ∷ []) ∷ need.Tried (minus 1 ∷ []) [] ∷ []) → ⊥ }
{}

/// A model is one under all assumptions, and what is unknown spent the budget.
pub fn outcomes()
    ensures model { IsCoreOutcome one_clause 1 (pos 1 ∷ []) (outcome.Model (true ∷ [])) }
    ensures of_the_problem_alone { IsCoreOutcome one_clause 1 (minus 1 ∷ []) (outcome.Model (true ∷ [])) → ⊥ }
    ensures spent { IsCoreOutcome one_clause 0 (minus 1 ∷ []) (outcome.Unknown []) }
    ensures unspent { IsCoreOutcome one_clause 1 (minus 1 ∷ []) (outcome.Unknown []) → ⊥ }
{}

/// Each member of a minimal set is needed, and the whole set has no model.
pub fn minimal_sets()
    ensures has_a_model { IsMinimal one_clause [] → ⊥ }
    ensures minimal { IsMinimal one_clause (minus 1 ∷ []) }
    ensures needless { IsMinimal one_clause (pos 2 ∷ minus 1 ∷ []) → ⊥ }
    ensures needless_last { IsMinimal one_clause (minus 1 ∷ pos 2 ∷ []) → ⊥ }
    ensures needless_alone { IsMinimal both_signs (pos 1 ∷ []) → ⊥ }
{}

/// Of what short searches found, a budget that was spent shows nothing; what isn't kept and models stay.
pub fn left_by_short_searches()
    ensures dropped { IsLeftAt one_clause (minus 1 ∷ []) (false ∷ []) 0 None }
    ensures kept { IsLeftAt one_clause (minus 1 ∷ []) (true ∷ []) 0 None → ⊥ }
    ensures spent { IsLeftAt one_clause (minus 1 ∷ []) (true ∷ []) 0 (Some (need.Tried [] [])) }
    ensures no_model { IsLeftAt one_clause (minus 1 ∷ []) (true ∷ []) 0 (Some (need.Model (false ∷ []))) → ⊥ }
{}
