//! Worked rows: which steps a trimmed refutation keeps, by which numbers, and how many there may be.

ghost use Rattle.std.specs.Prelude.{◌≡◌, ℕ, ◌<◌, ◌^◌, pos, List, [], ◌∷◌, length, true, false};
ghost use Rattle.mono_problem.specs.Instance.{Instance};
ghost use Rattle.mono_steps.specs.declared.step.Step.{Step};
ghost use Rattle.mono_steps.specs.Needed.{AreNumbers};
ghost use Rattle.mono_steps.specs.New.{IsProgress};
ghost use Rattle.mono_steps.specs.Renumbering.{rank};
ghost use Rattle.mono_steps.specs.Trimmed.{IsNamedLater, IsTrimRefutation, IsTrimmed, renumbered};
ghost use Rattle.mono_steps.specs.Worked.{clauses_over};
ghost use Rattle.mono_steps.specs.WorkedLemmas.{barred, chain, edge_1_reaches, minus, with_two_lemmas, with_one_lemma};
ghost use Rattle.mono_rows.specs.Refutations.{with_unnamed_lemma, with_turned_lemma};

/// Of two equal lemmas the chain names the second, so the first one goes and the chain's number with it.
pub fn trimmed_refutation()
    ensures trimmed { IsTrimmed barred with_two_lemmas with_one_lemma }
    ensures as_it_was { IsTrimmed barred with_one_lemma with_one_lemma }
    ensures not_trimmed { IsTrimmed barred with_two_lemmas with_two_lemmas → ⊥ }
    ensures nothing_left { IsTrimmed barred with_two_lemmas [] → ⊥ }
{}

/// The lemma that the chain names is kept, although another one has the same literals. No other step takes its place.
pub fn named_lemmas_are_kept()
    ensures kept { IsTrimmed barred with_unnamed_lemma with_one_lemma }
    ensures dropped { IsTrimmed barred with_unnamed_lemma with_turned_lemma → ⊥ }
    ensures unnamed_before_the_last { IsTrimmed barred with_unnamed_lemma with_unnamed_lemma → ⊥ }
    ensures none_of_the_old_steps { IsTrimmed barred with_one_lemma with_turned_lemma → ⊥ }
{}

/// The last step is kept, also where the one before it has the empty clause already.
pub fn last_step_is_kept()
    ensures { IsTrimmed (clauses_over 1 ((pos 1 ∷ []) ∷ (minus 1 ∷ []) ∷ [])) (chain [] (1 ∷ 2 ∷ []) ∷ chain [] (3 ∷ []) ∷ [])
        (chain [] (1 ∷ 2 ∷ []) ∷ []) → ⊥ }
{}

/// A trimmed refutation has fewer than 2^63 steps, and so has a search whose budget is spent.
pub fn fewer_steps_than_memory()
    ensures refutation { (p : Instance) (steps : List Step) → IsTrimRefutation p steps → length steps < 2 ^ 63 }
    ensures progress { (p : Instance) (budget : ℕ) (steps : List Step) → IsProgress p budget steps → length steps < 2 ^ 63 }
{}

/// A step has to be named by a later one.
pub fn steps_named_later()
    ensures lemma { IsNamedLater 2 with_one_lemma 0 }
    ensures second { IsNamedLater 2 with_two_lemmas 1 }
    ensures first { IsNamedLater 2 with_two_lemmas 0 → ⊥ }
    ensures last { IsNamedLater 2 with_one_lemma 1 → ⊥ }
    ensures by_itself { IsNamedLater 2 (edge_1_reaches ∷ chain [] (4 ∷ []) ∷ []) 1 → ⊥ }
{}

/// The problem's clauses keep their numbers, and the needed steps are numbered behind them.
pub fn new_numbers()
    ensures of_the_problem { renumbered 2 (false ∷ true ∷ true ∷ []) 2 ≡ 2 }
    ensures second { renumbered 2 (false ∷ true ∷ true ∷ []) 4 ≡ 3 }
    ensures third { renumbered 2 (false ∷ true ∷ true ∷ []) 5 ≡ 4 }
    ensures all_needed { renumbered 2 (true ∷ true ∷ []) 4 ≡ 4 }
    ensures of_all_flags { rank (true ∷ false ∷ true ∷ []) 3 ≡ 2 }
{}

/// The new number of a step that goes is that of the next one that stays.
pub fn numbers_of_steps()
    ensures numbers { AreNumbers 2 (false ∷ true ∷ false ∷ []) (3 ∷ 3 ∷ 4 ∷ []) }
    ensures none_goes { AreNumbers 2 (false ∷ true ∷ false ∷ []) (3 ∷ 4 ∷ 5 ∷ []) → ⊥ }
    ensures too_few { AreNumbers 2 (false ∷ true ∷ false ∷ []) (3 ∷ 3 ∷ []) → ⊥ }
{}
