//! Worked rows: which learned clauses are new.

ghost use Rattle.std.specs.Prelude.{[], ◌∷◌, pos};
ghost use Rattle.mono_steps.specs.declared.lemma.Witness.TheVariants as by;
ghost use Rattle.mono_steps.specs.declared.step.Step.TheVariants as step;
ghost use Rattle.mono_steps.specs.New.{HasNewChains, AreNew};
ghost use Rattle.mono_steps.specs.Worked.{clauses_over};
ghost use Rattle.mono_steps.specs.WorkedLemmas.{minus, chain, of_1};

/// From {1, 2} and {1, -2} comes {1}, which is new: where 1 is open, unit propagation has nothing to do.
pub fn first_learned_clause()
    ensures { AreNew (clauses_over 2 ((pos 1 ∷ pos 2 ∷ []) ∷ (pos 1 ∷ minus 2 ∷ []) ∷ [])) (chain (pos 1 ∷ []) (1 ∷ 2 ∷ []) ∷ []) }
{}

/// The empty clause is never new, and a refutation has new chains before it.
pub fn empty_clause()
    ensures not_new { AreNew (clauses_over 1 ((pos 1 ∷ []) ∷ (minus 1 ∷ []) ∷ [])) (chain [] (1 ∷ 2 ∷ []) ∷ []) → ⊥ }
    ensures left_out { HasNewChains (clauses_over 1 ((pos 1 ∷ []) ∷ (minus 1 ∷ []) ∷ [])) (chain [] (1 ∷ 2 ∷ []) ∷ []) }
{}

/// A lemma takes a number, and unit propagation doesn't go over its clause.
pub fn lemma_before_a_chain()
    ensures { AreNew (clauses_over 2 ((pos 1 ∷ pos 2 ∷ []) ∷ [])) (step.Lemma (of_1 (pos 1 ∷ minus 2 ∷ []) (by.Path []))
        ∷ chain (pos 1 ∷ []) (1 ∷ 2 ∷ []) ∷ []) }
{}

/// Unit propagation over {1, 2} and {-1, 3} gives 3 where 2 is false, and 2 where 3 is false, so {2, 3} isn't new.
pub fn resolvent_that_propagates()
    ensures { AreNew (clauses_over 3 ((pos 1 ∷ pos 2 ∷ []) ∷ (minus 1 ∷ pos 3 ∷ []) ∷ [])) (chain (pos 2 ∷ pos 3 ∷ []) (1 ∷ 2 ∷ []) ∷ []) → ⊥ }
{}

/// A clause that holds more than the end of its chain isn't new, and neither is one that comes again, also with one more
/// literal.
pub fn wider_and_repeated_clauses()
    ensures wider { AreNew (clauses_over 3 ((pos 1 ∷ pos 2 ∷ []) ∷ (pos 1 ∷ minus 2 ∷ []) ∷ [])) (chain (pos 1 ∷ pos 3 ∷ []) (1 ∷ 2 ∷ []) ∷ []) → ⊥ }
    ensures again { AreNew (clauses_over 2 ((pos 1 ∷ pos 2 ∷ []) ∷ (pos 1 ∷ minus 2 ∷ []) ∷ [])) (chain (pos 1 ∷ []) (1 ∷ 2 ∷ [])
        ∷ chain (pos 1 ∷ []) (1 ∷ 2 ∷ []) ∷ []) → ⊥ }
    ensures again_wider { AreNew (clauses_over 3 ((pos 1 ∷ pos 2 ∷ []) ∷ (pos 1 ∷ minus 2 ∷ []) ∷ (pos 2 ∷ pos 3 ∷ []) ∷ [])) (chain (pos 1 ∷ []) (1
        ∷ 2 ∷ []) ∷ chain (pos 1 ∷ pos 3 ∷ []) (2 ∷ 3 ∷ []) ∷ []) → ⊥ }
    ensures of_the_problem { AreNew (clauses_over 1 ((pos 1 ∷ []) ∷ [])) (chain (pos 1 ∷ []) (1 ∷ []) ∷ []) → ⊥ }
{}

/// A chain names earlier clauses alone.
pub fn unknown_number()
    ensures { AreNew (clauses_over 2 ((pos 1 ∷ pos 2 ∷ []) ∷ (pos 1 ∷ minus 2 ∷ []) ∷ [])) (chain (pos 1 ∷ []) (1 ∷ 2 ∷ 3 ∷ []) ∷ []) → ⊥ }
{}

/// 0 is no literal, and no clause is new by it.
pub fn zero_is_no_literal()
    ensures { AreNew (clauses_over 1 ((pos 0 ∷ pos 1 ∷ []) ∷ (pos 0 ∷ minus 1 ∷ []) ∷ [])) (chain (pos 0 ∷ []) (1 ∷ 2 ∷ []) ∷ []) → ⊥ }
{}
