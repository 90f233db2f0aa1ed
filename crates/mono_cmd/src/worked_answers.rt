//! Worked rows: what `solve` may answer, and what it may not.

ghost use Rattle.std.specs.Prelude.{◌≡◌, [], ◌∷◌, true, false, codes};
ghost use Rattle.mono_answer.specs.declared.answer.Answer.TheVariants as answer;
ghost use Rattle.mono_check.specs.declared.verdict.Verdict.TheVariants as verdict;
ghost use Rattle.mono_steps.specs.Worked.{clauses_over};
ghost use Rattle.mono_steps.specs.WorkedLemmas.{barred, with_two_lemmas, with_one_lemma};
ghost use Rattle.mono_search.specs.Worked.{two_clauses, first_learned};
ghost use Rattle.mono_forms.specs.Solved.{IsAnswer, verdict_of};
ghost use Rattle.mono_forms.specs.Runs.{IsVerdictBy};
ghost use Rattle.mono_forms.specs.declared.status.Status.TheVariants as status;

/// Progress has as many learned clauses as the budget says, no fewer and no more.
pub fn worked_progress()
    ensures spent { IsAnswer two_clauses 1 (answer.Progress first_learned) }
    ensures not_yet { IsAnswer two_clauses 2 (answer.Progress first_learned) → ⊥ }
    ensures past { IsAnswer two_clauses 0 (answer.Progress first_learned) → ⊥ }
{}

/// A refutation has nothing that it doesn't rest on, and ends in the empty clause.
pub fn worked_refutation()
    ensures refutation { IsAnswer barred 1 (answer.Refutation with_one_lemma) }
    ensures not_trimmed { IsAnswer barred 1 (answer.Refutation with_two_lemmas) → ⊥ }
    ensures no_end { IsAnswer two_clauses 1 (answer.Refutation first_learned) → ⊥ }
{}

/// A model satisfies the problem, whatever the budget is.
pub fn worked_model()
    ensures model { IsAnswer two_clauses 1 (answer.Model (true ∷ false ∷ [])) }
    ensures false_clause { IsAnswer two_clauses 1 (answer.Model (false ∷ true ∷ [])) → ⊥ }
{}

/// The verdict of `check` on the text of what `solve` answers.
pub fn worked_verdicts()
    ensures model_accepted { verdict_of (answer.Model (true ∷ [])) ≡ verdict.Model }
    ensures refutation_accepted { verdict_of (answer.Refutation with_one_lemma) ≡ verdict.Refutation }
    ensures learned_clauses_count { verdict_of (answer.Progress first_learned) ≡ verdict.Progress 1 }
{}

/// What `solve` writes with each status: with `Unknown` the text of progress, whole and alone, of the whole budget.
pub fn worked_answer_texts()
    ensures model { IsVerdictBy status.Satisfiable two_clauses 1 (codes "s SATISFIABLE\nv 1 2 0\n") }
    ensures other_model { IsVerdictBy status.Satisfiable two_clauses 1 (codes "s SATISFIABLE\nv -1 2 0\n") → ⊥ }
    ensures no_refutation { IsVerdictBy status.Unsatisfiable two_clauses 1 (codes "s SATISFIABLE\nv 1 2 0\n") → ⊥ }
    ensures progress { IsVerdictBy status.Unknown two_clauses 1 (codes "s UNKNOWN\nchain 1 0 1 2\n") }
    ensures other_budget { IsVerdictBy status.Unknown two_clauses 2 (codes "s UNKNOWN\nchain 1 0 1 2\n") → ⊥ }
    ensures line_before { IsVerdictBy status.Unknown two_clauses 1 (codes "c\ns UNKNOWN\nchain 1 0 1 2\n") → ⊥ }
    ensures too_few_variables { IsVerdictBy status.Unknown (clauses_over 0 ([] ∷ [])) 1 (codes "s UNKNOWN\nchain 0 1\n") → ⊥ }
{}
