//! Worked rows: what `team` answers, and what it writes with a status.

ghost use Rattle.std.specs.Prelude.{ℕ, Bool, true, false, List, [], ◌∷◌, ◌++◌, codes};
ghost use Rattle.mono_steps.specs.declared.step.Step.{Step};
ghost use Rattle.mono_steps.specs.WorkedLemmas.{chain};
ghost use Rattle.mono_answer.specs.declared.answer.Answer.TheVariants as answer;
ghost use Rattle.mono_answer.specs.Printed.{answer_text};
ghost use Rattle.mono_check.specs.Verdicts.{IsVerdict};
ghost use Rattle.mono_check.specs.declared.verdict.Verdict.TheVariants as verdict;
ghost use Rattle.mono_search.specs.Worked.{two_clauses, both_signs, first_learned};
ghost use Rattle.mono_forms.specs.declared.status.Status.TheVariants as status;
ghost use Rattle.mono_forms.specs.Teams.{IsTeamAnswer, IsTeamTextBy};

/// A model and a refutation come in a turn of one of the rounds.
pub fn worked_team_answers()
    ensures model { IsTeamAnswer two_clauses 2 1 (answer.Model (true ∷ false ∷ [])) }
    ensures false_clause { IsTeamAnswer two_clauses 2 1 (answer.Model (false ∷ true ∷ [])) → ⊥ }
    ensures model_in_no_round { IsTeamAnswer two_clauses 2 0 (answer.Model (true ∷ false ∷ [])) → ⊥ }
    ensures refutation { IsTeamAnswer both_signs 2 1 (answer.Refutation (chain [] (1 ∷ 2 ∷ []) ∷ [])) }
    ensures no_refutation { IsTeamAnswer two_clauses 2 1 (answer.Refutation first_learned) → ⊥ }
    ensures refutation_of_nobody { IsTeamAnswer both_signs 0 1 (answer.Refutation (chain [] (1 ∷ 2 ∷ []) ∷ [])) → ⊥ }
    ensures few_variables { (board : List Step) → IsTeamAnswer two_clauses 2 1 (answer.Progress board) → ⊥ }
{}

/// What is written is the text of such an answer, and nothing before it.
pub fn worked_team_texts()
    ensures model { (values : List Bool) → IsTeamAnswer two_clauses 2 1 (answer.Model values)
        → IsVerdict two_clauses (answer_text (answer.Model values)) verdict.Model
        → IsTeamTextBy status.Satisfiable two_clauses 2 1 (answer_text (answer.Model values)) }
    ensures line_before_a_model { (rest : List ℕ) → IsTeamTextBy status.Satisfiable two_clauses 2 1 (codes "c x\n" ++ rest) → ⊥ }
    ensures refutation { (steps : List Step) → IsTeamAnswer both_signs 2 1 (answer.Refutation steps)
        → IsVerdict both_signs (answer_text (answer.Refutation steps)) verdict.Refutation
        → IsTeamTextBy status.Unsatisfiable both_signs 2 1 (answer_text (answer.Refutation steps)) }
    ensures line_before_a_refutation { (rest : List ℕ) → IsTeamTextBy status.Unsatisfiable both_signs 2 1 (codes "c x\n" ++ rest) → ⊥ }
    ensures model_for_a_refutation { (values : List Bool) → IsTeamTextBy status.Unsatisfiable two_clauses 2 1 (answer_text (answer.Model values)) → ⊥ }
{}
