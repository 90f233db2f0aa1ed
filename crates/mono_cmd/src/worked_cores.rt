//! Rows that were worked by hand: words that are assumptions, what `core` writes, and how runs under assumptions end.

ghost use Rattle.std.specs.Prelude.{◌≡◌, ℕ, ℤ, pos, negsuc, true, false, List, [], ◌∷◌, ◌++◌, length, Option, Some, None, codes};
ghost use Rattle.mono_base.specs.declared.limits.TheConstants.{MAX_CLAUSES, MAX_LITERALS};
ghost use Rattle.mono_io.specs.Shelf.{Texts, told_text};
ghost use Rattle.mono_problem.specs.Assuming.{assuming, HasRoom};
ghost use Rattle.mono_problem.specs.Instance.{Instance, literals_total};
ghost use Rattle.mono_gnf.specs.Stands.{Stands};
ghost use Rattle.mono_gnf.specs.declared.fault.GnfFault.TheVariants as fault;
ghost use Rattle.mono_steps.specs.New.{IsProgress};
ghost use Rattle.mono_steps.specs.WorkedLemmas.{chain, minus};
ghost use Rattle.mono_steps.specs.declared.step.Step.{Step};
ghost use Rattle.mono_answer.specs.declared.answer.Answer.TheVariants as answer;
ghost use Rattle.mono_search.specs.Worked.{first_learned, two_clauses};
ghost use Rattle.mono_check.specs.Verdicts.{IsVerdict};
ghost use Rattle.mono_check.specs.declared.verdict.Verdict.TheVariants as verdict;
ghost use Rattle.mono_core.specs.Worked.{one_clause};
ghost use Rattle.mono_core.specs.declared.outcome.Need.TheVariants as need;
ghost use Rattle.mono_core.specs.declared.outcome.CoreOutcome.TheVariants as outcome;
ghost use Rattle.mono_words.specs.declared.command.Command.TheVariants as command;
ghost use Rattle.mono_words.specs.declared.command.TheConstants.{DEFAULT_BUDGET};
ghost use Rattle.mono_forms.specs.declared.status.Status.TheVariants as status;
ghost use Rattle.mono_forms.specs.declared.ending.Ending.TheVariants as ending;
ghost use Rattle.mono_words.specs.Commands.{IsWithinRange, assumptions_of, command_of, lits_of};
ghost use Rattle.mono_forms.specs.CoreTexts.{core_line, need_text, needs_text, outcome_text};
ghost use Rattle.mono_forms.specs.Endings.{TakesMemory, status_of, text_of};
ghost use Rattle.mono_forms.specs.Solved.{IsNarrowing, judged_under, outcome_verdict};
ghost use Rattle.mono_forms.specs.Runs.{AreAlike, CheckWithWrote, EachReached, HasNoFaultWith, HasNoRoom, IsCarriedOut, IsCoreBy, IsHeld, IsNarrowed, IsSolving, Narrows};
ghost use Rattle.mono_cmd.specs.Worked.{empty_problem};

/// Words that are assumptions.
pub fn worked_assumptions()
    ensures last_variable { command_of (codes "core" ∷ codes "f" ∷ codes "-1000000" ∷ []) ≡ Some (command.Core (codes "f") (negsuc 999999 ∷ [])) }
    ensures negated_zero { command_of (codes "core" ∷ codes "f" ∷ codes "-0" ∷ []) ≡ None }
    ensures sign_alone { command_of (codes "core" ∷ codes "f" ∷ codes "-" ∷ []) ≡ None }
    ensures second_is_none { command_of (codes "core" ∷ codes "f" ∷ codes "1" ∷ codes "x" ∷ []) ≡ None }
    ensures repeated { command_of (codes "core" ∷ codes "f" ∷ codes "2" ∷ codes "1" ∷ codes "2" ∷ [])
        ≡ Some (command.Core (codes "f") (pos 2 ∷ pos 1 ∷ pos 2 ∷ [])) }
    ensures no_file { command_of (codes "core" ∷ []) ≡ None }
    ensures no_answer { command_of (codes "check-with" ∷ codes "f" ∷ []) ≡ None }
    ensures dashed_file { command_of (codes "check-with" ∷ codes "-f" ∷ codes "a" ∷ codes "3" ∷ []) ≡ None }
    ensures others_take_none { command_of (codes "solve" ∷ codes "f" ∷ codes "3" ∷ []) ≡ None }
    ensures most { (words : List (List ℕ)) → length words ≡ 1000 → assumptions_of words ≡ lits_of words }
    ensures one_more { (words : List (List ℕ)) → length words ≡ 1001 → assumptions_of words ≡ None }

    ensures literals { IsWithinRange (command.Core (codes "f") (pos 1000000 ∷ minus 1 ∷ [])) }
    ensures zero { IsWithinRange (command.Core (codes "f") (pos 1 ∷ pos 0 ∷ [])) → ⊥ }
    ensures beyond { IsWithinRange (command.CheckWith (codes "f") (codes "a") (minus 1000001 ∷ [])) → ⊥ }
{}

/// What `core` writes.
pub fn worked_core_texts()
    ensures model { text_of (ending.Narrowed (outcome.Model (true ∷ false ∷ []))) ≡ codes "s SATISFIABLE\nv 1 -2 0\n" }
    ensures progress { text_of (ending.Narrowed (outcome.Unknown first_learned)) ≡ codes "s UNKNOWN\nchain 1 0 1 2\n" }
    ensures core { text_of (ending.Narrowed (outcome.Core (minus 2 ∷ pos 1 ∷ []) (chain [] (3 ∷ 1 ∷ []) ∷ []) (need.Model (true ∷ false ∷ [])
        ∷ need.Model (false ∷ true ∷ []) ∷ []))) ≡ codes "c core -2 1 0\nc needed -2 1 -2 0\nc needed 1 -1 2 0\ns UNSATISFIABLE\nchain 0 3 1\n" }
    ensures without_assumptions { text_of (ending.Narrowed (outcome.Core [] (chain [] (1 ∷ []) ∷ []) [])) ≡ codes "c core 0\ns UNSATISFIABLE\nchain 0 1\n" }
    ensures tried { need_text (minus 3) (need.Tried (pos 1 ∷ minus 2 ∷ []) first_learned) ≡ codes "c open -3 1 -2 0\nc s UNKNOWN\nc chain 1 0 1 2\n" }
    ensures tried_alone { need_text (pos 3) (need.Tried [] []) ≡ codes "c open 3 0\nc s UNKNOWN\n" }
    ensures one_each { needs_text (pos 1 ∷ pos 2 ∷ []) (need.Model (true ∷ []) ∷ []) ≡ codes "c needed 1 1 0\n" }
    ensures none { core_line [] ≡ codes "c core 0\n" }
{}

/// How runs under assumptions end.
pub fn worked_narrowings()
    ensures model { status_of (ending.Narrowed (outcome.Model [])) ≡ status.Satisfiable }
    ensures core { status_of (ending.Narrowed (outcome.Core [] [] [])) ≡ status.Unsatisfiable }
    ensures progress { status_of (ending.Narrowed (outcome.Unknown [])) ≡ status.Unknown }
    ensures takes_memory { TakesMemory (ending.Narrowed (outcome.Model [])) }

    ensures judged_under_all { judged_under (pos 1 ∷ pos 2 ∷ []) (outcome.Unknown []) ≡ pos 1 ∷ pos 2 ∷ [] }
    ensures judged_under_the_core { judged_under (pos 1 ∷ pos 2 ∷ []) (outcome.Core (pos 2 ∷ []) [] []) ≡ pos 2 ∷ [] }
    ensures learned_clauses_count { outcome_verdict (outcome.Unknown first_learned) ≡ verdict.Progress 1 }
    ensures model_accepted { outcome_verdict (outcome.Model (true ∷ [])) ≡ verdict.Model }
    ensures core_refuted { outcome_verdict (outcome.Core [] [] []) ≡ verdict.Refutation }

    ensures core_refused { IsCarriedOut (command.Core (codes "f") (pos 1 ∷ [])) status.Refused }
    ensures core_unknown { IsCarriedOut (command.Core (codes "f") (pos 1 ∷ [])) status.Unknown }
    ensures core_judges_nothing { IsCarriedOut (command.Core (codes "f") (pos 1 ∷ [])) status.Accepted → ⊥ }
    ensures judged { IsCarriedOut (command.CheckWith (codes "f") (codes "a") (pos 1 ∷ [])) status.Rejected }
    ensures judged_finds_nothing { IsCarriedOut (command.CheckWith (codes "f") (codes "a") (pos 1 ∷ [])) status.Unsatisfiable → ⊥ }
    ensures core_solves { IsSolving (Some (command.Core (codes "f") (pos 1 ∷ []))) }
    ensures judging_solves_nothing { IsSolving (Some (command.CheckWith (codes "f") (codes "a") (pos 1 ∷ []))) → ⊥ }

    ensures other_core { AreAlike (ending.Narrowed (outcome.Core (pos 1 ∷ []) [] [])) (ending.Narrowed (outcome.Core (pos 2 ∷ []) [] [])) }
    ensures not_finished { AreAlike (ending.Narrowed (outcome.Unknown [])) (ending.Narrowed (outcome.Model [])) }
    ensures contradict { AreAlike (ending.Narrowed (outcome.Core [] [] [])) (ending.Narrowed (outcome.Model [])) → ⊥ }
    ensures contradict_too { AreAlike (ending.Narrowed (outcome.Model [])) (ending.Narrowed (outcome.Core [] [] [])) → ⊥ }
    ensures solved { AreAlike (ending.Narrowed (outcome.Model [])) (ending.Solved (answer.Model [])) → ⊥ }
{}

/// What is found under assumptions is found of these literals, with the whole budget, and within the limits of clauses.
pub fn worked_findings()
    ensures core { IsNarrowing one_clause 1 (pos 2 ∷ minus 1 ∷ []) (outcome.Core (minus 1 ∷ []) (chain [] (1 ∷ 2 ∷ []) ∷ []) (need.Model (true ∷ []) ∷ [])) }
    ensures model { IsNarrowing one_clause 1 (pos 2 ∷ []) (outcome.Model (true ∷ true ∷ [])) }
    ensures model_of_the_problem_alone { IsNarrowing one_clause 1 (pos 2 ∷ []) (outcome.Model (true ∷ false ∷ [])) → ⊥ }
    ensures progress { IsNarrowing two_clauses 1 (pos 3 ∷ []) (outcome.Unknown first_learned) }
    ensures half_of_the_budget { IsNarrowing two_clauses 2 (pos 3 ∷ []) (outcome.Unknown first_learned) → ⊥ }
    ensures no_literal { IsNarrowing one_clause 1 (pos 0 ∷ []) (outcome.Model (true ∷ [])) → ⊥ }

    ensures no_room_for_clauses { (p : Instance) → length p.clauses ≡ MAX_CLAUSES → HasNoRoom p (pos 1 ∷ []) (ending.Refused 0 fault.TooMany) }
    ensures no_room_for_literals { (p : Instance) → literals_total p ≡ MAX_LITERALS → HasNoRoom p (pos 1 ∷ []) (ending.Refused 0 fault.TooMany) }
    ensures room { HasNoRoom empty_problem (pos 1 ∷ []) (ending.Refused 0 fault.TooMany) → ⊥ }
    ensures line_is_named { (p : Instance) → HasNoRoom p (pos 1 ∷ []) (ending.Refused 1 fault.TooMany) → ⊥ }
    ensures other_fault { (p : Instance) → HasNoRoom p (pos 1 ∷ []) (ending.Refused 0 fault.UnknownWord) → ⊥ }
    ensures found_beyond { (p : Instance) → length p.clauses ≡ MAX_CLAUSES → IsNarrowed p (pos 1 ∷ []) (ending.Narrowed (outcome.Model [])) → ⊥ }
    ensures solved_alone { IsNarrowed one_clause (pos 1 ∷ []) (ending.Solved (answer.Model (true ∷ []))) → ⊥ }

    ensures found_without_the_assumption { IsNarrowed one_clause (pos 2 ∷ []) (ending.Narrowed (outcome.Model (true ∷ false ∷ []))) → ⊥ }
    ensures found_within_one_clause { IsNarrowed two_clauses (pos 3 ∷ []) (ending.Narrowed (outcome.Unknown first_learned)) → ⊥ }

    ensures other_text { IsCoreBy status.Satisfiable one_clause (pos 2 ∷ []) (codes "s SATISFIABLE\nv 1 -2 0\n") → ⊥ }
    ensures core_that_is_not_assumed { IsCoreBy status.Unsatisfiable one_clause [] (codes "c core -1 0\nc needed -1 1 0\ns UNSATISFIABLE\nchain 0 1 2\n") → ⊥ }
    ensures progress_of_one_chain { IsCoreBy status.Unknown two_clauses (pos 3 ∷ []) (codes "s UNKNOWN\nchain 1 0 1 2\n") → ⊥ }
    ensures progress_written { (p : Instance) (lits : List ℤ) (steps : List Step) → IsProgress (assuming p lits) DEFAULT_BUDGET steps
        → IsVerdict (assuming p lits) (outcome_text (outcome.Unknown steps)) (verdict.Progress DEFAULT_BUDGET)
        → IsCoreBy status.Unknown p lits (outcome_text (outcome.Unknown steps)) }
    ensures line_before_progress { (rest : List ℕ) → IsCoreBy status.Unknown two_clauses (pos 3 ∷ []) (codes "c" ++ rest) → ⊥ }
    ensures too_few_variables { (text : List ℕ) → IsCoreBy status.Unknown one_clause (pos 1 ∷ []) text → ⊥ }
    ensures core_without_a_refutation { IsCoreBy status.Unsatisfiable one_clause (minus 1 ∷ []) (codes "c core -1 0\nc needed -1 1 0\ns UNSATISFIABLE\n") → ⊥ }
    ensures core_without_a_line { IsCoreBy status.Unsatisfiable one_clause (minus 1 ∷ []) (codes "s UNSATISFIABLE\nchain 0 1 2\n") → ⊥ }
{}

/// ANSWER is needed only where FILE has no fault and there is room for the assumptions.
pub fn worked_needs_with()
    ensures core { EachReached (IsHeld (Some ((codes "f", codes "") ∷ []))) (Some ((codes "f", codes "") ∷ [])) (command.Core (codes "f") (pos 1 ∷ [])) }
    ensures no_file { EachReached (IsHeld (Some ((codes "a", codes "") ∷ []))) (Some ((codes "a", codes "") ∷ []))
        (command.CheckWith (codes "f") (codes "a") (pos 1 ∷ [])) → ⊥ }
    ensures no_answer { EachReached (IsHeld (Some ((codes "f", codes "") ∷ []))) (Some ((codes "f", codes "") ∷ []))
        (command.CheckWith (codes "f") (codes "a") (pos 1 ∷ [])) → ⊥ }
    ensures no_answer_needed { EachReached (IsHeld (Some ((codes "f", codes "x") ∷ []))) (Some ((codes "f", codes "x") ∷ []))
        (command.CheckWith (codes "f") (codes "a") (pos 1 ∷ [])) }
    ensures both { EachReached (IsHeld (Some ((codes "f", codes "") ∷ (codes "a", codes "") ∷ []))) (Some ((codes "f", codes "")
        ∷ (codes "a", codes "") ∷ [])) (command.CheckWith (codes "f") (codes "a") (pos 1 ∷ [])) }
    ensures no_room { (texts : Option Texts) (file text : List ℕ) (p : Instance) (lits : List ℤ) → told_text texts file ≡ Some text → Stands text p
        → (HasRoom p lits → ⊥) → HasNoFaultWith texts file lits → ⊥ }
    ensures runs { Narrows (Some (command.Core (codes "f") (pos 1 ∷ []))) (Some ((codes "f", codes "") ∷ [])) empty_problem (pos 1 ∷ []) }
    ensures wrote { CheckWithWrote (Some (command.CheckWith (codes "f") (codes "a") (pos 1 ∷ []))) (Some ((codes "f", codes "") ∷ []))
        (Some (codes "x")) (Some (codes "xaccepted model\n")) empty_problem (pos 1 ∷ []) (codes "accepted model\n") }
    ensures other_literals { Narrows (Some (command.Core (codes "f") (pos 1 ∷ []))) (Some ((codes "f", codes "") ∷ [])) empty_problem (pos 2 ∷ []) → ⊥ }
{}
