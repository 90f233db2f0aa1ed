//! Worked rows: what is written and behind what, which files are come to, what answers are, and within which numbers words stay.

ghost use Rattle.std.specs.Prelude.{◌≡◌, ◌≤◌, ◌+◌, ◌⊎◌, ◌++◌, ℕ, ℤ, pos, Bool, List, [], ◌∷◌, length, Some, None, All, codes};
ghost use Rattle.mono_base.specs.declared.limits.TheConstants.{MAX_ANSWER_BYTES, MAX_BOUND, MAX_INPUT_BYTES, MAX_VARS};
ghost use Rattle.mono_base.specs.Literal.{IsLitWithin};
ghost use Rattle.mono_problem.specs.Assuming.{assuming, HasRoom};
ghost use Rattle.mono_problem.specs.Instance.{Instance, edges_total};
ghost use Rattle.mono_gnf.specs.Faults.{first_fault};
ghost use Rattle.mono_gnf.specs.Stands.{Stands};
ghost use Rattle.mono_gen.specs.declared.kind.GenKind.{GenKind};
ghost use Rattle.mono_steps.specs.Journals.{chain_count};
ghost use Rattle.mono_steps.specs.New.{IsProgress};
ghost use Rattle.mono_steps.specs.Trimmed.{IsTrimmed};
ghost use Rattle.mono_steps.specs.declared.step.Step.{Step};
ghost use Rattle.mono_search.specs.Worked.{two_clauses};
ghost use Rattle.mono_answer.specs.Printed.{answer_text};
ghost use Rattle.mono_answer.specs.declared.answer.Answer.{Answer};
ghost use Rattle.mono_answer.specs.declared.answer.Answer.TheVariants as answer;
ghost use Rattle.mono_answer.specs.declared.version.Version.{Version};
ghost use Rattle.mono_check.specs.Verdicts.{IsVerdict};
ghost use Rattle.mono_check.specs.declared.verdict.Verdict.TheVariants as verdict;
ghost use Rattle.mono_core.specs.Cores.{IsCoreOutcome};
ghost use Rattle.mono_core.specs.Worked.{one_clause};
ghost use Rattle.mono_core.specs.declared.outcome.CoreOutcome.{CoreOutcome};
ghost use Rattle.mono_best.specs.Asking.{asking, predicate_of};
ghost use Rattle.mono_best.specs.Best.{IsBest, IsBestOutcome, IsBeyond, IsOpen};
ghost use Rattle.mono_best.specs.Bounds.{beyond, weakest};
ghost use Rattle.mono_best.specs.Optimum.{IsNeverMet, IsOptimum};
ghost use Rattle.mono_best.specs.Worked.{weighed};
ghost use Rattle.mono_best.specs.declared.outcome.BestOutcome.{BestOutcome};
ghost use Rattle.mono_best.specs.declared.outcome.BestOutcome.TheVariants as bounded;
ghost use Rattle.mono_portfolio.specs.Ends.{IsModelOfTurn, IsRefutationOfTurn};
ghost use Rattle.mono_portfolio.specs.Outcomes.{IsBoardOfRounds};
ghost use Rattle.mono_words.specs.declared.command.Command.{Command as CommandOf};
ghost use Rattle.mono_words.specs.declared.command.Command.TheVariants as command;
ghost use Rattle.mono_words.specs.declared.command.TheConstants.{DEFAULT_BUDGET, MAX_MIGRATED_BYTES};
ghost use Rattle.mono_forms.specs.declared.ending.Ending.{Ending as EndingOf};
ghost use Rattle.mono_forms.specs.declared.ending.Ending.TheVariants as ending;
ghost use Rattle.mono_forms.specs.declared.status.Status.TheVariants as status;
ghost use Rattle.mono_forms.specs.declared.summary.Summary.{Summary as SummaryOf};
ghost use Rattle.mono_forms.specs.BestTexts.{best_text};
ghost use Rattle.mono_words.specs.Commands.{IsWithinRange, command_of, files_of};
ghost use Rattle.mono_forms.specs.CoreTexts.{outcome_text};
ghost use Rattle.mono_forms.specs.Endings.{progress_text, status_of, verdict_text};
ghost use Rattle.mono_cmd.specs.Refusals.{IsUnaskedBy};
ghost use Rattle.mono_forms.specs.Runs.{AreAlike, CheckWithWrote, CheckWrote, EachReached, HasNoFault, HasNoFaultWith, IsBestBy, IsHeld, IsJudgmentBy, IsSummaryBy, Writes, summary_of};
ghost use Rattle.mono_forms.specs.Solved.{IsAnswer, IsBounding, IsNarrowing, IsSolution, IsSummary, best_verdict, judged_bound, judged_under, outcome_verdict, verdict_of};
ghost use Rattle.mono_forms.specs.Teams.{IsTeamAnswer, IsTeamSolution, IsTeamTextBy, IsTeamed};
ghost use Rattle.mono_cmd.specs.Worked.{empty_problem, one_file, two_files};

/// The six lines of a summary, by the status, and the text of progress behind them.
pub fn worked_summaries()
    ensures model { IsSummaryBy status.Satisfiable (weighed [])
        (codes "variables 5\nclauses 0\nedges 2\npredicates 1\nresult satisfiable\nverdict accepted model\n") }
    ensures refutation_for_a_model { IsSummaryBy status.Satisfiable (weighed [])
        (codes "variables 5\nclauses 0\nedges 2\npredicates 1\nresult unsatisfiable\nverdict accepted refutation\n") → ⊥ }
    ensures refutation { IsSummaryBy status.Unsatisfiable (weighed [])
        (codes "variables 5\nclauses 0\nedges 2\npredicates 1\nresult unsatisfiable\nverdict accepted refutation\n") }
    ensures model_for_a_refutation { IsSummaryBy status.Unsatisfiable (weighed [])
        (codes "variables 5\nclauses 0\nedges 2\npredicates 1\nresult satisfiable\nverdict accepted model\n") → ⊥ }
    ensures progress { (p : Instance) (steps : List Step) → IsProgress p DEFAULT_BUDGET steps
        → IsSummaryBy status.Unknown p (summary_of p (codes "unknown") (verdict_text (verdict.Progress 100000)) ++ answer_text (answer.Progress steps)) }
    ensures few_variables { (text : List ℕ) → IsSummaryBy status.Unknown two_clauses text → ⊥ }
{}

/// What is written is the verdict on ANSWER, or a part of the text that is due, and it is said of its command, its problem and what
/// stood there.
pub fn worked_wrote()
    ensures whole_text_is_no_part { Writes ending.TooLong status.WriteFault (Some (codes "x")) (Some (codes "xtoo long\n")) → ⊥ }
    ensures judged_falsely { (p : Instance) (given : List ℕ) → IsVerdict p given verdict.Model
        → IsJudgmentBy status.Accepted p given (codes "accepted refutation\n") → ⊥ }
    ensures room_to_judge { (p : Instance) (lits : List ℤ) (written : List ℕ) → HasRoom p lits
        → IsUnaskedBy (Some (command.CheckWith (codes "f") (codes "a") lits)) p written → ⊥ }

    ensures wrote_by_another { CheckWrote (Some (command.Print (codes "f"))) (Some (one_file (codes ""))) (Some (codes "x"))
        (Some (codes "xaccepted model\n")) empty_problem (codes "accepted model\n") → ⊥ }
    ensures wrote_of_another_problem { CheckWrote (Some (command.Check (codes "f") (codes "a"))) (Some (one_file (codes ""))) (Some (codes "x"))
        (Some (codes "xaccepted model\n")) one_clause (codes "accepted model\n") → ⊥ }
    ensures wrote_behind_the_untold { CheckWrote (Some (command.Check (codes "f") (codes "a"))) (Some (one_file (codes ""))) None
        (Some (codes "xaccepted model\n")) empty_problem (codes "accepted model\n") → ⊥ }
    ensures wrote_another { CheckWrote (Some (command.Check (codes "f") (codes "a"))) (Some (one_file (codes ""))) (Some (codes "x"))
        (Some (codes "xaccepted refutation\n")) empty_problem (codes "accepted model\n") → ⊥ }
    ensures wrote_with_other_literals { CheckWithWrote (Some (command.CheckWith (codes "f") (codes "a") (pos 1 ∷ []))) (Some (one_file (codes "")))
        (Some (codes "x")) (Some (codes "xaccepted model\n")) empty_problem (pos 2 ∷ []) (codes "accepted model\n") → ⊥ }
{}

/// Which files a command comes to, each with its limit, and that a text at its limit is within it.
pub fn worked_reached()
    ensures at_the_limit { (text : List ℕ) → length text ≡ MAX_INPUT_BYTES → first_fault text ≡ None → HasNoFault (Some (one_file text)) (codes "f") }
    ensures at_the_limit_with { (text : List ℕ) (p : Instance) (lits : List ℤ) → length text ≡ MAX_INPUT_BYTES → Stands text p → HasRoom p lits
        → HasNoFaultWith (Some (one_file text)) (codes "f") lits }
    ensures nothing_held { (found : CommandOf) → EachReached (IsHeld (Some [])) (Some []) found → files_of (Some found) ≡ [] }
    ensures limit_of_an_input { EachReached (λ file limit. limit ≡ MAX_INPUT_BYTES) (Some two_files) (command.Print (codes "f")) }
    ensures limit_of_an_answer { EachReached (λ file limit. file ≡ codes "b" → limit ≡ MAX_ANSWER_BYTES) (Some two_files)
        (command.Check (codes "f") (codes "b")) }
    ensures limit_of_an_answer_to_migrate { (v : Version) → EachReached (λ file limit. file ≡ codes "b" → limit ≡ MAX_MIGRATED_BYTES) (Some two_files)
        (command.Migrate (codes "f") (codes "b") v) }
{}

/// Two answers that contradict each other in the other order or in summaries, and the status of a summary.
pub fn worked_alike()
    ensures contradict_too { AreAlike (ending.Solved (answer.Refutation [])) (ending.Solved (answer.Model [])) → ⊥ }
    ensures summaries_contradict { (s t : SummaryOf) → s.answer ≡ answer.Model [] → t.answer ≡ answer.Refutation []
        → AreAlike (ending.Summed s) (ending.Summed t) → ⊥ }
    ensures summed { (s : SummaryOf) → s.answer ≡ answer.Refutation [] → status_of (ending.Summed s) ≡ status.Unsatisfiable }
{}

/// Each answer stands with the verdict on its text, and a summary with the sizes of its problem.
pub fn worked_solutions()
    ensures solution { (p : Instance) (budget : ℕ) (a : Answer) → IsSolution p budget a
        → IsAnswer p budget a × IsVerdict p (answer_text a) (verdict_of a) }
    ensures narrowing { (p : Instance) (budget : ℕ) (lits : List ℤ) (o : CoreOutcome) → IsNarrowing p budget lits o
        → All (IsLitWithin MAX_VARS) lits × IsCoreOutcome p budget lits o
        × IsVerdict (assuming p (judged_under lits o)) (outcome_text o) (outcome_verdict o) }
    ensures bounding { (p : Instance) (budget n : ℕ) (o : BestOutcome) → IsBounding p budget n o
        → IsBestOutcome p n budget o × IsVerdict (asking p n (judged_bound p n o)) (best_text o) (best_verdict o) }
    ensures never_refuted { best_verdict (bounded.Never []) ≡ verdict.Refutation }
    ensures sizes { (p : Instance) (budget : ℕ) (s : SummaryOf) → IsSummary p budget s → (s.vars ≡ p.vars) × (s.clauses ≡ length p.clauses)
        × (s.edges ≡ edges_total p) × (s.predicates ≡ length p.atoms) }
    ensures summary { (p : Instance) (budget : ℕ) (s : SummaryOf) → IsSummary p budget s → IsSolution p budget s.answer
        × (s.progress ≡ progress_text s.answer) × IsVerdict p (answer_text s.answer) s.verdict }
{}

/// What `team` answers comes of so many workers and rounds, in this order.
pub fn worked_turns()
    ensures model { (p : Instance) (workers rounds : ℕ) (values : List Bool) → IsTeamAnswer p workers rounds (answer.Model values)
        → (board : List Step) × IsModelOfTurn p workers rounds values board }
    ensures refutation { (p : Instance) (workers rounds : ℕ) (steps : List Step) → IsTeamAnswer p workers rounds (answer.Refutation steps)
        → (board : List Step) × IsRefutationOfTurn p workers rounds board × IsTrimmed p board steps }
    ensures progress { (p : Instance) (workers rounds : ℕ) (board : List Step) → IsTeamAnswer p workers rounds (answer.Progress board)
        → IsBoardOfRounds p workers rounds board }
    ensures solution { (p : Instance) (workers rounds : ℕ) (a : Answer) → IsTeamSolution p workers rounds a
        → IsTeamAnswer p workers rounds a × IsVerdict p (answer_text a) (verdict_of a) }
    ensures teamed { (p : Instance) (workers rounds : ℕ) (e : EndingOf) → IsTeamed p workers rounds e
        → (a : Answer) × (e ≡ ending.Solved a) × IsTeamSolution p workers rounds a }
{}

/// With each status what `best` writes is the text of one outcome and no other, that outcome is right, and `check` accepts the text of
/// the problem that asks for the bound past the best one, for the greatest flow, for the weakest bound, or for the bound on which the
/// budget was spent.
pub fn worked_bound_parts()
    ensures best_or_beyond { (p : Instance) (n : ℕ) (text : List ℕ) → IsBestBy status.Satisfiable p n text
        → ((b : ℤ) × (model : List Bool) × (steps : List Step) × IsBest p n b model steps × IsOptimum p n b
        × (text ≡ best_text (bounded.Best b model steps)) × IsVerdict (asking p n (beyond (predicate_of p n) b)) text verdict.Refutation)
        ⊎ ((model : List Bool) × IsBeyond p n model
        × (text ≡ best_text (bounded.Beyond model)) × IsVerdict (asking p n (pos (MAX_BOUND + 1))) text verdict.Model) }
    ensures never { (p : Instance) (n : ℕ) (text : List ℕ) → IsBestBy status.Unsatisfiable p n text
        → (steps : List Step) × IsNeverMet p n
        × (text ≡ best_text (bounded.Never steps)) × IsVerdict (asking p n (weakest (predicate_of p n))) text verdict.Refutation }
    ensures spent { (p : Instance) (n : ℕ) (text : List ℕ) → IsBestBy status.Unknown p n text
        → (b : ℤ) × (steps : List Step) × IsOpen p n DEFAULT_BUDGET b steps
        × (text ≡ best_text (bounded.Unknown b steps)) × IsVerdict (asking p n b) text (verdict.Progress DEFAULT_BUDGET) }
{}

/// With each status what `team` writes is the text of one answer and no other, so many workers and rounds come to that answer, and
/// `check` accepts the text as what it is.
pub fn worked_team_parts()
    ensures model { (p : Instance) (workers rounds : ℕ) (text : List ℕ) → IsTeamTextBy status.Satisfiable p workers rounds text
        → (values : List Bool) × IsTeamAnswer p workers rounds (answer.Model values)
        × (text ≡ answer_text (answer.Model values)) × IsVerdict p text verdict.Model }
    ensures refutation { (p : Instance) (workers rounds : ℕ) (text : List ℕ) → IsTeamTextBy status.Unsatisfiable p workers rounds text
        → (steps : List Step) × IsTeamAnswer p workers rounds (answer.Refutation steps)
        × (text ≡ answer_text (answer.Refutation steps)) × IsVerdict p text verdict.Refutation }
    ensures board { (p : Instance) (workers rounds : ℕ) (text : List ℕ) → IsTeamTextBy status.Unknown p workers rounds text
        → (board : List Step) × IsBoardOfRounds p workers rounds board
        × (text ≡ answer_text (answer.Progress board)) × IsVerdict p text (verdict.Progress (chain_count board)) }
{}

/// Numbers within range, and words behind the last one.
pub fn worked_ranges()
    ensures budgets { (file : List ℕ) (budget : ℕ) → IsWithinRange (command.Solve file budget) → 1 ≤ budget }
    ensures sizes { (k : GenKind) (size seed : ℕ) (solve : Bool) → IsWithinRange (command.Gen k size seed solve) → (2 ≤ size) × (size ≤ 100) }
    ensures teams { (file : List ℕ) (workers rounds : ℕ) → IsWithinRange (command.Team file workers rounds)
        → ((1 ≤ workers) × (workers ≤ 8)) × ((1 ≤ rounds) × (rounds ≤ 100)) }
    ensures six_words { command_of (codes "gen" ∷ codes "grid" ∷ codes "10" ∷ codes "7" ∷ codes "--solve" ∷ codes "x" ∷ []) ≡ None }
{}
