//! Worked rows: for which texts memory may be wanting, what is written with a status, and what a process exits with.

ghost use Rattle.std.specs.Prelude.{◌≡◌, ℕ, ℤ, Bool, true, false, List, [], ◌∷◌, ◌++◌, Some, None, codes};
ghost use Rattle.mono_io.specs.Worked.{steady_shelf, two_texts};
ghost use Rattle.mono_problem.specs.Instance.{Instance};
ghost use Rattle.mono_gnf.specs.Stands.{Stands};
ghost use Rattle.mono_gnf.specs.declared.fault.GnfFault.TheVariants as fault;
ghost use Rattle.mono_gen.specs.Generated.{generated};
ghost use Rattle.mono_gen.specs.declared.kind.GenKind.TheVariants as kind;
ghost use Rattle.mono_steps.specs.declared.step.Step.{Step};
ghost use Rattle.mono_answer.specs.declared.answer.Answer.TheVariants as answer;
ghost use Rattle.mono_answer.specs.declared.version.Version.TheVariants as version;
ghost use Rattle.mono_check.specs.Verdicts.{IsVerdict};
ghost use Rattle.mono_check.specs.declared.reason.Reason.TheVariants as reason;
ghost use Rattle.mono_check.specs.declared.verdict.Verdict.TheVariants as verdict;
ghost use Rattle.mono_best.specs.Asking.{asking, predicate_of};
ghost use Rattle.mono_best.specs.Best.{IsBest};
ghost use Rattle.mono_best.specs.Bounds.{beyond};
ghost use Rattle.mono_best.specs.Optimum.{IsOptimum};
ghost use Rattle.mono_best.specs.Worked.{weighed};
ghost use Rattle.mono_best.specs.declared.outcome.BestOutcome.TheVariants as outcome;
ghost use Rattle.mono_search.specs.Worked.{two_clauses};
ghost use Rattle.mono_forms.specs.declared.asking.AskRefusal.TheVariants as refusal;
ghost use Rattle.mono_words.specs.declared.command.Command.TheVariants as command;
ghost use Rattle.mono_forms.specs.declared.ending.Ending.TheVariants as ending;
ghost use Rattle.mono_forms.specs.declared.status.Status.TheVariants as status;
ghost use Rattle.mono_forms.specs.declared.summary.Summary.{Summary};
ghost use Rattle.mono_forms.specs.declared.text.Text.TheVariants as text;
ghost use Rattle.mono_forms.specs.BestTexts.{best_text};
ghost use Rattle.mono_forms.specs.Endings.{TakesMemory};
ghost use Rattle.mono_cmd.specs.Machines.{HasRun, Machine};
ghost use Rattle.mono_cmd.specs.Promises.{RunView, Wrote};
ghost use Rattle.mono_forms.specs.Runs.{EachReached, IsBestBy, IsCarriedOut, IsHeld, IsJudgmentBy, IsOutOfMemory, SolvesGenerated};
ghost use Rattle.mono_forms.specs.Teams.{IsTeamTextBy};
ghost use Rattle.mono_forms.specs.Texts.{bytes_of};

/// Memory isn't wanting for a text that is there already, nor for one of constants or of one line.
pub fn worked_memory()
    ensures printed { TakesMemory (ending.Printed (codes "p gnf 0 0\n")) → ⊥ }
    ensures bad_atom { TakesMemory (ending.Unasked refusal.BadAtom) → ⊥ }
    ensures bad_bound { TakesMemory (ending.Unasked refusal.BadBound) → ⊥ }
    ensures refused { TakesMemory (ending.Refused 3 fault.UnknownWord) → ⊥ }
    ensures progress { TakesMemory (ending.Judged (verdict.Progress 3)) → ⊥ }
    ensures rejected { TakesMemory (ending.Judged (verdict.Rejected 2 (reason.ClauseFalse 5))) → ⊥ }
    ensures answer { TakesMemory (ending.Solved (answer.Model [])) }
    ensures summary { (s : Summary) → TakesMemory (ending.Summed s) }
    ensures memory { TakesMemory ending.Memory }

    ensures no_command { IsOutOfMemory None (steady_shelf two_texts [] None 0 0) (steady_shelf two_texts [] None 0 0) → ⊥ }
    ensures generated { IsOutOfMemory (Some (command.Gen kind.Grid 2 7 false)) (steady_shelf two_texts [] None 0 0) (steady_shelf two_texts [] None 0 0) }
    ensures file_begun { IsOutOfMemory (Some (command.Gen kind.Grid 2 7 false)) (steady_shelf two_texts [] None 0 0)
        (steady_shelf two_texts (codes "f") (Some 0) 1 0) → ⊥ }
    ensures answer_begun { IsOutOfMemory (Some (command.Check (codes "f") (codes "g"))) (steady_shelf ((codes "f", codes "x") ∷ []) [] None 0 0)
        (steady_shelf ((codes "f", codes "x") ∷ []) (codes "g") (Some 0) 2 0) → ⊥ }
{}

/// The bytes of a line are those before its room.
pub fn worked_lines()
    ensures line { bytes_of (text.Line (record { bytes = codes "x\n"; spare = codes "y" })) ≡ codes "x\n" }
    ensures room { bytes_of (text.Line (record { bytes = codes "x\n"; spare = codes "y" })) ≡ codes "x\ny" → ⊥ }
{}

/// What is written with a status, and nothing before it.
pub fn worked_written()
    ensures generated { (p : Instance) → Stands (generated kind.Wall 2 7) p → SolvesGenerated (Some (command.Gen kind.Wall 2 7 true)) p }
    ensures generated_for_none { (p : Instance) → SolvesGenerated (Some (command.Print (codes "f"))) p → ⊥ }
    ensures problem_of_the_generated { (p : Instance) → SolvesGenerated (Some (command.Gen kind.Wall 2 7 true)) p → Stands (generated kind.Wall 2 7) p }

    ensures best { (b : ℤ) (model : List Bool) (steps : List Step) → IsBest (weighed []) 1 b model steps → IsOptimum (weighed []) 1 b
        → IsVerdict (asking (weighed []) 1 (beyond (predicate_of (weighed []) 1) b)) (best_text (outcome.Best b model steps)) verdict.Refutation
        → IsBestBy status.Satisfiable (weighed []) 1 (best_text (outcome.Best b model steps)) }
    ensures line_before_the_best { (rest : List ℕ) → IsBestBy status.Satisfiable (weighed []) 1 (codes "c x\n" ++ rest) → ⊥ }
    ensures line_before_never { (rest : List ℕ) → IsBestBy status.Unsatisfiable (weighed []) 1 (codes "c x\n" ++ rest) → ⊥ }
    ensures line_before_an_open_bound { (rest : List ℕ) → IsBestBy status.Unknown (weighed []) 1 (codes "c x\n" ++ rest) → ⊥ }
    ensures line_before_a_board { (rest : List ℕ) → IsTeamTextBy status.Unknown two_clauses 2 1 (codes "c x\n" ++ rest) → ⊥ }

    ensures judged { (p : Instance) (given : List ℕ) → IsVerdict p given (verdict.Progress 3)
        → IsJudgmentBy status.Accepted p given (codes "accepted progress 3\n") }
    ensures judged_rejected { (p : Instance) (given : List ℕ) → IsJudgmentBy status.Rejected p given (codes "accepted progress 3\n") → ⊥ }
    ensures line_before_a_verdict { (p : Instance) (given rest : List ℕ) → IsJudgmentBy status.Rejected p given (codes "c x\n" ++ rest) → ⊥ }

    ensures written { (run : RunView) → run.before ≡ Some (codes "a") → run.now ≡ Some (codes "abc") → Wrote run (codes "bc") }
    ensures written_before { (run : RunView) → run.before ≡ Some (codes "a") → run.now ≡ Some (codes "abc") → Wrote run (codes "abc") → ⊥ }
    ensures written_untold { (run : RunView) → run.before ≡ None → Wrote run [] → ⊥ }
{}

/// What a command reads, how it may end, the number of its status, and how often a write failed.
pub fn worked_exits()
    ensures no_file_read { EachReached (IsHeld None) None (command.Gen kind.Grid 2 7 false) }
    ensures printed { IsCarriedOut (command.Print (codes "f")) status.Printed }
    ensures print_refused { IsCarriedOut (command.Print (codes "f")) status.Refused }
    ensures print_finds_nothing { IsCarriedOut (command.Print (codes "f")) status.Satisfiable → ⊥ }
    ensures migrated { IsCarriedOut (command.Migrate (codes "f") (codes "a") version.Two) status.Printed }
    ensures migration_rejected { IsCarriedOut (command.Migrate (codes "f") (codes "a") version.Two) status.Rejected }
    ensures migration_refused { IsCarriedOut (command.Migrate (codes "f") (codes "a") version.Two) status.Refused }
    ensures migration_finds_nothing { IsCarriedOut (command.Migrate (codes "f") (codes "a") version.Two) status.Satisfiable → ⊥ }

    ensures other_number { (old new : Machine) → HasRun None old new 3 → ⊥ }
    ensures no_number { (old new : Machine) → HasRun None old new 8 → ⊥ }
    ensures write_fault_without_a_failure { (old new : Machine) → old.faults ≡ 0 → new.faults ≡ 0 → HasRun None old new 5 → ⊥ }
    ensures failure_without_a_write_fault { (old new : Machine) → old.faults ≡ 0 → new.faults ≡ 1 → HasRun None old new 2 → ⊥ }
{}
