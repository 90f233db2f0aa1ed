//! Worked rows: what is promised of a whole run, family by family. What a row denies meets all else that its family promises.

ghost use Rattle.std.specs.Prelude.{◌<◌, ◌≤◌, ◌^◌, ℕ, ℤ, pos, Bool, true, List, [], ◌∷◌, length, Some, None, codes};
ghost use Rattle.mono_base.specs.declared.limits.TheConstants.{MAX_INPUT_BYTES};
ghost use Rattle.mono_problem.specs.Assuming.{assuming};
ghost use Rattle.mono_problem.specs.Holds.{HasNoModel, Satisfies};
ghost use Rattle.mono_problem.specs.Instance.{Instance};
ghost use Rattle.mono_gnf.specs.Stands.{Stands};
ghost use Rattle.mono_gen.specs.Generated.{generated};
ghost use Rattle.mono_gen.specs.declared.kind.GenKind.{GenKind};
ghost use Rattle.mono_answer.specs.declared.version.Version.{Version};
ghost use Rattle.mono_check.specs.Migrations.{MigratesTo};
ghost use Rattle.mono_check.specs.Verdicts.{IsVerdict};
ghost use Rattle.mono_check.specs.declared.verdict.Verdict.TheVariants as verdict;
ghost use Rattle.mono_best.specs.Asking.{asking};
ghost use Rattle.mono_best.specs.Optimum.{IsNeverMet};
ghost use Rattle.mono_words.specs.declared.command.Command.TheVariants as command;
ghost use Rattle.mono_words.specs.declared.command.TheConstants.{DEFAULT_BUDGET};
ghost use Rattle.mono_forms.specs.declared.status.Status.TheVariants as status;
ghost use Rattle.mono_cmd.specs.Promises.{Asking, Bounding, Completing, Counting, Generating, IsRun, Judging, JudgingWith, Migrating, Narrowing, Printing, Refusing, RunView, Solving, Teaming};
ghost use Rattle.mono_forms.specs.Runs.{IsJudgmentBy, Runs};
ghost use Rattle.mono_cmd.specs.Worked.{fresh, one_file, read_b, read_f, read_in, run_of, two_files, untold_run, with_answer};

/// What is counted: failed calls, begins, and what want of memory and a file beyond its limit leave.
pub fn worked_counting()
    ensures no_command { Counting (run_of two_files None fresh status.Words (codes "x")) }
    ensures fault_without_a_failed_call { Counting (run_of two_files None fresh status.ReadFault []) → ⊥ }
    ensures failed_call_without_a_fault { Counting (run_of two_files None (read_in [] None 0 1) status.Words []) → ⊥ }
    ensures written_without_memory { (k : GenKind) → Counting (run_of two_files (Some (command.Gen k 2 7 true)) fresh status.Memory (codes "x")) → ⊥ }
    ensures no_command_without_memory { Counting (run_of two_files None fresh status.Memory []) → ⊥ }
    ensures begun_twice { Counting (run_of two_files (Some (command.Print (codes "f"))) (read_in (codes "f") (Some 0) 2 0) status.Printed []) → ⊥ }
    ensures too_long_at_0 { Counting (run_of two_files (Some (command.Print (codes "f"))) read_f status.TooLong []) → ⊥ }
{}

/// Over a steady shelf what is there is read, and what is within its limit is carried out.
pub fn worked_completing()
    ensures printed { Completing (run_of two_files (Some (command.Print (codes "f"))) read_f status.Printed []) }
    ensures fault_over_what_is_there { (text : List ℕ) → MAX_INPUT_BYTES < length text
        → Completing (untold_run (one_file text) (Some (command.Print (codes "f"))) fresh status.ReadFault) → ⊥ }
    ensures too_long_within_the_limit { Completing (run_of two_files (Some (command.Print (codes "f"))) read_f status.TooLong []) → ⊥ }
{}

/// What a status shows of the problem that FILE stands for, and what an answer's text shows.
pub fn worked_answering()
    ensures solved_without_a_model { (text : List ℕ) (p : Instance) → Stands text p → HasNoModel p
        → Solving (untold_run (one_file text) (Some (command.Solve (codes "f") 1)) fresh status.Satisfiable) → ⊥ }
    ensures refuted_with_a_model { (text : List ℕ) (p : Instance) (a : ℕ → Bool) → Stands text p → Satisfies p a
        → Solving (untold_run (one_file text) (Some (command.Solve (codes "f") 1)) fresh status.Unsatisfiable) → ⊥ }
    ensures spent_on_everything { Solving (untold_run (one_file (codes "")) (Some (command.Solve (codes "f") 1)) fresh status.Unknown) → ⊥ }
    ensures text_of_no_model { (text written : List ℕ) (p : Instance) → Stands text p → (IsVerdict p written verdict.Model → ⊥)
        → Solving (run_of (one_file text) (Some (command.Solve (codes "f") 1)) fresh status.Satisfiable written) → ⊥ }

    ensures summed_without_a_model { (k : GenKind) (size seed : ℕ) (p : Instance) → Stands (generated k size seed) p → HasNoModel p
        → Generating (untold_run [] (Some (command.Gen k size seed true)) fresh status.Satisfiable) → ⊥ }
    ensures summed_with_a_model { (k : GenKind) (size seed : ℕ) (p : Instance) (a : ℕ → Bool) → Stands (generated k size seed) p → Satisfies p a
        → Generating (untold_run [] (Some (command.Gen k size seed true)) fresh status.Unsatisfiable) → ⊥ }
    ensures summed_behind_everything { (k : GenKind) (size seed : ℕ) (p : Instance) → Stands (generated k size seed) p → 3 ^ p.vars ≤ DEFAULT_BUDGET
        → Generating (untold_run [] (Some (command.Gen k size seed true)) fresh status.Unknown) → ⊥ }
    ensures no_summary { (k : GenKind) (size seed : ℕ) (p : Instance) → Stands (generated k size seed) p
        → Generating (run_of [] (Some (command.Gen k size seed true)) fresh status.Satisfiable (codes "x")) → ⊥ }

    ensures narrowed_without_a_model { (text : List ℕ) (p : Instance) (lits : List ℤ) → Stands text p → HasNoModel (assuming p lits)
        → Narrowing (untold_run (one_file text) (Some (command.Core (codes "f") lits)) fresh status.Satisfiable) → ⊥ }
    ensures core_with_a_model { (text : List ℕ) (p : Instance) (lits : List ℤ) (a : ℕ → Bool) → Stands text p → Satisfies (assuming p lits) a
        → Narrowing (untold_run (one_file text) (Some (command.Core (codes "f") lits)) fresh status.Unsatisfiable) → ⊥ }
    ensures narrowed_behind_everything { Narrowing (untold_run (one_file (codes "")) (Some (command.Core (codes "f") (pos 1 ∷ []))) fresh status.Unknown) → ⊥ }
    ensures text_of_no_model_under_assumptions { (text written : List ℕ) (p : Instance) (lits : List ℤ) → Stands text p
        → (IsVerdict (assuming p lits) written verdict.Model → ⊥)
        → Narrowing (run_of (one_file text) (Some (command.Core (codes "f") lits)) fresh status.Satisfiable written) → ⊥ }

    ensures never_though_met { (text : List ℕ) (p : Instance) (n : ℕ) → Stands text p → (IsNeverMet p n → ⊥)
        → Bounding (untold_run (one_file text) (Some (command.Best (codes "f") n)) fresh status.Unsatisfiable) → ⊥ }
    ensures bounded_behind_everything { Bounding (untold_run (one_file (codes "")) (Some (command.Best (codes "f") 1)) fresh status.Unknown) → ⊥ }
    ensures no_bound { (text : List ℕ) (p : Instance) (n : ℕ) → Stands text p
        → Bounding (run_of (one_file text) (Some (command.Best (codes "f") n)) fresh status.Unsatisfiable (codes "x")) → ⊥ }

    ensures team_without_a_model { (text : List ℕ) (p : Instance) → Stands text p → HasNoModel p
        → Teaming (untold_run (one_file text) (Some (command.Team (codes "f") 2 1)) fresh status.Satisfiable) → ⊥ }
    ensures team_refuted_with_a_model { (text : List ℕ) (p : Instance) (a : ℕ → Bool) → Stands text p → Satisfies p a
        → Teaming (untold_run (one_file text) (Some (command.Team (codes "f") 2 1)) fresh status.Unsatisfiable) → ⊥ }
    ensures slice_of_everything { Teaming (untold_run (one_file (codes "")) (Some (command.Team (codes "f") 2 1)) fresh status.Unknown) → ⊥ }
    ensures no_board { (text : List ℕ) (p : Instance) → Stands text p
        → Teaming (run_of (one_file text) (Some (command.Team (codes "f") 2 1)) fresh status.Satisfiable (codes "x")) → ⊥ }
{}

/// What is written says of what it speaks, and with which verdict.
pub fn worked_writing()
    ensures other_refusal { Refusing (run_of two_files (Some (command.Print (codes "b"))) read_b status.Refused (codes "x")) → ⊥ }
    ensures other_problem { (text written : List ℕ) (p : Instance) → Stands text p → (Stands written p → ⊥)
        → Printing (run_of (one_file text) (Some (command.Print (codes "f"))) fresh status.Printed written) → ⊥ }
    ensures other_question { (text written : List ℕ) (p : Instance) (n : ℕ) (b : ℤ) → Stands text p → (Stands written (asking p n b) → ⊥)
        → Asking (run_of (one_file text) (Some (command.Ask (codes "f") n b)) fresh status.Printed written) → ⊥ }
    ensures other_migration { (text given written : List ℕ) (p : Instance) (v : Version) → Stands text p
        → ((m : MigratesTo p given v written) → IsVerdict p written m.verdict → ⊥)
        → Migrating (run_of (with_answer text given) (Some (command.Migrate (codes "f") (codes "a") v)) fresh status.Printed written) → ⊥ }

    ensures other_verdict { (text given written : List ℕ) (p : Instance) → Stands text p → (IsJudgmentBy status.Accepted p given written → ⊥)
        → Judging (run_of (with_answer text given) (Some (command.Check (codes "f") (codes "a"))) fresh status.Accepted written) → ⊥ }
    ensures refutation_with_a_model { (text : List ℕ) (p : Instance) (a : ℕ → Bool) → Stands text p → Satisfies p a
        → Judging (run_of (one_file text) (Some (command.Check (codes "f") (codes "a"))) fresh status.WriteFault (codes "accepted refutation\n")) → ⊥ }
    ensures model_of_none { (text : List ℕ) (p : Instance) → Stands text p → HasNoModel p
        → Judging (run_of (one_file text) (Some (command.Check (codes "f") (codes "a"))) fresh status.WriteFault (codes "accepted model\n")) → ⊥ }
    ensures other_verdict_with { (text given written : List ℕ) (p : Instance) (lits : List ℤ) → Stands text p
        → (IsJudgmentBy status.Accepted (assuming p lits) given written → ⊥)
        → JudgingWith (run_of (with_answer text given) (Some (command.CheckWith (codes "f") (codes "a") lits)) fresh status.Accepted written) → ⊥ }
    ensures refutation_with_a_model_with { (text : List ℕ) (p : Instance) (lits : List ℤ) (a : ℕ → Bool) → Stands text p
        → Satisfies (assuming p lits) a
        → JudgingWith (run_of (one_file text) (Some (command.CheckWith (codes "f") (codes "a") lits)) fresh status.WriteFault
        (codes "accepted refutation\n")) → ⊥ }
    ensures model_of_none_with { (text : List ℕ) (p : Instance) (lits : List ℤ) → Stands text p → HasNoModel (assuming p lits)
        → JudgingWith (run_of (one_file text) (Some (command.CheckWith (codes "f") (codes "a") lits)) fresh status.WriteFault
        (codes "accepted model\n")) → ⊥ }
{}

/// A run comes to an ending and writes its text, and shows all of it.
pub fn worked_promises()
    ensures runs { (run : RunView) → IsRun run → Runs run.command run.old run.new run.status run.before run.now }
    ensures families { (run : RunView) → IsRun run → Counting run × Completing run × Refusing run × Solving run × Generating run × Narrowing run
        × Bounding run × Printing run × Migrating run × Asking run × Teaming run × Judging run × JudgingWith run }
{}
