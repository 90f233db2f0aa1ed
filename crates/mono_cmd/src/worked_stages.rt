//! Worked rows: with which command memory may be wanting on the way with FILE, which commands look for an answer, what is found and
//! written with an ending and a status, and the bytes of a text.

ghost use Rattle.std.specs.Prelude.{◌≡◌, ℕ, ℤ, pos, true, List, [], ◌∷◌, Some, Vec, codes};
ghost use Rattle.std.specs.Borrow.{Bor};
ghost use Rattle.std.specs.declared.alloc.Global.{Global};
ghost use Rattle.mono_base.specs.declared.limits.TheConstants.{MAX_INPUT_BYTES};
ghost use Rattle.mono_io.specs.Reading.{IsGivenUp};
ghost use Rattle.mono_io.specs.Shelf.{ShelfView};
ghost use Rattle.mono_problem.specs.Assuming.{HasRoom};
ghost use Rattle.mono_problem.specs.Instance.{Instance};
ghost use Rattle.mono_gen.specs.declared.kind.GenKind.TheVariants as kind;
ghost use Rattle.mono_steps.specs.Journals.{chain_count};
ghost use Rattle.mono_steps.specs.declared.step.Step.{Step};
ghost use Rattle.mono_answer.specs.Printed.{answer_text};
ghost use Rattle.mono_answer.specs.declared.answer.Answer.{Answer};
ghost use Rattle.mono_answer.specs.declared.answer.Answer.TheVariants as answer;
ghost use Rattle.mono_answer.specs.declared.version.Version.{Version};
ghost use Rattle.mono_check.specs.Migrations.{MigratesTo};
ghost use Rattle.mono_check.specs.Verdicts.{IsVerdict};
ghost use Rattle.mono_check.specs.declared.reason.Reason.TheVariants as reason;
ghost use Rattle.mono_check.specs.declared.verdict.Verdict.TheVariants as verdict;
ghost use Rattle.mono_core.specs.declared.outcome.CoreOutcome.{CoreOutcome};
ghost use Rattle.mono_core.specs.declared.outcome.CoreOutcome.TheVariants as outcome;
ghost use Rattle.mono_portfolio.specs.Outcomes.{IsBoardOfRounds};
ghost use Rattle.mono_words.specs.declared.command.Command.TheVariants as command;
ghost use Rattle.mono_words.specs.declared.command.TheConstants.{DEFAULT_BUDGET};
ghost use Rattle.mono_forms.specs.declared.ending.Ending.TheVariants as ending;
ghost use Rattle.mono_forms.specs.declared.status.Status.TheVariants as status;
ghost use Rattle.mono_forms.specs.declared.text.Text.TheVariants as text;
ghost use Rattle.mono_forms.specs.Runs.{IsJudgmentBy, IsMigration, IsNarrowed, IsOutOfMemory, IsSolved, IsSolving, IsVerdictBy};
ghost use Rattle.mono_forms.specs.Solved.{IsNarrowing, IsSolution, judged_under};
ghost use Rattle.mono_forms.specs.Teams.{IsTeamAnswer, IsTeamTextBy};
ghost use Rattle.mono_forms.specs.Texts.{bytes_of};

/// With each command that reads FILE memory may be wanting on the way with it.
pub fn worked_wanting()
    ensures solve { (file : List ℕ) (budget : ℕ) (old new : ShelfView) → IsGivenUp MAX_INPUT_BYTES old new
        → IsOutOfMemory (Some (command.Solve file budget)) old new }
    ensures check { (file given : List ℕ) (old new : ShelfView) → IsGivenUp MAX_INPUT_BYTES old new
        → IsOutOfMemory (Some (command.Check file given)) old new }
    ensures migrate { (file given : List ℕ) (v : Version) (old new : ShelfView) → IsGivenUp MAX_INPUT_BYTES old new
        → IsOutOfMemory (Some (command.Migrate file given v)) old new }
    ensures core { (file : List ℕ) (lits : List ℤ) (old new : ShelfView) → IsGivenUp MAX_INPUT_BYTES old new
        → IsOutOfMemory (Some (command.Core file lits)) old new }
    ensures best { (file : List ℕ) (n : ℕ) (old new : ShelfView) → IsGivenUp MAX_INPUT_BYTES old new
        → IsOutOfMemory (Some (command.Best file n)) old new }
    ensures ask { (file : List ℕ) (n : ℕ) (b : ℤ) (old new : ShelfView) → IsGivenUp MAX_INPUT_BYTES old new
        → IsOutOfMemory (Some (command.Ask file n b)) old new }
    ensures check_with { (file given : List ℕ) (lits : List ℤ) (old new : ShelfView) → IsGivenUp MAX_INPUT_BYTES old new
        → IsOutOfMemory (Some (command.CheckWith file given lits)) old new }
    ensures team { (file : List ℕ) (workers rounds : ℕ) (old new : ShelfView) → IsGivenUp MAX_INPUT_BYTES old new
        → IsOutOfMemory (Some (command.Team file workers rounds)) old new }
{}

/// These commands look for an answer, and which one they find isn't fixed.
pub fn worked_searching()
    ensures solve { IsSolving (Some (command.Solve (codes "f") 1)) }
    ensures generate { IsSolving (Some (command.Gen kind.Wall 2 7 true)) }
    ensures team { IsSolving (Some (command.Team (codes "f") 2 1)) }
{}

/// What is found is an ending, and what was written has its status: an answer, a migrated or a rejected one, what is found under
/// assumptions, a refutation and a board.
pub fn worked_found()
    ensures solved { (p : Instance) (budget : ℕ) (a : Answer) → IsSolution p budget a → IsSolved p budget (ending.Solved a) }
    ensures migrated { (p : Instance) (given other : List ℕ) (v : Version) → MigratesTo p given v other → IsMigration p given v (ending.Printed other) }
    ensures not_migrated { (p : Instance) (given : List ℕ) (v : Version) → IsVerdict p given (verdict.Rejected 2 reason.BadLine)
        → IsMigration p given v (ending.Judged (verdict.Rejected 2 reason.BadLine)) }
    ensures narrowed { (p : Instance) (lits : List ℤ) (o : CoreOutcome) → HasRoom p lits → IsNarrowing p DEFAULT_BUDGET lits o
        → IsNarrowed p lits (ending.Narrowed o) }
    ensures model_under_all { judged_under (pos 1 ∷ pos 2 ∷ []) (outcome.Model (true ∷ [])) ≡ pos 1 ∷ pos 2 ∷ [] }
    ensures rejected { (p : Instance) (given : List ℕ) → IsVerdict p given (verdict.Rejected 2 reason.BadLine)
        → IsJudgmentBy status.Rejected p given (codes "rejected 2 BadLine\n") }
    ensures refuted { (p : Instance) (budget : ℕ) (written : List ℕ) → IsVerdict p written verdict.Refutation
        → IsVerdictBy status.Unsatisfiable p budget written }
    ensures board { (p : Instance) (workers rounds : ℕ) (steps : List Step) → IsBoardOfRounds p workers rounds steps
        → IsTeamAnswer p workers rounds (answer.Progress steps) }
    ensures board_written { (p : Instance) (workers rounds : ℕ) (steps : List Step) → IsBoardOfRounds p workers rounds steps
        → IsVerdict p (answer_text (answer.Progress steps)) (verdict.Progress (chain_count steps))
        → IsTeamTextBy status.Unknown p workers rounds (answer_text (answer.Progress steps)) }
{}

/// The bytes of a text of constants and of an owned one are all of its bytes.
pub fn worked_bytes()
    ensures fixed { (bytes : Bor (List ℕ)) → bytes.now ≡ codes "x\n" → bytes_of (text.Fixed bytes) ≡ codes "x\n" }
    ensures owned { (bytes : Vec ℕ Global) → bytes.items ≡ codes "x\n" → bytes_of (text.Owned bytes) ≡ codes "x\n" }
{}
