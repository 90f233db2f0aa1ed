//! Worked rows: what a run comes to, step by step, how far it may have come where memory was wanting, and what a process exits with
//! that ran nothing.

ghost use Rattle.std.specs.Prelude.{◌≡◌, ◌≤◌, ℕ, ℤ, true, false, List, [], Option, Some, None, IfSome, All, codes};
ghost use Rattle.mono_base.specs.declared.limits.TheConstants.{MAX_ANSWER_BYTES, MAX_INPUT_BYTES, MAX_VARS};
ghost use Rattle.mono_base.specs.Literal.{IsLitWithin};
ghost use Rattle.mono_io.specs.Reading.{IsGivenUp, IsNotRead, IsRead, IsTooLong};
ghost use Rattle.mono_io.specs.Shelf.{ShelfView};
ghost use Rattle.mono_io.specs.Worked.{steady_shelf, two_texts};
ghost use Rattle.mono_problem.specs.Assuming.{assuming, HasRoom};
ghost use Rattle.mono_problem.specs.Instance.{Instance};
ghost use Rattle.mono_gnf.specs.Faults.{first_fault};
ghost use Rattle.mono_gnf.specs.Printed.{printed};
ghost use Rattle.mono_gnf.specs.Stands.{Stands};
ghost use Rattle.mono_gnf.specs.declared.fault.GnfFault.TheVariants as fault;
ghost use Rattle.mono_gen.specs.Generated.{generated};
ghost use Rattle.mono_gen.specs.declared.kind.GenKind.{GenKind};
ghost use Rattle.mono_answer.specs.declared.answer.Answer.{Answer};
ghost use Rattle.mono_answer.specs.declared.version.Version.{Version};
ghost use Rattle.mono_check.specs.Migrations.{MigratesTo};
ghost use Rattle.mono_check.specs.Verdicts.{IsVerdict};
ghost use Rattle.mono_check.specs.declared.reason.Reason.TheVariants as reason;
ghost use Rattle.mono_check.specs.declared.verdict.Verdict.TheVariants as verdict;
ghost use Rattle.mono_best.specs.Asking.{asking, predicate_of, HasBoundedAtom, HasRoomToAsk};
ghost use Rattle.mono_best.specs.Bounds.{IsBoundOf};
ghost use Rattle.mono_best.specs.declared.outcome.BestOutcome.{BestOutcome};
ghost use Rattle.mono_words.specs.declared.command.Command.{Command as CommandOf};
ghost use Rattle.mono_words.specs.declared.command.Command.TheVariants as command;
ghost use Rattle.mono_words.specs.declared.command.TheConstants.{DEFAULT_BUDGET, MAX_MIGRATED_BYTES};
ghost use Rattle.mono_forms.specs.declared.ending.Ending.{Ending as EndingOf};
ghost use Rattle.mono_forms.specs.declared.ending.Ending.TheVariants as ending;
ghost use Rattle.mono_forms.specs.declared.status.Status.TheVariants as status;
ghost use Rattle.mono_forms.specs.declared.summary.Summary.{Summary as SummaryOf};
ghost use Rattle.mono_cmd.specs.Machines.{HasExited, Machine, untouched};
ghost use Rattle.mono_forms.specs.Runs.{ComesTo, Ends, EndsAtFile, EndsAtText, HasProblem, IsAsked, IsBounded, IsGenerated, IsJudged, IsJudgedWith, IsMigration, IsOutOfMemory, IsSolved, Runs, WithProblem, WithText};
ghost use Rattle.mono_forms.specs.Solved.{IsBounding, IsSolution, IsSummary};
ghost use Rattle.mono_cmd.specs.Worked.{empty_problem, fresh, missed, missed_behind, read_b, read_f, read_in};

/// How a run ends at a file, or goes on with its text or its problem.
pub fn worked_files()
    ensures not_read { (file : List ℕ) (limit : ℕ) (old new : ShelfView) → EndsAtText file limit old new ending.ReadFault → IsNotRead file limit old new }
    ensures too_long { (file : List ℕ) (limit : ℕ) (old new : ShelfView) → EndsAtText file limit old new ending.TooLong → IsTooLong file limit old new }
    ensures given_up { (file : List ℕ) (limit : ℕ) (old new : ShelfView) → EndsAtText file limit old new ending.Memory → IsGivenUp limit old new }
    ensures no_file { (file : List ℕ) (old new : ShelfView) → EndsAtFile file old new ending.ReadFault → IsNotRead file MAX_INPUT_BYTES old new }
    ensures at_its_fault { (file : List ℕ) (old new : ShelfView) → EndsAtFile file old new (ending.Refused 2 fault.UnknownWord)
        → (text : List ℕ) × IsRead file MAX_INPUT_BYTES old new text × (first_fault text ≡ Some (2, fault.UnknownWord)) }
    ensures its_problem { (file : List ℕ) (old new : ShelfView) (p : Instance) → HasProblem file old new p
        → (text : List ℕ) × IsRead file MAX_INPUT_BYTES old new text × Stands text p }
    ensures no_way_behind_a_text { (file : List ℕ) (limit : ℕ) (old new : ShelfView) → WithText file limit old new ending.Words (λ text shelf. ⊥) → ⊥ }
    ensures no_way_behind_a_problem { (file : List ℕ) (old new : ShelfView) → WithProblem file old new ending.Words (λ p shelf. ⊥) → ⊥ }
{}

/// What an ending behind the files says.
pub fn worked_comings()
    ensures judged { (p : Instance) (text : List ℕ) → IsJudged p text (ending.Judged verdict.Model) → IsVerdict p text verdict.Model }
    ensures migrated { (p : Instance) (text other : List ℕ) (v : Version) → IsMigration p text v (ending.Printed other) → MigratesTo p text v other }
    ensures rejected { (p : Instance) (text : List ℕ) (v : Version) → IsMigration p text v (ending.Judged (verdict.Rejected 2 reason.BadLine))
        → IsVerdict p text (verdict.Rejected 2 reason.BadLine) }
    ensures accepted_but_not_migrated { (p : Instance) (text : List ℕ) (v : Version) → IsMigration p text v (ending.Judged verdict.Model) → ⊥ }
    ensures solved { (p : Instance) (budget : ℕ) (a : Answer) → IsSolved p budget (ending.Solved a) → IsSolution p budget a }
    ensures generated_text { (k : GenKind) (size seed : ℕ) (e : EndingOf) → IsGenerated k size seed false e → e ≡ ending.Printed (generated k size seed) }
    ensures summed { (k : GenKind) (size seed : ℕ) (s : SummaryOf) → IsGenerated k size seed true (ending.Summed s)
        → (p : Instance) × Stands (generated k size seed) p × IsSummary p DEFAULT_BUDGET s }
    ensures judged_with { (p : Instance) (lits : List ℤ) (file : List ℕ) (read new : ShelfView) (e : EndingOf) → IsJudgedWith p lits file read new e
        → All (IsLitWithin MAX_VARS) lits × HasRoom p lits
        × WithText file MAX_ANSWER_BYTES read new e (λ text shelf. IsJudged (assuming p lits) text e × (new ≡ shelf)) }
    ensures bounded { (p : Instance) (n : ℕ) (o : BestOutcome) → IsBounded p n (ending.Bounded o)
        → HasBoundedAtom p n × HasRoomToAsk p × IsBounding p DEFAULT_BUDGET n o }
    ensures asked { (p : Instance) (n : ℕ) (b : ℤ) (text : List ℕ) → IsAsked p n b (ending.Printed text)
        → HasBoundedAtom p n × IsBoundOf (predicate_of p n) b × HasRoomToAsk p × (text ≡ printed (asking p n b)) }
{}

/// What a command comes to: FILE before ANSWER, each begun once, and no ending of other words.
pub fn worked_orders()
    ensures no_command { ComesTo None fresh fresh ending.Words }
    ensures long_words { Ends None fresh fresh ending.TooLong → ⊥ }
    ensures words_read_nothing { ComesTo None fresh read_f ending.Words → ⊥ }
    ensures words_of_a_command { (found : CommandOf) (old new : ShelfView) → ComesTo (Some found) old new ending.Words → ⊥ }
    ensures print { ComesTo (Some (command.Print (codes "f"))) fresh read_f (ending.Printed (printed empty_problem)) }
    ensures print_begins_twice { (text : List ℕ) → ComesTo (Some (command.Print (codes "f"))) fresh (read_in (codes "f") (Some 0) 2 0)
        (ending.Printed text) → ⊥ }
    ensures generate_reads { (k : GenKind) (size seed : ℕ) (text : List ℕ) → ComesTo (Some (command.Gen k size seed false)) fresh read_f
        (ending.Printed text) → ⊥ }
    ensures check_refuses { ComesTo (Some (command.Check (codes "b") (codes "h"))) fresh read_b (ending.Refused 1 fault.UnknownWord) }
    ensures check_misses { ComesTo (Some (command.Check (codes "f") (codes "h"))) fresh missed_behind ending.ReadFault }
    ensures check_misses_behind_a_fault { ComesTo (Some (command.Check (codes "b") (codes "h"))) fresh missed_behind ending.ReadFault → ⊥ }
    ensures migrate_misses_behind_a_fault { (v : Version) → ComesTo (Some (command.Migrate (codes "b") (codes "h") v)) fresh missed_behind
        ending.ReadFault → ⊥ }
    ensures check_with_misses_behind_a_fault { (lits : List ℤ) → ComesTo (Some (command.CheckWith (codes "b") (codes "h") lits)) fresh missed_behind
        ending.ReadFault → ⊥ }

    ensures memory { Ends (Some (command.Print (codes "f"))) fresh read_f ending.Memory }
    ensures memory_for_no_command { Ends None fresh fresh ending.Memory → ⊥ }
    ensures run { Runs (Some (command.Print (codes "h"))) fresh missed status.ReadFault (Some (codes "a")) (Some (codes "aread fault\n")) }
    ensures run_of_no_command { Runs None fresh fresh status.ReadFault (Some (codes "a")) (Some (codes "aread fault\n")) → ⊥ }
{}

/// Where memory was wanting no call had failed, and of the file that was begun last no byte beyond its limit was read.
pub fn worked_given_up()
    ensures no_failed_call { (found : Option CommandOf) (old new : ShelfView) → IsOutOfMemory found old new → new.faults ≡ old.faults }
    ensures at_the_file { (found : CommandOf) (new : ShelfView) → IsOutOfMemory (Some found) fresh new → new.begun ≡ 1
        → IfSome new.place (λ place. place ≤ MAX_INPUT_BYTES) }
    ensures at_the_answer { (file given : List ℕ) (new : ShelfView) → IsOutOfMemory (Some (command.Check file given)) fresh new → new.begun ≡ 2
        → IfSome new.place (λ place. place ≤ MAX_ANSWER_BYTES) }
    ensures at_the_answer_to_migrate { (file given : List ℕ) (v : Version) (new : ShelfView) → IsOutOfMemory (Some (command.Migrate file given v)) fresh new
        → new.begun ≡ 2 → IfSome new.place (λ place. place ≤ MAX_MIGRATED_BYTES) }
    ensures at_the_answer_with { (file given : List ℕ) (lits : List ℤ) (new : ShelfView)
        → IsOutOfMemory (Some (command.CheckWith file given lits)) fresh new → new.begun ≡ 2 → IfSome new.place (λ place. place ≤ MAX_ANSWER_BYTES) }
    ensures migrate_behind_a_fault { (v : Version) → IsOutOfMemory (Some (command.Migrate (codes "b") (codes "f") v)) fresh
        (read_in (codes "f") (Some 0) 2 0) → ⊥ }
    ensures check_with_behind_a_fault { (lits : List ℤ) → IsOutOfMemory (Some (command.CheckWith (codes "b") (codes "f") lits)) fresh
        (read_in (codes "f") (Some 0) 2 0) → ⊥ }
{}

/// Words that aren't text never come to want of memory, and where it was wanting for the words nothing was written. A machine's files
/// and output before the run.
pub fn worked_untouched()
    ensures no_text_is_no_want_of_memory { (new : Machine) → HasExited (Some None) (untouched None [] 0 (Some [])) new 6 → ⊥ }
    ensures memory_behind_a_write { (new : Machine) → new.written ≡ Some (codes "x") → HasExited (Some (Some [])) (untouched None [] 0 (Some [])) new 6 → ⊥ }
    ensures shelf { (untouched (Some two_texts) (codes "g") 3 (Some (codes "x"))).shelf
        ≡ (record (steady_shelf two_texts (codes "g") None 3 0) { steady = false }) }
    ensures output { (untouched (Some two_texts) (codes "g") 3 (Some (codes "x"))).written ≡ Some (codes "x") }
    ensures no_failed_write { (untouched (Some two_texts) (codes "g") 3 (Some (codes "x"))).faults ≡ 0 }
{}
