//! Worked rows: whose verdict is written, what a refusal names, and of which words a process exits.

ghost use Rattle.std.specs.Prelude.{ℕ, ℤ, pos, List, [], ◌∷◌, Option, Some, None, codes};
ghost use Rattle.mono_problem.specs.Assuming.{HasRoom};
ghost use Rattle.mono_problem.specs.Instance.{Instance};
ghost use Rattle.mono_gnf.specs.Stands.{Stands};
ghost use Rattle.mono_best.specs.Asking.{HasBoundedAtom};
ghost use Rattle.mono_core.specs.Worked.{one_clause};
ghost use Rattle.mono_words.specs.declared.command.Command.{Command};
ghost use Rattle.mono_words.specs.declared.command.Command.TheVariants as command;
ghost use Rattle.mono_cmd.specs.Machines.{HasExited, Machine, untouched};
ghost use Rattle.mono_cmd.specs.Refusals.{IsRefusal, IsUnaskable, IsUnaskedBy};
ghost use Rattle.mono_forms.specs.Runs.{Judges, JudgesWith};
ghost use Rattle.mono_cmd.specs.Worked.{empty_problem};

/// The verdict is that on the text which is told of ANSWER, for the problem that FILE stands for.
pub fn worked_judges()
    ensures judges { Judges (Some (command.Check (codes "f") (codes "a"))) (Some ((codes "f", codes "") ∷ (codes "a", codes "x") ∷ []))
        empty_problem (codes "x") }
    ensures other_answer { Judges (Some (command.Check (codes "f") (codes "a"))) (Some ((codes "f", codes "") ∷ (codes "a", codes "x") ∷ []))
        empty_problem (codes "") → ⊥ }
    ensures missing_answer { Judges (Some (command.Check (codes "f") (codes "a"))) (Some ((codes "f", codes "") ∷ [])) empty_problem (codes "") → ⊥ }
    ensures missing_file { Judges (Some (command.Check (codes "f") (codes "a"))) (Some ((codes "a", codes "x") ∷ [])) empty_problem (codes "x") → ⊥ }
    ensures other_problem { Judges (Some (command.Check (codes "f") (codes "a"))) (Some ((codes "f", codes "") ∷ (codes "a", codes "x") ∷ []))
        one_clause (codes "x") → ⊥ }
    ensures migrated { Judges (Some (command.Print (codes "f"))) (Some ((codes "f", codes "") ∷ (codes "a", codes "x") ∷ []))
        empty_problem (codes "x") → ⊥ }
    ensures judges_with { JudgesWith (Some (command.CheckWith (codes "f") (codes "a") (pos 1 ∷ [])))
        (Some ((codes "f", codes "") ∷ (codes "a", codes "x") ∷ [])) empty_problem (pos 1 ∷ []) (codes "x") }
    ensures other_literals { JudgesWith (Some (command.CheckWith (codes "f") (codes "a") (pos 1 ∷ [])))
        (Some ((codes "f", codes "") ∷ (codes "a", codes "x") ∷ [])) empty_problem (pos 2 ∷ []) (codes "x") → ⊥ }
{}

/// A refusal names FILE's first fault, or what can't be asked of its problem.
pub fn worked_refused()
    ensures fault { IsRefusal (Some (command.Print (codes "f"))) (codes "x") (codes "refused 1 UnknownWord\n") }
    ensures other_line { IsRefusal (Some (command.Print (codes "f"))) (codes "x") (codes "refused 2 UnknownWord\n") → ⊥ }
    ensures nothing_asked { (text written : List ℕ) → IsUnaskable (Some (command.Print (codes "f"))) text written → ⊥ }
    ensures of_a_problem { (found : Option Command) (text written : List ℕ) → IsUnaskable found text written → (p : Instance) × Stands text p }
    ensures no_room { (text : List ℕ) (p : Instance) (lits : List ℤ) → Stands text p → (HasRoom p lits → ⊥)
        → IsRefusal (Some (command.Core (codes "f") lits)) text (codes "refused 0 TooMany\n") }
    ensures no_room_to_judge { (text : List ℕ) (p : Instance) (lits : List ℤ) → Stands text p → (HasRoom p lits → ⊥)
        → IsRefusal (Some (command.CheckWith (codes "f") (codes "a") lits)) text (codes "refused 0 TooMany\n") }
    ensures room { (p : Instance) (lits : List ℤ) (written : List ℕ) → HasRoom p lits → IsUnaskedBy (Some (command.Core (codes "f") lits)) p written → ⊥ }
    ensures no_predicate { (text : List ℕ) (p : Instance) → Stands text p → (HasBoundedAtom p 1 → ⊥)
        → IsRefusal (Some (command.Best (codes "f") 1)) text (codes "refused 0 BadAtom\n") }
    ensures predicate { (p : Instance) → HasBoundedAtom p 1 → IsUnaskedBy (Some (command.Ask (codes "f") 1 (pos 4))) p (codes "refused 0 BadAtom\n") → ⊥ }
    ensures best_has_no_bad_bound { (p : Instance) → IsUnaskedBy (Some (command.Best (codes "f") 1)) p (codes "refused 0 BadBound\n") → ⊥ }
{}

/// The process exits with the number of a run of its words, or with that of want of memory before anything was done.
pub fn worked_machines()
    ensures no_memory_for_words { (told : List (List ℕ)) → HasExited (Some (Some told)) (untouched None [] 0 (Some [])) (untouched None [] 0 (Some [])) 6 }
    ensures other_number { (told : List (List ℕ)) (new : Machine) → HasExited (Some (Some told)) (untouched None [] 0 (Some [])) new 8 → ⊥ }
    ensures refused_without_a_command { (new : Machine) → HasExited (Some None) (untouched None [] 0 (Some [])) new 3 → ⊥ }
    ensures refused_without_words { (new : Machine) → HasExited (Some (Some [])) (untouched None [] 0 (Some [])) new 3 → ⊥ }
{}
