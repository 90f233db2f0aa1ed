//! Worked rows: numbers at the ends of their ranges, a bound that is asked of no predicate, and the run that a number to exit with shows.

ghost use Rattle.std.specs.Prelude.{ℕ, ℤ, pos, Bool, List, [], ◌∷◌, Option, Some, codes};
ghost use Rattle.mono_gnf.specs.Stands.{Stands};
ghost use Rattle.mono_gen.specs.declared.kind.GenKind.{GenKind};
ghost use Rattle.mono_problem.specs.Instance.{Instance};
ghost use Rattle.mono_steps.specs.WorkedLemmas.{minus};
ghost use Rattle.mono_best.specs.Asking.{HasBoundedAtom};
ghost use Rattle.mono_words.specs.declared.command.Command.{Command as CommandOf};
ghost use Rattle.mono_words.specs.declared.command.Command.TheVariants as command;
ghost use Rattle.mono_words.specs.Commands.{IsWithinRange};
ghost use Rattle.mono_cmd.specs.Machines.{HasExited, HasRun, Machine};
ghost use Rattle.mono_cmd.specs.Refusals.{IsRefusal};

/// The least and the greatest numbers are within range, and so is a command without numbers.
pub fn worked_ends_of_ranges()
    ensures least_budget { IsWithinRange (command.Solve (codes "f") 1) }
    ensures least_size { (k : GenKind) (seed : ℕ) (solve : Bool) → IsWithinRange (command.Gen k 2 seed solve) }
    ensures greatest_size { (k : GenKind) (seed : ℕ) (solve : Bool) → IsWithinRange (command.Gen k 100 seed solve) }
    ensures least_team { IsWithinRange (command.Team (codes "f") 1 1) }
    ensures greatest_team { IsWithinRange (command.Team (codes "f") 8 100) }
    ensures literals { IsWithinRange (command.CheckWith (codes "f") (codes "a") (pos 1000000 ∷ minus 1 ∷ [])) }
    ensures no_number { IsWithinRange (command.Print (codes "f")) }
{}

/// A bound that is asked of no predicate is refused for that, and a process that exits with 2 ran from the state before it to the one
/// behind it.
pub fn worked_shown()
    ensures no_predicate_to_ask { (text : List ℕ) (p : Instance) (b : ℤ) → Stands text p → (HasBoundedAtom p 1 → ⊥)
        → IsRefusal (Some (command.Ask (codes "f") 1 b)) text (codes "refused 0 BadAtom\n") }
    ensures run_before_the_exit { (told : Option (Option (List (List ℕ)))) (old new : Machine) → HasExited told old new 2
        → (found : Option CommandOf) × HasRun found old new 2 }
{}
