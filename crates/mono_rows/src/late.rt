//! Worked rows: late reasons that read all that was shown, and what is no reason, no settled trail and no step back.

ghost use Rattle.std.specs.Prelude.{ℤ, pos, List, [], ◌∷◌, ◌++◌};
ghost use Rattle.mono_steps.specs.WorkedLemmas.{barred, minus};
ghost use Rattle.mono_trail.specs.declared.reason.Reason.TheVariants.{Decided, Clause, Late};
ghost use Rattle.mono_trail.specs.Moves.{joined};
ghost use Rattle.mono_trail.specs.TrailView.{no_literals};
ghost use Rattle.mono_learn.specs.FirstPoint.{StepsBack};
ghost use Rattle.mono_learn.specs.Reasons.{HasReasons, WasForced, WasUnit};
ghost use Rattle.mono_learn.specs.ReasonsStay.{MayJoin, StillShown};
ghost use Rattle.mono_learn.specs.Settled.{IsAskedFor, Settles};
ghost use Rattle.mono_learn.specs.Worked.{worked_trail};
ghost use Rattle.mono_rows.specs.AskedLemmas.{of_atom};
ghost use Rattle.mono_rows.specs.SmallTrail.{mark, both_levels};

/// A late reason may read all that its atom was shown, and is a reason of the literal on the trail.
pub fn late_reasons_read_all_that_was_shown()
    ensures joins { MayJoin barred [] (λ a. pos 1 ∷ []) (pos 1 ∷ []) (pos 3) (Late 1 1) }
    ensures forced { WasForced barred (λ a. pos 1 ∷ []) (pos 1 ∷ pos 3 ∷ []) 1 1 1 }
    ensures is_a_reason { HasReasons barred [] (λ a. pos 1 ∷ []) (joined (joined (no_literals 3) (pos 1) Decided) (pos 3) (Late 1 1)) }
    ensures reads_the_same { StillShown (λ a. pos 3 ∷ []) (λ a. pos 3 ∷ []) (both_levels 0) }
{}

/// The clause {-3} is false once 3 stands on the trail, but it is no reason of 4.
pub fn reasons_have_their_literal()
    ensures { WasUnit ((minus 3 ∷ []) ∷ []) (pos 3 ∷ pos 4 ∷ []) 1 1 → ⊥ }
{}

/// A settled trail has no mark more, not even one of level 0. No lemma is asked for where no literal stands.
pub fn nothing_is_settled_behind_the_trail()
    ensures marks { Settles [] (both_levels 3) (record (both_levels 3) { marks = (both_levels 3).marks ++ mark 0 Decided ∷ [] }) → ⊥ }
    ensures lemmas { IsAskedFor (both_levels 3) (record (both_levels 3) { marks = (both_levels 3).marks ++ mark 2 (Clause 1) ∷ [] }) (of_atom 0) 1 → ⊥ }
{}

/// Behind 7 and 8 stands 9, but the clause {-7, -8} doesn't have -9: no step back is by the reason of 9, whatever that clause is.
pub fn steps_back_are_by_a_literal_of_the_clause()
    ensures { (cs : List (List ℤ)) (e : List ℤ) → StepsBack cs worked_trail (minus 7 ∷ minus 8 ∷ []) 4 e → ⊥ }
{}
