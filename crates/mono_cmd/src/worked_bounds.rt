//! Rows that were worked by hand: what `best` writes, why `best` and `ask` are refused, and how runs for a bound end.

ghost use Rattle.std.specs.Prelude.{◌≡◌, ◌+◌, ℕ, pos, negsuc, true, false, List, [], ◌∷◌, Some, codes};
ghost use Rattle.mono_base.specs.declared.limits.TheConstants.{MAX_BOUND, MAX_VARS};
ghost use Rattle.mono_gnf.specs.declared.fault.GnfFault.TheVariants as fault;
ghost use Rattle.mono_steps.specs.WorkedLemmas.{chain};
ghost use Rattle.mono_answer.specs.declared.answer.Answer.TheVariants as answer;
ghost use Rattle.mono_search.specs.Worked.{first_learned};
ghost use Rattle.mono_check.specs.declared.verdict.Verdict.TheVariants as verdict;
ghost use Rattle.mono_best.specs.Worked.{weighed, wide};
ghost use Rattle.mono_best.specs.declared.outcome.BestOutcome.TheVariants as outcome;
ghost use Rattle.mono_forms.specs.declared.asking.AskRefusal.TheVariants as refusal;
ghost use Rattle.mono_words.specs.declared.command.Command.TheVariants as command;
ghost use Rattle.mono_forms.specs.declared.status.Status.TheVariants as status;
ghost use Rattle.mono_forms.specs.declared.ending.Ending.TheVariants as ending;
ghost use Rattle.mono_forms.specs.Endings.{TakesMemory, status_of, text_of};
ghost use Rattle.mono_forms.specs.Solved.{best_verdict, judged_bound};
ghost use Rattle.mono_forms.specs.Runs.{AreAlike, Asks, Bounds, EachReached, IsAsked, IsBestBy, IsBounded, IsCarriedOut, IsHeld, IsSolving, IsUnasked};
ghost use Rattle.mono_cmd.specs.Worked.{empty_problem};

/// What `best` writes.
pub fn worked_bound_texts()
    ensures best { text_of (ending.Bounded (outcome.Best (pos 7) (true ∷ false ∷ []) (chain [] (3 ∷ 1 ∷ []) ∷ [])))
        ≡ codes "c best 7\nc v 1 -2 0\ns UNSATISFIABLE\nchain 0 3 1\n" }
    ensures never { text_of (ending.Bounded (outcome.Never (chain [] (1 ∷ []) ∷ []))) ≡ codes "c never\ns UNSATISFIABLE\nchain 0 1\n" }
    ensures beyond { text_of (ending.Bounded (outcome.Beyond (true ∷ false ∷ []))) ≡ codes "c beyond\ns SATISFIABLE\nv 1 -2 0\n" }
    ensures spent { text_of (ending.Bounded (outcome.Unknown (negsuc 0) first_learned)) ≡ codes "c open -1\ns UNKNOWN\nchain 1 0 1 2\n" }
    ensures bad_atom { text_of (ending.Unasked refusal.BadAtom) ≡ codes "refused 0 BadAtom\n" }
    ensures bad_bound { text_of (ending.Unasked refusal.BadBound) ≡ codes "refused 0 BadBound\n" }
    ensures too_many { text_of (ending.Unasked refusal.TooMany) ≡ codes "refused 0 TooMany\n" }
{}

/// How runs for a bound end.
pub fn worked_boundings()
    ensures best { status_of (ending.Bounded (outcome.Best (pos 7) [] [])) ≡ status.Satisfiable }
    ensures never { status_of (ending.Bounded (outcome.Never [])) ≡ status.Unsatisfiable }
    ensures beyond { status_of (ending.Bounded (outcome.Beyond [])) ≡ status.Satisfiable }
    ensures spent { status_of (ending.Bounded (outcome.Unknown (pos 7) [])) ≡ status.Unknown }
    ensures unasked { status_of (ending.Unasked refusal.BadAtom) ≡ status.Refused }
    ensures found_takes_memory { TakesMemory (ending.Bounded (outcome.Never [])) }
    ensures refusals_take_none { TakesMemory (ending.Unasked refusal.TooMany) → ⊥ }

    ensures next_distance { judged_bound (weighed []) 1 (outcome.Best (pos 7) [] []) ≡ pos 6 }
    ensures next_flow { judged_bound wide 1 (outcome.Best (pos 7) [] []) ≡ pos 8 }
    ensures weakest_distance { judged_bound (weighed []) 1 (outcome.Never []) ≡ pos MAX_BOUND }
    ensures greatest_flow { judged_bound wide 1 (outcome.Beyond []) ≡ pos (MAX_BOUND + 1) }
    ensures bound_itself { judged_bound (weighed []) 1 (outcome.Unknown (pos 7) []) ≡ pos 7 }
    ensures refutation { best_verdict (outcome.Best (pos 7) [] []) ≡ verdict.Refutation }
    ensures model { best_verdict (outcome.Beyond []) ≡ verdict.Model }
    ensures learned_clauses_count { best_verdict (outcome.Unknown (pos 7) first_learned) ≡ verdict.Progress 1 }

    ensures best_refused { IsCarriedOut (command.Best (codes "f") 1) status.Refused }
    ensures best_unknown { IsCarriedOut (command.Best (codes "f") 1) status.Unknown }
    ensures best_prints_nothing { IsCarriedOut (command.Best (codes "f") 1) status.Printed → ⊥ }
    ensures asked { IsCarriedOut (command.Ask (codes "f") 1 (pos 7)) status.Printed }
    ensures ask_finds_nothing { IsCarriedOut (command.Ask (codes "f") 1 (pos 7)) status.Satisfiable → ⊥ }
    ensures best_solves { IsSolving (Some (command.Best (codes "f") 1)) }
    ensures asking_solves_nothing { IsSolving (Some (command.Ask (codes "f") 1 (pos 7))) → ⊥ }
    ensures best_needs_the_file { EachReached (IsHeld (Some ((codes "f", codes "") ∷ []))) (Some ((codes "f", codes "") ∷ [])) (command.Best (codes "f") 1) }
    ensures ask_needs_the_file { EachReached (IsHeld (Some [])) (Some []) (command.Ask (codes "f") 1 (pos 7)) → ⊥ }

    ensures one_best { AreAlike (ending.Bounded (outcome.Best (pos 7) [] [])) (ending.Bounded (outcome.Best (pos 7) (true ∷ []) [])) }
    ensures two_bests { AreAlike (ending.Bounded (outcome.Best (pos 7) [] [])) (ending.Bounded (outcome.Best (pos 6) [] [])) → ⊥ }
    ensures best_or_never { AreAlike (ending.Bounded (outcome.Best (pos 7) [] [])) (ending.Bounded (outcome.Never [])) → ⊥ }
    ensures never_or_best { AreAlike (ending.Bounded (outcome.Never [])) (ending.Bounded (outcome.Best (pos 7) [] [])) → ⊥ }
    ensures best_or_beyond { AreAlike (ending.Bounded (outcome.Best (pos 7) [] [])) (ending.Bounded (outcome.Beyond [])) → ⊥ }
    ensures beyond_or_best { AreAlike (ending.Bounded (outcome.Beyond [])) (ending.Bounded (outcome.Best (pos 7) [] [])) → ⊥ }
    ensures never_or_beyond { AreAlike (ending.Bounded (outcome.Never [])) (ending.Bounded (outcome.Beyond [])) → ⊥ }
    ensures beyond_or_never { AreAlike (ending.Bounded (outcome.Beyond [])) (ending.Bounded (outcome.Never [])) → ⊥ }
    ensures not_finished { AreAlike (ending.Bounded (outcome.Unknown (pos 7) [])) (ending.Bounded (outcome.Never [])) }
    ensures solved { AreAlike (ending.Bounded (outcome.Beyond [])) (ending.Solved (answer.Model [])) → ⊥ }
{}

/// Why a bound can't be asked for: the predicate comes first, then the bound, then the room.
pub fn worked_refusals()
    ensures no_predicate { IsUnasked (weighed []) 2 ⊥ refusal.BadAtom }
    ensures there { IsUnasked (weighed []) 1 ⊥ refusal.BadAtom → ⊥ }
    ensures bound { IsUnasked (weighed []) 1 ⊥ refusal.BadBound }
    ensures bound_of_none { IsUnasked (weighed []) 2 ⊥ refusal.BadBound → ⊥ }
    ensures bound_fits { IsUnasked (weighed []) 1 (Unit {0}) refusal.BadBound → ⊥ }
    ensures room { IsUnasked (weighed []) 1 (Unit {0}) refusal.TooMany → ⊥ }
    ensures no_room { IsUnasked (record (weighed []) { vars = MAX_VARS }) 1 (Unit {0}) refusal.TooMany }
    ensures no_room_for_none { IsUnasked (record (weighed []) { vars = MAX_VARS }) 2 (Unit {0}) refusal.TooMany → ⊥ }
    ensures no_room_for_the_bound { IsUnasked (record (weighed []) { vars = MAX_VARS }) 1 ⊥ refusal.TooMany → ⊥ }

    ensures best_has_no_bound_to_refuse { IsBounded (weighed []) 1 (ending.Unasked refusal.BadBound) → ⊥ }
    ensures input_is_not_refused { IsBounded (weighed []) 2 (ending.Refused 0 fault.TooMany) → ⊥ }
    ensures ask_refuses_the_bound { IsAsked (weighed []) 1 (negsuc 1) (ending.Unasked refusal.BadBound) }
    ensures ask_takes_the_bound { IsAsked (weighed []) 1 (negsuc 0) (ending.Unasked refusal.BadBound) → ⊥ }
    ensures other_text { IsAsked (weighed []) 1 (pos 4) (ending.Printed []) → ⊥ }
    ensures asked_of_none { (text : List ℕ) → IsAsked (weighed []) 2 (pos 4) (ending.Printed text) → ⊥ }

    ensures runs { Bounds (Some (command.Best (codes "f") 1)) (Some ((codes "f", codes "") ∷ [])) empty_problem 1 }
    ensures other_predicate { Bounds (Some (command.Best (codes "f") 1)) (Some ((codes "f", codes "") ∷ [])) empty_problem 2 → ⊥ }
    ensures asks { Asks (Some (command.Ask (codes "f") 1 (pos 4))) (Some ((codes "f", codes "") ∷ [])) empty_problem 1 (pos 4) }
    ensures other_bound { Asks (Some (command.Ask (codes "f") 1 (pos 4))) (Some ((codes "f", codes "") ∷ [])) empty_problem 1 (pos 5) → ⊥ }
    ensures never_without_its_line { IsBestBy status.Unsatisfiable (weighed []) 1 (codes "s UNSATISFIABLE\nchain 0 1\n") → ⊥ }
{}
