//! Worked rows: what one conflict teaches, and what it doesn't.

ghost use Rattle.std.specs.Prelude.{◌≡◌, ℕ, ℤ, pos, List, [], ◌∷◌, ◌++◌};
ghost use Rattle.mono_problem.specs.Instance.{Instance};
ghost use Rattle.mono_steps.specs.Worked.{clauses_over};
ghost use Rattle.mono_steps.specs.WorkedLemmas.{barred, chain, minus, of_1};
ghost use Rattle.mono_steps.specs.declared.lemma.Witness.TheVariants as by;
ghost use Rattle.mono_steps.specs.declared.step.Step.TheVariants as step;
ghost use Rattle.mono_trail.specs.declared.reason.Reason.TheVariants.{Decided, Clause, Late};
ghost use Rattle.mono_trail.specs.Moves.{joined, settled};
ghost use Rattle.mono_trail.specs.TrailView.{no_literals};
ghost use Rattle.mono_learn.specs.ReasonsStay.{IsUnitIn, MayJoin, StillShown};
ghost use Rattle.mono_learn.specs.Settled.{AreAskedFor, Settles};
ghost use Rattle.mono_learn.specs.FirstPoint.{HasOnePresent, IsMinimized, IsTaught, StepsBack, ResolvesBack};
ghost use Rattle.mono_learn.specs.Explain.{AtomForces, IsExplanation};
ghost use Rattle.mono_learn.specs.Learned.{IsLearnt, IsMinimal, Learns, Refutes};
ghost use Rattle.mono_learn.specs.Reasons.{HasReasons, IsConflict, IsFalseClause, WasForced, WasUnit};
ghost use Rattle.mono_learn.specs.Worked.{worked_clauses, worked_trail};
ghost use Rattle.mono_rows.specs.SmallConflict.{denied, learnt, one_level, one_sign};
ghost use Rattle.mono_rows.specs.SmallTrail.{mark, both_levels};
ghost use Rattle.mono_rows.specs.AskedLemmas.{of_atom};

/// The clause {-3, -8} goes back to level 1 and no further up, and the clause {-8} to the beginning. From there none goes back.
pub fn learned_clause_goes_back_as_far_as_it_may()
    ensures first { IsLearnt worked_trail (minus 3 ∷ minus 8 ∷ []) 1 }
    ensures second { IsLearnt worked_trail (minus 3 ∷ minus 8 ∷ []) 2 → ⊥ }
    ensures start { IsLearnt worked_trail (minus 8 ∷ []) 0 }
    ensures not_first { IsLearnt worked_trail (minus 8 ∷ []) 1 → ⊥ }
    ensures at_level_0 { (back : ℕ) → IsLearnt (joined (no_literals 1) (pos 1) (Clause 1)) (minus 1 ∷ []) back → ⊥ }
{}

/// A clause without a literal of the present level is never learned.
pub fn learned_clause_has_a_literal_of_its_level()
    ensures { (back : ℕ) → IsLearnt worked_trail (minus 3 ∷ minus 6 ∷ []) back → ⊥ }
{}

/// 5 isn't in the clause, so -6 stays. A literal of the present level stays whatever implies it.
pub fn other_literals_stay()
    ensures lower { IsMinimal worked_clauses worked_trail (minus 3 ∷ minus 6 ∷ minus 8 ∷ []) }
    ensures present { IsMinimal worked_clauses worked_trail (minus 6 ∷ minus 8 ∷ minus 9 ∷ []) }
{}

/// Of the clause {-3, -4, -6, -8}, -4 goes, since 3 implies 4, and nothing else: 5 implies 6, and -5 isn't there.
pub fn redundant_literals_go()
    ensures exact { IsMinimized worked_clauses worked_trail (minus 3 ∷ minus 4 ∷ minus 6 ∷ minus 8 ∷ []) (minus 3 ∷ minus 6 ∷ minus 8 ∷ []) }
    ensures more { IsMinimized worked_clauses worked_trail (minus 3 ∷ minus 4 ∷ minus 6 ∷ minus 8 ∷ []) (minus 3 ∷ minus 8 ∷ []) → ⊥ }
    ensures fewer { IsMinimized worked_clauses worked_trail (minus 3 ∷ minus 4 ∷ minus 6 ∷ minus 8 ∷ []) (minus 3 ∷ minus 4 ∷ minus 6 ∷ minus 8 ∷ []) → ⊥ }
    ensures foreign { IsMinimized worked_clauses worked_trail (minus 3 ∷ minus 4 ∷ minus 6 ∷ minus 8 ∷ []) (minus 3 ∷ minus 6 ∷ minus 8 ∷ minus 7 ∷ []) → ⊥ }
{}

/// The false clause {-8, -9, -4, -3} teaches {-3, -6, -8}: 9 is implied by 8 and 6, and then -4 is redundant.
pub fn conflict_teaches_the_first_point()
    ensures { IsTaught worked_clauses worked_trail 5 (minus 3 ∷ minus 6 ∷ minus 8 ∷ []) }
{}

/// It teaches nothing else: not the clause without -3, which was decided, nor one before the first point. The decision 7 is a
/// point too, but not the first.
pub fn conflict_teaches_nothing_else()
    ensures one_literal { IsTaught worked_clauses worked_trail 5 (minus 8 ∷ []) → ⊥ }
    ensures before_the_first_point { IsTaught worked_clauses worked_trail 5 (minus 3 ∷ minus 8 ∷ minus 9 ∷ []) → ⊥ }
    ensures behind_the_first_point { IsTaught worked_clauses worked_trail 5 (minus 3 ∷ minus 6 ∷ minus 7 ∷ []) → ⊥ }
{}

/// From the false clause {-7, -9} two steps lead to the first point: 9 is resolved with its reason, and then 8.
pub fn two_steps_to_the_point()
    ensures resolutions { ResolvesBack worked_clauses worked_trail (minus 7 ∷ minus 9 ∷ []) (4 ∷ 3 ∷ []) (minus 7 ∷ minus 6 ∷ minus 7 ∷ minus 3
        ∷ minus 4 ∷ []) }
    ensures too_early { HasOnePresent worked_trail (minus 7 ∷ minus 8 ∷ minus 6 ∷ []) → ⊥ }
    ensures none_present { HasOnePresent worked_trail (minus 3 ∷ []) → ⊥ }
    ensures too_far { (n : ℕ) (e : List ℤ) → StepsBack worked_clauses worked_trail (minus 7 ∷ minus 6 ∷ minus 7 ∷ minus 3 ∷ minus 4 ∷ []) n e → ⊥ }
    ensures not_the_last { (e : List ℤ) → StepsBack worked_clauses worked_trail (minus 8 ∷ minus 9 ∷ []) 3 e → ⊥ }
{}

/// A literal that an atom forced stays, whatever the clauses are.
pub fn forced_literal_stays()
    ensures stays { (cs : List (List ℤ)) → IsMinimized cs (both_levels 0) (minus 3 ∷ minus 4 ∷ minus 6 ∷ []) (minus 3 ∷ minus 4 ∷ minus 6 ∷ []) }
    ensures goes { (cs : List (List ℤ)) → IsMinimized cs (both_levels 0) (minus 3 ∷ minus 4 ∷ minus 6 ∷ []) (minus 3 ∷ minus 6 ∷ []) → ⊥ }
{}

/// A conflict is a false clause with a literal of the present level.
pub fn conflicts()
    ensures conflict { IsConflict worked_clauses worked_trail 5 }
    ensures true_clause { IsConflict worked_clauses worked_trail 4 → ⊥ }
    ensures no_clause { IsConflict worked_clauses worked_trail 6 → ⊥ }
    ensures lower { IsConflict ((minus 3 ∷ minus 6 ∷ []) ∷ []) worked_trail 1 → ⊥ }
    ensures lower_is_false { IsFalseClause ((minus 3 ∷ minus 6 ∷ []) ∷ []) worked_trail.lits 1 }
    ensures true_is_not_false { IsFalseClause worked_clauses worked_trail.lits 4 → ⊥ }
{}

/// A reason has its literal, and its others are false by literals that came before.
pub fn reasons_were_unit()
    ensures unit { WasUnit worked_clauses worked_trail.lits 5 3 }
    ensures came_later { WasUnit worked_clauses (pos 8 ∷ pos 7 ∷ pos 3 ∷ pos 4 ∷ []) 0 3 → ⊥ }
    ensures not_in_it { WasUnit worked_clauses worked_trail.lits 4 3 → ⊥ }
    ensures all { (p : Instance) (shown : ℕ → List ℤ) → HasReasons p worked_clauses shown worked_trail }
    ensures without_clauses { (p : Instance) (shown : ℕ → List ℤ) → HasReasons p [] shown worked_trail → ⊥ }
{}

/// Of a trail late reasons alone are settled, each by a clause that was unit when its literal came.
pub fn settled_trails()
    ensures same { Settles [] (both_levels 3) (both_levels 3) }
    ensures late { Settles ((minus 3 ∷ pos 4 ∷ []) ∷ []) (both_levels 3) (settled (both_levels 3) 4 1) }
    ensures was_not_unit { Settles ((pos 4 ∷ pos 6 ∷ []) ∷ []) (both_levels 3) (settled (both_levels 3) 4 1) → ⊥ }
    ensures of_a_clause { Settles ((minus 3 ∷ pos 6 ∷ []) ∷ []) (both_levels 3) (settled (both_levels 3) 6 1) → ⊥ }
    ensures of_a_decision { Settles ((pos 3 ∷ []) ∷ []) (both_levels 3) (settled (both_levels 3) 3 1) → ⊥ }
    ensures other_variables { Settles [] (both_levels 3) (record (both_levels 3) { vars = 7 }) → ⊥ }
    ensures other_literals { Settles [] (both_levels 3) (record (both_levels 3) { lits = pos 3 ∷ pos 4 ∷ minus 5 ∷ minus 6 ∷ [] }) → ⊥ }
    ensures other_level { Settles [] (both_levels 3) (record (both_levels 3) { level = 3 }) → ⊥ }
    ensures more_given { Settles [] (both_levels 3) (both_levels 4) → ⊥ }
    ensures more_marks { Settles [] (both_levels 3) (record (both_levels 3) { marks = (both_levels 3).marks ++ mark 2 (Clause 7) ∷ [] }) → ⊥ }
    ensures level_of_a_literal { Settles [] (both_levels 3) (record (both_levels 3) {
      marks = mark 1 Decided ∷ mark 2 (Late 2 1) ∷ mark 2 Decided
          ∷ mark 2 (Clause 7) ∷ [];
    }) → ⊥ }
{}

/// A lemma joins as the reason of a literal that its own atom forced, under the number that the reason then has.
pub fn lemmas_are_asked_for()
    ensures asked { AreAskedFor (clauses_over 6 []) (both_levels 3) (settled (both_levels 3) 4 1) [] (step.Lemma (of_atom 2) ∷ []) }
    ensures other_atom { AreAskedFor (clauses_over 6 []) (both_levels 3) (settled (both_levels 3) 4 1) [] (step.Lemma (of_atom 1) ∷ []) → ⊥ }
    ensures other_number { AreAskedFor (clauses_over 6 []) (both_levels 3) (settled (both_levels 3) 4 2) [] (step.Lemma (of_atom 2) ∷ []) → ⊥ }
    ensures no_lemma { AreAskedFor (clauses_over 6 []) (both_levels 3) (both_levels 3) [] [] }
{}

/// A clause is unit by a literal of its own that is open, where the others are false.
pub fn unit_in_a_list()
    ensures unit { IsUnitIn (minus 1 ∷ []) (pos 1 ∷ pos 2 ∷ []) (pos 2) }
    ensures not_in_it { IsUnitIn (minus 1 ∷ minus 2 ∷ []) (pos 1 ∷ pos 2 ∷ []) (pos 3) → ⊥ }
    ensures has_value { IsUnitIn (minus 1 ∷ pos 2 ∷ []) (pos 1 ∷ pos 2 ∷ []) (pos 2) → ⊥ }
    ensures two_open { IsUnitIn [] (pos 1 ∷ pos 2 ∷ []) (pos 2) → ⊥ }
{}

/// What an atom had been shown when it forced a literal stands before that literal.
pub fn atoms_were_shown_what_came_before()
    ensures came_later { (p : Instance) (shown : ℕ → List ℤ) → shown 2 ≡ minus 5 ∷ [] → WasForced p shown (both_levels 0).lits 1 2 1 → ⊥ }
    ensures no_atom { (shown : ℕ → List ℤ) → shown 2 ≡ pos 3 ∷ [] → WasForced (clauses_over 6 []) shown (both_levels 0).lits 1 2 1 → ⊥ }
    ensures no_atom_of_a_reason { (cs : List (List ℤ)) (shown : ℕ → List ℤ) → HasReasons (clauses_over 6 []) cs shown (both_levels 0) → ⊥ }
    ensures fewer { (p : Instance) (shown : ℕ → List ℤ) → shown 2 ≡ [] → WasForced p shown (both_levels 0).lits 1 2 1 → ⊥ }
{}

/// A literal may join a trail as a decision, as the one literal of a clause that isn't false, or as what an atom forces by what it
/// was shown, which stands on the trail.
pub fn literals_that_may_join()
    ensures decided { (shown : ℕ → List ℤ) → MayJoin denied [] shown [] (pos 2) Decided }
    ensures implied { (shown : ℕ → List ℤ) → MayJoin denied denied.clauses shown (minus 1 ∷ []) (pos 2) (Clause 1) }
    ensures another_is_open { (shown : ℕ → List ℤ) → MayJoin denied denied.clauses shown [] (pos 2) (Clause 1) → ⊥ }
    ensures not_in_it { (shown : ℕ → List ℤ) → MayJoin denied denied.clauses shown (minus 1 ∷ minus 2 ∷ []) (pos 3) (Clause 1) → ⊥ }
    ensures no_clause { (shown : ℕ → List ℤ) → MayJoin denied denied.clauses shown (minus 1 ∷ []) (pos 2) (Clause 3) → ⊥ }
    ensures forced { MayJoin barred [] (λ a. pos 1 ∷ minus 2 ∷ []) (minus 5 ∷ pos 1 ∷ []) (pos 3) (Late 1 1) }
    ensures shown_more { MayJoin barred [] (λ a. pos 1 ∷ []) (pos 1 ∷ []) (pos 3) (Late 1 2) → ⊥ }
    ensures not_forced { MayJoin barred [] (λ a. []) [] (pos 3) (Late 2 0) → ⊥ }
    ensures not_on_the_trail { MayJoin barred [] (λ a. pos 1 ∷ []) (minus 5 ∷ []) (pos 3) (Late 1 1) → ⊥ }
{}

/// A late reason reads the same of new lists where these begin as the old ones do, as far as it reads.
pub fn lists_that_read_the_same()
    ensures longer { StillShown (λ a. pos 3 ∷ []) (λ a. pos 3 ∷ minus 5 ∷ []) (both_levels 0) }
    ensures shorter { StillShown (λ a. pos 3 ∷ []) (λ a. []) (both_levels 0) → ⊥ }
    ensures another { StillShown (λ a. pos 3 ∷ []) (λ a. pos 4 ∷ []) (both_levels 0) → ⊥ }
    ensures none_shown { StillShown (λ a. []) (λ a. []) (both_levels 0) → ⊥ }
    ensures no_late_reason { StillShown (λ a. pos 3 ∷ []) (λ a. []) worked_trail }
{}

/// The lemma of a literal that an atom forced is of that atom and justified, has the literal, and its others are false.
pub fn explanations()
    ensures forced { AtomForces barred (pos 1 ∷ []) 1 (pos 3) }
    ensures no_atom { AtomForces barred (pos 1 ∷ []) 2 (pos 3) → ⊥ }
    ensures explained { IsExplanation barred (pos 1 ∷ []) 1 (pos 3) (of_1 (minus 1 ∷ pos 3 ∷ []) (by.Path (1 ∷ []))) }
    ensures another_atom { IsExplanation barred (pos 1 ∷ []) 2 (pos 3) (of_1 (minus 1 ∷ pos 3 ∷ []) (by.Path (1 ∷ []))) → ⊥ }
    ensures not_justified { IsExplanation barred (pos 1 ∷ []) 1 (pos 3) (of_1 (minus 1 ∷ pos 3 ∷ []) (by.Path (2 ∷ []))) → ⊥ }
    ensures without_it { IsExplanation barred (pos 1 ∷ minus 3 ∷ []) 1 (minus 2) (of_1 (minus 1 ∷ pos 3 ∷ []) (by.Path (1 ∷ []))) → ⊥ }
    ensures another_is_open { IsExplanation barred [] 1 (pos 3) (of_1 (minus 1 ∷ pos 3 ∷ []) (by.Path (1 ∷ []))) → ⊥ }
{}

/// From the clauses {1, 2} and {-2} the clause {1} is learned where -1 was decided. Its chain is the last step, with its number.
pub fn learned_clauses_join_the_steps()
    ensures learned { Learns denied one_level [] (chain (pos 1 ∷ []) (2 ∷ 1 ∷ []) ∷ []) (learnt (pos 1 ∷ []) 0 3) }
    ensures another_number { Learns denied one_level [] (chain (pos 1 ∷ []) (2 ∷ 1 ∷ []) ∷ []) (learnt (pos 1 ∷ []) 0 4) → ⊥ }
    ensures another_level { Learns denied one_level [] (chain (pos 1 ∷ []) (2 ∷ 1 ∷ []) ∷ []) (learnt (pos 1 ∷ []) 1 3) → ⊥ }
    ensures another_clause { Learns denied one_level [] (chain (pos 1 ∷ []) (2 ∷ 1 ∷ []) ∷ []) (learnt (pos 2 ∷ []) 0 3) → ⊥ }
    ensures another_step { Learns denied one_level [] (chain (pos 2 ∷ []) (1 ∷ []) ∷ []) (learnt (pos 1 ∷ []) 0 3) → ⊥ }
    ensures not_its_end { Learns denied one_level [] (chain (pos 1 ∷ []) (1 ∷ []) ∷ []) (learnt (pos 1 ∷ []) 0 3) → ⊥ }
{}

/// The last step of a refutation is a chain whose end is the empty clause, with its number.
pub fn empty_clauses_join_the_steps()
    ensures refuted { Refutes one_sign [] (chain [] (1 ∷ 2 ∷ []) ∷ []) 3 }
    ensures another_number { Refutes one_sign [] (chain [] (1 ∷ 2 ∷ []) ∷ []) 4 → ⊥ }
    ensures no_chain { Refutes one_sign [] [] 2 → ⊥ }
    ensures not_its_end { Refutes one_sign [] (chain [] (1 ∷ []) ∷ []) 3 → ⊥ }
{}
