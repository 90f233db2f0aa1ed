//! What a search keeps: its trail's reasons under each of its moves, and what a learned clause is below its level.

ghost use Rattle.std.specs.Prelude.{◌≡◌, ◌≤◌, ◌<◌, ◌++◌, ◌∷◌, [], ◌+◌, ℕ, ℤ, List, take, length};
ghost use Rattle.mono_base.specs.Literal.{lit_at};
ghost use Rattle.mono_problem.specs.Instance.{Instance};
ghost use Rattle.mono_steps.specs.declared.lemma.Lemma.{Lemma};
ghost use Rattle.mono_trail.specs.declared.reason.Reason.{Reason};
ghost use Rattle.mono_trail.specs.declared.reason.Reason.TheVariants.{Late};
ghost use Rattle.mono_trail.specs.Places.{reason_at};
ghost use Rattle.mono_trail.specs.TrailView.{TrailView, IsSoundTrail, count_to};
ghost use Rattle.mono_trail.specs.Moves.{joined, lowered, settled_at};
ghost use Rattle.mono_learn.specs.Explain.{IsExplanation};
ghost use Rattle.mono_learn.specs.Reasons.{HasReasons, WasUnit, WasForced};
ghost use Rattle.mono_learn.specs.Settled.{Settles};
ghost use Rattle.mono_learn.specs.Learned.{IsLearnt};
ghost use Rattle.mono_learn.specs.ReasonsStay.{MayJoin, StillShown, IsUnitIn};

/// A literal that is decided, that a clause implies now, or that an atom forces, its lemma left for later, keeps the
/// reasons.
pub fn joining_keeps_reasons()
    ensures { (p : Instance) (cs : List (List ℤ)) (shown : ℕ → List ℤ) (t : TrailView) (l : ℤ) (why : Reason) → IsSoundTrail t → HasReasons p cs shown t
        → MayJoin p cs shown t.lits l why → HasReasons p cs shown (joined t l why) }
{}

/// So does going back.
pub fn going_back_keeps_reasons()
    ensures { (p : Instance) (cs : List (List ℤ)) (shown : ℕ → List ℤ) (t : TrailView) (level : ℕ) → HasReasons p cs shown t
        → HasReasons p cs shown (lowered level t) }
{}

/// So do more clauses, and lists of literals that read the same where a late reason reads them.
pub fn more_clauses_keep_reasons()
    ensures clauses { (p : Instance) (cs more : List (List ℤ)) (shown : ℕ → List ℤ) (t : TrailView) → HasReasons p cs shown t
        → HasReasons p (cs ++ more) shown t }
    ensures shown { (p : Instance) (cs : List (List ℤ)) (old new : ℕ → List ℤ) (t : TrailView) → StillShown old new t → HasReasons p cs old t
        → HasReasons p cs new t }
{}

/// So does settling: the lemma of a late literal was unit when the literal was forced, and reasons may be settled one
/// after the other.
pub fn settling_keeps_reasons()
    ensures unit { (p : Instance) (cs : List (List ℤ)) (shown : ℕ → List ℤ) (t : List ℤ) (k a m : ℕ) (l : Lemma) → WasForced p shown t k a m
        → IsExplanation p (take m (shown a)) a (lit_at t k) l → WasUnit (cs ++ l.clause ∷ []) t k (length cs + 1) }
    ensures one { (cs : List (List ℤ)) (t : TrailView) (k a m n : ℕ) → length t.marks ≡ length t.lits → k < length t.lits
        → reason_at t.marks k ≡ Late a m → WasUnit cs t.lits k n → Settles cs t (settled_at t k n) }
    ensures several { (cs : List (List ℤ)) (t u v : TrailView) → Settles cs t u → Settles cs u v → Settles cs t v }
    ensures more { (cs ds : List (List ℤ)) (t u : TrailView) → Settles cs t u → Settles (cs ++ ds) t u }
    ensures keeps { (p : Instance) (cs : List (List ℤ)) (shown : ℕ → List ℤ) (t u : TrailView) → Settles cs t u → HasReasons p cs shown t
        → HasReasons p cs shown u }
{}

/// By the literals up to each level from `back_to` on and below the present one, one literal of the learned clause is open
/// and the others are false. So it is unit after going back, and new by what stood before the present level.
pub fn learned_clauses_assert()
    ensures { (t : TrailView) (c : List ℤ) (back level : ℕ) → IsSoundTrail t → (a : IsLearnt t c back) → back ≤ level → level < t.level
        → IsUnitIn (take (count_to level t.marks) t.lits) c a.lit }
{}
