//! What holds of literals and clauses by their definitions.

ghost use Rattle.std.specs.Prelude.{◌≡◌, ℕ, ℤ, Bool, List, IsTrue};
ghost use Rattle.mono_base.specs.Literal.{clause_true, all_true, has_lit};
ghost use Rattle.mono_base.specs.Partial.{Extends, HasNoOpen, unit_quiet};

/// A clause that contains every literal of a true clause is true.
pub fn wider_clause_is_true()
    ensures { (a : ℕ → Bool) (c d : List ℤ) → ((l : ℤ) → IsTrue (has_lit c l) → IsTrue (has_lit d l)) → IsTrue (clause_true a c) → IsTrue (clause_true a d) }
{}

/// Where no literal of the clauses is open and unit propagation has nothing to do, each assignment that extends the
/// partial one makes every clause true.
pub fn quiet_clauses_are_true()
    ensures { (a : ℕ → Bool) (t : List ℤ) (clauses : List (List ℤ)) → Extends a t → HasNoOpen t clauses → IsTrue (unit_quiet clauses t)
        → IsTrue (all_true a clauses) }
{}
