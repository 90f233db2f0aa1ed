//! Worked rows: what the words of `mono_clauses` make of two clauses and a short trail.

ghost use Rattle.std.specs.Prelude.{◌≡◌, [], ◌∷◌, pos, Some, None};
ghost use Rattle.mono_clauses.specs.Propagation.{FoundIs, Grows, IsUnitOf, IsFalseOf};
ghost use Rattle.mono_clauses.specs.Store.{no_clauses, other, AddsClause, Follows, FollowsBelow};
ghost use Rattle.mono_clauses.specs.declared.found.Found.TheVariants as found;
ghost use Rattle.mono_steps.specs.WorkedLemmas.{minus};
ghost use Rattle.mono_rows.specs.TwoClauses.{held, two_clauses, watching, all_watched, at_first, decided, implied, decided_again};

/// The clause {1, 2} is unit where 1 is false and 2 is open, and has its own number.
pub fn unit_clauses()
    ensures unit { IsUnitOf two_clauses (minus 1 ∷ []) 4 (pos 2) }
    ensures other_number { IsUnitOf two_clauses (minus 1 ∷ []) 7 (pos 2) → ⊥ }
    ensures no_number { IsUnitOf two_clauses (minus 1 ∷ []) 1 (pos 2) → ⊥ }
    ensures two_open { IsUnitOf two_clauses [] 4 (pos 2) → ⊥ }
    ensures has_value { IsUnitOf two_clauses (minus 1 ∷ pos 2 ∷ []) 4 (pos 2) → ⊥ }
    ensures not_in_it { IsUnitOf two_clauses (minus 1 ∷ minus 2 ∷ []) 4 (pos 3) → ⊥ }
{}

/// It is false where both are.
pub fn false_clauses()
    ensures first { IsFalseOf two_clauses (minus 2 ∷ minus 1 ∷ []) 4 }
    ensures other_number { IsFalseOf two_clauses (minus 2 ∷ minus 1 ∷ []) 7 → ⊥ }
    ensures open_literal { IsFalseOf two_clauses (minus 1 ∷ []) 4 → ⊥ }
    ensures no_clause { IsFalseOf two_clauses (minus 2 ∷ minus 1 ∷ []) 0 → ⊥ }
{}

/// The two watchers of a clause stand beside each other.
pub fn watchers_in_pairs()
    ensures first { other 0 ≡ 1 }
    ensures second { other 1 ≡ 0 }
    ensures of_the_next { other 2 ≡ 3 }
    ensures of_another { other 6 ≡ 7 }
    ensures back { other 7 ≡ 6 }
{}

/// A clause comes at the end with its number.
pub fn clauses_are_added()
    ensures first { AddsClause (no_clauses 3) (record { vars = 3; clauses = held 4 (pos 1 ∷ pos 2 ∷ []) ∷ []; watched = None ∷ None ∷ [] }) 4 (pos 1
        ∷ pos 2 ∷ []) }
    ensures second { AddsClause (record {
      vars = 3;
      clauses = held 4 (pos 1 ∷ pos 2 ∷ []) ∷ [];
      watched = None
          ∷ None ∷ [];
    }) (watching all_watched) 7 (minus 1 ∷ pos 3 ∷ []) }
    ensures other_number { AddsClause (no_clauses 3) (record {
      vars = 3;
      clauses = held 4 (pos 1 ∷ pos 2 ∷ []) ∷ [];
      watched = None
          ∷ None ∷ [];
    }) 5 (pos 1 ∷ pos 2 ∷ []) → ⊥ }
    ensures other_clause { AddsClause (no_clauses 3) (record {
      vars = 3;
      clauses = held 4 (pos 1 ∷ pos 2 ∷ []) ∷ [];
      watched = None
          ∷ None ∷ [];
    }) 4 (pos 1 ∷ pos 3 ∷ []) → ⊥ }
    ensures first_is_lost { AddsClause (record {
      vars = 3;
      clauses = held 4 (pos 1 ∷ pos 2 ∷ []) ∷ [];
      watched = None
          ∷ None ∷ [];
    }) (record { vars = 3; clauses = held 7 (minus 1 ∷ pos 3 ∷ []) ∷ []; watched = None ∷ None ∷ [] }) 7 (minus 1 ∷ pos 3 ∷ []) → ⊥ }
    ensures more_variables { AddsClause (no_clauses 3) (record {
      vars = 4;
      clauses = held 4 (pos 1 ∷ pos 2 ∷ []) ∷ [];
      watched = None
          ∷ None ∷ [];
    }) 4 (pos 1 ∷ pos 2 ∷ []) → ⊥ }
{}

/// Where -1 was given, 2 has to be true at no higher level. A literal that is watched alone has to be true at level 0.
pub fn stores_that_lag_behind()
    ensures open_mate { Follows (watching all_watched) (decided 1) → ⊥ }
    ensures higher_mate { Follows (watching all_watched) (decided_again (pos 2 ∷ []) 1) → ⊥ }
    ensures lower_level { Follows (watching all_watched) (decided_again (pos 3 ∷ []) 0) → ⊥ }
    ensures alone { Follows (watching (Some (pos 2) ∷ Some (pos 2) ∷ None ∷ None ∷ [])) (implied 2) → ⊥ }
    ensures other_variables { Follows (no_clauses 2) (decided 1) → ⊥ }
{}

/// After a false clause the same holds of what stands below the present level.
pub fn stores_that_lag_behind_below()
    ensures open_mate { FollowsBelow (watching all_watched) (decided_again (pos 3 ∷ []) 2) → ⊥ }
    ensures higher_mate { FollowsBelow (watching all_watched) (decided_again (pos 2 ∷ []) 2) → ⊥ }
    ensures alone { FollowsBelow (watching (Some (pos 2) ∷ Some (pos 2) ∷ None ∷ None ∷ [])) (implied 2) → ⊥ }
    ensures other_variables { FollowsBelow (no_clauses 2) (decided 1) → ⊥ }
{}

/// What stands at the present level may not have been given yet, and after a false clause it needn't have been looked at.
/// The other watched literal is true at the same level, or it is the same one, at level 0.
pub fn stores_that_follow()
    ensures empty { Follows (no_clauses 3) (decided 1) }
    ensures not_yet_given { Follows (watching (Some (pos 1) ∷ Some (pos 2) ∷ [])) (decided 0) }
    ensures same_level { Follows (watching (Some (pos 1) ∷ Some (pos 2) ∷ [])) (implied 2) }
    ensures alone_at_level_0 { Follows (watching (Some (pos 2) ∷ Some (pos 2) ∷ [])) at_first }
    ensures present_level { FollowsBelow (watching (Some (pos 1) ∷ Some (pos 2) ∷ [])) (decided 1) }
    ensures alone_below { FollowsBelow (watching (Some (pos 2) ∷ Some (pos 2) ∷ [])) at_first }
{}

/// Each literal that joins a trail is the one open literal of a clause, and literals that stand there are given.
pub fn trails_that_grow()
    ensures same { Grows two_clauses (decided 1) (decided 1) }
    ensures implied { Grows two_clauses (decided 1) (implied 1) }
    ensures given { Grows two_clauses (decided 0) (decided 1) }
    ensures no_clause { Grows [] (decided 1) (implied 1) → ⊥ }
    ensures none_left { Grows two_clauses (decided 1) (decided 2) → ⊥ }
    ensures another_level { Grows two_clauses (decided 1) (decided_again (pos 3 ∷ []) 1) → ⊥ }
{}

/// Nothing is found where no clause is unit or false, all literals were given, and the store follows. Where a clause is
/// false, the store follows what stands below the present level.
pub fn what_is_found()
    ensures nothing { FoundIs (no_clauses 3) (decided 1) found.Quiet }
    ensures unit_clause { FoundIs (watching []) (decided 1) found.Quiet → ⊥ }
    ensures not_yet_given { FoundIs (no_clauses 3) (decided 0) found.Quiet → ⊥ }
    ensures lags_behind { FoundIs (watching all_watched) (decided_again (pos 2 ∷ []) 2) found.Quiet → ⊥ }
    ensures false_clause { FoundIs (watching []) (decided_again (minus 2 ∷ []) 2) (found.False 4) }
    ensures open_literal { FoundIs (watching []) (decided 1) (found.False 4) → ⊥ }
    ensures lags_behind_below { FoundIs (watching all_watched) (decided_again (minus 2 ∷ []) 2) (found.False 4) → ⊥ }
{}
