//! Worked rows: partial assignments, numbers in an order, lists of places, and lists that stand in one table.

ghost use Rattle.std.specs.Prelude.{◌≡◌, [], ◌∷◌, ℕ, pos, true, false};
ghost use Rattle.mono_base.specs.Buckets.{listed_in, lists_in};
ghost use Rattle.mono_base.specs.Partial.{Extends, HasNoOpen};
ghost use Rattle.mono_base.specs.Ranking.{AreInverse};
ghost use Rattle.mono_base.specs.Worked.{tft, turned};
ghost use Rattle.mono_base.specs.Worklist.{IsEmpty, IsLast, IsTaken};
ghost use Rattle.mono_steps.specs.WorkedLemmas.{minus};

/// An assignment extends a partial one where it makes each of its literals true.
pub fn assignments_that_extend()
    ensures extends { Extends tft (minus 2 ∷ pos 3 ∷ []) }
    ensures differs { Extends tft (pos 3 ∷ pos 2 ∷ []) → ⊥ }
{}

/// No literal is open where the partial assignment gives each variable a value.
pub fn clauses_without_an_open_literal()
    ensures none_open { HasNoOpen (pos 2 ∷ []) ((minus 2 ∷ []) ∷ []) }
    ensures one_open { HasNoOpen (pos 2 ∷ []) ((pos 2 ∷ pos 3 ∷ []) ∷ []) → ⊥ }
{}

/// The items by place and the places by item lead back to where one began.
pub fn places_of_items()
    ensures turned { AreInverse turned.items turned.places }
    ensures another_way { AreInverse turned.items turned.items → ⊥ }
    ensures one_place_more { AreInverse [] (0 ∷ []) → ⊥ }
    ensures no_such_item { AreInverse (1 ∷ []) (0 ∷ []) → ⊥ }
    ensures no_such_place { AreInverse (0 ∷ []) (1 ∷ []) → ⊥ }
{}

/// The last place is one that stands in the list and is marked. Where none is left, none stands in it and none is marked.
pub fn places_that_are_left()
    ensures last_unmarked { IsLast (record { listed = false ∷ []; places = 0 ∷ [] }) 0 → ⊥ }
    ensures last_of_none { IsLast (record { listed = true ∷ []; places = [] }) 0 → ⊥ }
    ensures taken_unmarked { IsTaken (record { listed = false ∷ []; places = 0 ∷ [] }) (record { listed = false ∷ []; places = [] }) 0 → ⊥ }
    ensures one_stands { IsEmpty (record { listed = false ∷ []; places = 0 ∷ [] }) → ⊥ }
    ensures one_is_marked { IsEmpty (record { listed = true ∷ []; places = [] }) → ⊥ }
{}

/// A list in a table is as many of its items as the stretch has, from the stretch's first place on.
pub fn lists_in_one_table()
    ensures first { listed_in {T = ℕ} (1 ∷ 2 ∷ 3 ∷ []) (record { start = 0; len = 2; room = 2 }) ≡ 1 ∷ 2 ∷ [] }
    ensures last { listed_in {T = ℕ} (1 ∷ 2 ∷ 3 ∷ []) (record { start = 2; len = 1; room = 4 }) ≡ 3 ∷ [] }
    ensures none { listed_in {T = ℕ} (1 ∷ 2 ∷ 3 ∷ []) (record { start = 1; len = 0; room = 1 }) ≡ [] }
    ensures by_key { lists_in {T = ℕ} (1 ∷ 2 ∷ 3 ∷ []) (record { start = 2; len = 1; room = 1 } ∷ record { start = 0; len = 2; room = 2 } ∷ [])
        ≡ (3 ∷ []) ∷ (1 ∷ 2 ∷ []) ∷ [] }
{}
