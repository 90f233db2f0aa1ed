//! Worked rows: what the words of `mono_trail` make of a small trail and a small order.

ghost use Rattle.std.specs.Prelude.{◌≡◌, [], ◌∷◌, pos, true, false, Some, None};
ghost use Rattle.mono_steps.specs.WorkedLemmas.{minus};
ghost use Rattle.mono_trail.specs.declared.reason.Reason.TheVariants.{Decided, Clause, Late};
ghost use Rattle.mono_trail.specs.Luby.{Luby};
ghost use Rattle.mono_trail.specs.Moves.{HasLate, IsVar, joined, lowered, gave, settled};
ghost use Rattle.mono_trail.specs.Order.{AllOpenWait, Leaves, AllLeave, NoneOpen, all_wait};
ghost use Rattle.mono_trail.specs.Places.{place_in, level_at, reason_at};
ghost use Rattle.mono_trail.specs.Seen.{IsUnseen};
ghost use Rattle.mono_trail.specs.TrailView.{no_literals, count_to, IsSoundTrail};
ghost use Rattle.mono_rows.specs.SmallTrail.{mark, first_level, both_levels, order};

/// A decision begins a level, and what is implied joins the present one. Nothing more is given.
pub fn literals_join()
    ensures decided { joined (first_level 2) (minus 5) Decided
        ≡ record {
          vars = 6;
          lits = pos 3 ∷ pos 4 ∷ minus 5 ∷ [];
          marks = mark 1 Decided ∷ mark 1 (Late 2 1) ∷ mark 2 Decided ∷ [];
          level = 2;
          given = 2;
        } }
    ensures by_clause { joined (no_literals 6) (pos 1) (Clause 9)
        ≡ record { vars = 6; lits = pos 1 ∷ []; marks = mark 0 (Clause 9) ∷ []; level = 0; given = 0 } }
    ensures late { joined (first_level 1) (pos 6) (Late 3 2)
        ≡ record {
          vars = 6;
          lits = pos 3 ∷ pos 4 ∷ pos 6 ∷ [];
          marks = mark 1 Decided ∷ mark 1 (Late 2 1) ∷ mark 1 (Late 3 2) ∷ [];
          level = 1;
          given = 1;
        } }
{}

/// Going back drops what is of higher levels. Of what stays as much is given as was.
pub fn levels_are_dropped()
    ensures first { lowered 1 (both_levels 3) ≡ first_level 2 }
    ensures not_yet_given { lowered 1 (both_levels 1) ≡ first_level 1 }
    ensures all { lowered 0 (both_levels 3) ≡ no_literals 6 }
    ensures none { lowered 2 (both_levels 3) ≡ both_levels 3 }
{}

/// One literal more is given, and all else stays.
pub fn literals_are_given()
    ensures { gave (both_levels 3) ≡ both_levels 4 }
{}

/// The reason of the variable's literal becomes the clause of a number, and its level stays. An open variable has none.
pub fn reasons_are_settled()
    ensures late { settled (both_levels 3) 4 9
        ≡ record {
          vars = 6;
          lits = pos 3 ∷ pos 4 ∷ minus 5 ∷ pos 6 ∷ [];
          marks = mark 1 Decided ∷ mark 1 (Clause 9) ∷ mark 2 Decided
              ∷ mark 2 (Clause 7) ∷ [];
          level = 2;
          given = 3;
        } }
    ensures open_variable { settled (both_levels 3) 1 9 ≡ both_levels 3 }
{}

/// A reason that may be settled is that of a literal that an atom forced.
pub fn late_reasons()
    ensures late { HasLate (both_levels 3) 4 }
    ensures by_clause { HasLate (both_levels 3) 6 → ⊥ }
    ensures decided { HasLate (both_levels 3) 3 → ⊥ }
    ensures open_variable { HasLate (both_levels 3) 1 → ⊥ }
{}

/// A literal is found by its variable, whatever its sign, and the levels end where the next one begins.
pub fn places_levels_and_reasons()
    ensures positive { place_in (both_levels 3).lits 4 ≡ Some 1 }
    ensures negative { place_in (both_levels 3).lits 5 ≡ Some 2 }
    ensures open_variable { place_in (both_levels 3).lits 1 ≡ None }
    ensures level { level_at (both_levels 3).marks 1 ≡ 1 }
    ensures next_level { level_at (both_levels 3).marks 2 ≡ 2 }
    ensures decided { reason_at (both_levels 3).marks 2 ≡ Decided }
    ensures late { reason_at (both_levels 3).marks 1 ≡ Late 2 1 }
    ensures by_clause { reason_at (both_levels 3).marks 3 ≡ Clause 7 }
    ensures level_beyond { level_at (both_levels 3).marks 4 ≡ 0 }
    ensures reason_beyond { reason_at (both_levels 3).marks 4 ≡ Late 0 0 }
    ensures of_level_0 { count_to 0 (both_levels 3).marks ≡ 0 }
    ensures to_level_1 { count_to 1 (both_levels 3).marks ≡ 2 }
    ensures to_level_2 { count_to 2 (both_levels 3).marks ≡ 4 }
{}

/// Variables are counted from 1.
pub fn variables_in_range()
    ensures first { IsVar 3 1 }
    ensures last { IsVar 3 3 }
    ensures none { IsVar 3 0 → ⊥ }
    ensures beyond { IsVar 3 4 → ⊥ }
{}

/// A trail may have a literal of each variable, all of them may be given, and there may be a million variables.
pub fn sound_trails()
    ensures whole { IsSoundTrail (both_levels 4) }
    ensures full { IsSoundTrail (record { vars = 2; lits = pos 2 ∷ minus 1 ∷ []; marks = mark 0 (Clause 7) ∷ mark 1 Decided ∷ []; level = 1; given = 0 }) }
    ensures most_variables { IsSoundTrail (no_literals 1000000) }
{}

/// A trail has a literal of a variable once, each with its mark, and its levels climb at decisions alone.
pub fn unsound_trails()
    ensures both_signs { IsSoundTrail (record {
      vars = 6;
      lits = pos 3 ∷ minus 3 ∷ [];
      marks = mark 1 Decided ∷ mark 1 (Clause 7) ∷ [];
      level = 1;
      given = 0;
    }) → ⊥ }
    ensures beyond { IsSoundTrail (record { vars = 3; lits = pos 3 ∷ pos 4 ∷ []; marks = mark 1 Decided ∷ mark 1 (Clause 7) ∷ []; level = 1; given = 0 }) → ⊥ }
    ensures no_mark { IsSoundTrail (record { vars = 6; lits = pos 3 ∷ pos 4 ∷ []; marks = mark 1 Decided ∷ []; level = 1; given = 0 }) → ⊥ }
    ensures level_above { IsSoundTrail (record {
      vars = 6;
      lits = pos 3 ∷ pos 4 ∷ [];
      marks = mark 1 Decided ∷ mark 1 (Clause 7) ∷ [];
      level = 2;
      given = 0;
    }) → ⊥ }
    ensures implied_climbs { IsSoundTrail (record {
      vars = 6;
      lits = pos 3 ∷ pos 4 ∷ [];
      marks = mark 1 Decided ∷ mark 2 (Clause 7) ∷ [];
      level = 2;
      given = 0;
    }) → ⊥ }
    ensures decided_stays { IsSoundTrail (record {
      vars = 6;
      lits = pos 3 ∷ pos 4 ∷ [];
      marks = mark 1 Decided ∷ mark 1 Decided ∷ [];
      level = 1;
      given = 0;
    }) → ⊥ }
    ensures too_many_given { IsSoundTrail (first_level 3) → ⊥ }
    ensures too_many_variables { IsSoundTrail (no_literals 1000001) → ⊥ }
{}

/// In a new order each variable waits, with the sign false.
pub fn new_orders()
    ensures two { all_wait 2 ≡ record { waits = true ∷ true ∷ []; phases = false ∷ false ∷ [] } }
    ensures none { all_wait 0 ≡ record { waits = []; phases = [] } }
{}

/// Of the variables 1 to 3 the open one leaves the order, and the signs stay. Where all have values, none is left in it.
pub fn variables_leave_the_order()
    ensures with_assigned { Leaves (order (true ∷ true ∷ true ∷ [])) (order (false ∷ false ∷ true ∷ [])) (pos 1 ∷ []) 2 }
    ensures assigned { Leaves (order (true ∷ true ∷ true ∷ [])) (order (true ∷ false ∷ true ∷ [])) (pos 2 ∷ []) 2 → ⊥ }
    ensures did_not_wait { Leaves (order (true ∷ false ∷ true ∷ [])) (order (true ∷ false ∷ true ∷ [])) (pos 1 ∷ []) 2 → ⊥ }
    ensures waits_on { Leaves (order (true ∷ true ∷ true ∷ [])) (order (true ∷ true ∷ true ∷ [])) (pos 1 ∷ []) 2 → ⊥ }
    ensures no_variable { Leaves (order (true ∷ true ∷ true ∷ [])) (order (true ∷ true ∷ true ∷ [])) (pos 1 ∷ []) 4 → ⊥ }
    ensures other_is_lost { Leaves (order (true ∷ true ∷ true ∷ [])) (order (true ∷ false ∷ false ∷ [])) (pos 1 ∷ []) 2 → ⊥ }
    ensures other_joins { Leaves (order (true ∷ true ∷ false ∷ [])) (order (true ∷ false ∷ true ∷ [])) (pos 1 ∷ pos 3 ∷ []) 2 → ⊥ }
    ensures sign_is_lost { Leaves (order (true ∷ true ∷ true ∷ [])) (record {
      waits = true ∷ false ∷ true ∷ [];
      phases = true ∷ true
          ∷ true ∷ [];
    }) (pos 1 ∷ []) 2 → ⊥ }
    ensures shorter { Leaves (order (true ∷ true ∷ [])) (order (true ∷ [])) (pos 1 ∷ []) 2 → ⊥ }
    ensures all_leave { AllLeave (order (true ∷ false ∷ true ∷ [])) (order (false ∷ false ∷ false ∷ [])) }
    ensures all_leave_signs { AllLeave (order (true ∷ [])) (record { waits = false ∷ []; phases = true ∷ [] }) → ⊥ }
    ensures one_stays { AllLeave (order (true ∷ false ∷ true ∷ [])) (order (false ∷ false ∷ true ∷ [])) → ⊥ }
    ensures none_open { NoneOpen 2 (minus 2 ∷ pos 1 ∷ []) }
    ensures open_variable { NoneOpen 3 (pos 1 ∷ minus 3 ∷ []) → ⊥ }
    ensures assigned_and_gone { AllOpenWait (order (false ∷ true ∷ true ∷ [])) (pos 1 ∷ []) }
    ensures open_and_gone { AllOpenWait (order (true ∷ false ∷ true ∷ [])) (pos 1 ∷ []) → ⊥ }
{}

/// Luby's sequence begins with 1, 1, 2, 1, 1, 2, 4, 1.
pub fn first_terms_of_lubys_sequence()
    ensures first { Luby 1 1 }
    ensures second { Luby 2 1 }
    ensures third { Luby 3 2 }
    ensures sixth { Luby 6 2 }
    ensures seventh { Luby 7 4 }
    ensures eighth { Luby 8 1 }
    ensures no_other { Luby 6 1 → ⊥ }
{}

/// A marked place is seen.
pub fn marked_places()
    ensures none { IsUnseen (false ∷ false ∷ []) }
    ensures second { IsUnseen (false ∷ true ∷ []) → ⊥ }
{}
