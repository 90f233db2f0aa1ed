//! Worked rows: what the definitions make of small literals, clauses, partial assignments, orders and lists of places.

ghost use Rattle.std.specs.Prelude.{◌≡◌, ◌∷◌, [], true, false, pos, negsuc, Some, None};
ghost use Rattle.mono_base.specs.declared.value.Value.TheVariants.{Yes, No, Unset};
ghost use Rattle.mono_base.specs.Literal.{var_of, is_lit, IsLitWithin, slot, lit_at, lit_true, clause_true, all_true, has_lit, within, is_same_set, has_opposites, without, value_in, first_false};
ghost use Rattle.mono_base.specs.Partial.{has_var, is_partial, is_true_in, is_false_in, is_open_in, value_by, is_false_clause, others_false, extends, has_two, is_quiet, unit_quiet, has_no_open};
ghost use Rattle.mono_base.specs.Numbers.{has};
ghost use Rattle.mono_base.specs.Ranking.{exchanged, in_order, with_exchange};
ghost use Rattle.mono_base.specs.Worklist.{all_listed, is_listed, last_of, none_listed, IsEmpty, IsLast, IsTaken};
ghost use Rattle.mono_base.specs.Worked.{tft, all_on, turned, two_of_three};

/// A literal is a number other than 0, and its variable is its magnitude.
pub fn literals_are_numbers()
    ensures positive { var_of (pos 3) ≡ 3 }
    ensures negative { var_of (negsuc 2) ≡ 3 }
    ensures one { is_lit (pos 1) ≡ true }
    ensures minus_one { is_lit (negsuc 0) ≡ true }
    ensures zero { is_lit (pos 0) ≡ false }
{}

/// Each literal has a place of its own in a table by literals.
pub fn places_in_tables()
    ensures positive { slot (pos 1) ≡ 2 }
    ensures negative { slot (negsuc 0) ≡ 3 }
    ensures next_positive { slot (pos 2) ≡ 4 }
    ensures next_negative { slot (negsuc 1) ≡ 5 }
{}

/// Literals over the variables 1 to 3.
pub fn literals_within_three()
    ensures first { IsLitWithin 3 (pos 1) }
    ensures last { IsLitWithin 3 (negsuc 2) }
    ensures zero { ¬ IsLitWithin 3 (pos 0) }
    ensures past { ¬ IsLitWithin 3 (pos 4) }
    ensures past_negative { ¬ IsLitWithin 3 (negsuc 3) }
{}

/// A list of values begins with variable 1. There is no variable 0, and beyond the list each is false.
pub fn values_begin_with_variable_1()
    ensures first { value_in (true ∷ false ∷ []) 1 ≡ true }
    ensures second { value_in (false ∷ true ∷ []) 2 ≡ true }
    ensures own { value_in (true ∷ false ∷ []) 2 ≡ false }
    ensures zero { value_in (true ∷ true ∷ []) 0 ≡ false }
    ensures beyond { value_in (true ∷ true ∷ []) 3 ≡ false }
{}

/// A literal is true as its sign says. 0 is never true.
pub fn literals_are_true_by_sign()
    ensures positive { lit_true tft (pos 1) ≡ true }
    ensures negative { lit_true tft (negsuc 1) ≡ true }
    ensures positive_false { lit_true tft (pos 2) ≡ false }
    ensures negative_false { lit_true tft (negsuc 0) ≡ false }
    ensures zero { lit_true all_on (pos 0) ≡ false }
{}

/// A clause is true where one of its literals is.
pub fn clauses_are_true_by_one_literal()
    ensures first { clause_true tft (pos 1 ∷ pos 2 ∷ []) ≡ true }
    ensures last { clause_true tft (pos 2 ∷ negsuc 0 ∷ pos 3 ∷ []) ≡ true }
    ensures none { clause_true tft (pos 2 ∷ negsuc 0 ∷ []) ≡ false }
    ensures empty { clause_true tft [] ≡ false }
    ensures opposites { clause_true tft (pos 2 ∷ negsuc 1 ∷ []) ≡ true }
{}

/// All clauses are true where none is false.
pub fn all_clauses_are_true()
    ensures each { all_true tft ((pos 1 ∷ []) ∷ (pos 2 ∷ pos 3 ∷ []) ∷ []) ≡ true }
    ensures first_false { all_true tft ((pos 2 ∷ []) ∷ (pos 1 ∷ []) ∷ []) ≡ false }
    ensures last_false { all_true tft ((pos 1 ∷ []) ∷ (pos 2 ∷ []) ∷ []) ≡ false }
    ensures no_clauses { all_true tft [] ≡ true }
    ensures empty_clause { all_true tft ([] ∷ []) ≡ false }
{}

/// The first false clause is named, from 1.
pub fn first_false_clause()
    ensures none { first_false tft ((pos 1 ∷ []) ∷ (pos 3 ∷ []) ∷ []) ≡ None }
    ensures first { first_false tft ((pos 2 ∷ []) ∷ (pos 1 ∷ []) ∷ []) ≡ Some 1 }
    ensures third { first_false tft ((pos 1 ∷ []) ∷ (pos 3 ∷ []) ∷ [] ∷ (pos 2 ∷ []) ∷ []) ≡ Some 3 }
{}

/// Clauses are read as sets: order and repeats don't matter, signs do.
pub fn clauses_are_sets()
    ensures first { lit_at (pos 1 ∷ negsuc 1 ∷ []) 0 ≡ pos 1 }
    ensures second { lit_at (pos 1 ∷ negsuc 1 ∷ []) 1 ≡ negsuc 1 }
    ensures past { lit_at (pos 1 ∷ negsuc 1 ∷ []) 2 ≡ pos 0 }
    ensures has { has_lit (pos 1 ∷ negsuc 1 ∷ []) (negsuc 1) ≡ true }
    ensures has_first { has_lit (pos 1 ∷ negsuc 1 ∷ []) (pos 1) ≡ true }
    ensures other_sign { has_lit (pos 1 ∷ negsuc 1 ∷ []) (pos 2) ≡ false }
    ensures within { within (pos 1 ∷ pos 1 ∷ []) (pos 2 ∷ pos 1 ∷ []) ≡ true }
    ensures not_within { within (pos 1 ∷ pos 2 ∷ []) (pos 1 ∷ []) ≡ false }
    ensures empty_within { within [] (pos 1 ∷ []) ≡ true }
    ensures same { is_same_set (pos 1 ∷ pos 2 ∷ []) (pos 2 ∷ pos 1 ∷ pos 1 ∷ []) ≡ true }
    ensures smaller { is_same_set (pos 1 ∷ []) (pos 1 ∷ pos 2 ∷ []) ≡ false }
    ensures larger { is_same_set (pos 1 ∷ pos 2 ∷ []) (pos 1 ∷ []) ≡ false }
    ensures opposites { has_opposites (pos 1 ∷ pos 2 ∷ negsuc 0 ∷ []) ≡ true }
    ensures no_opposites { has_opposites (pos 1 ∷ pos 2 ∷ pos 1 ∷ []) ≡ false }
    ensures without { without (pos 1 ∷ pos 2 ∷ negsuc 0 ∷ pos 1 ∷ []) (pos 1) ≡ pos 2 ∷ negsuc 0 ∷ [] }
{}

/// A partial assignment has literals over different variables.
pub fn partial_assignments()
    ensures empty { is_partial [] ≡ true }
    ensures different { is_partial (pos 1 ∷ negsuc 1 ∷ pos 3 ∷ []) ≡ true }
    ensures twice { is_partial (pos 1 ∷ pos 1 ∷ []) ≡ false }
    ensures both_signs { is_partial (pos 2 ∷ pos 1 ∷ negsuc 0 ∷ []) ≡ false }
    ensures zero { is_partial (pos 1 ∷ pos 0 ∷ []) ≡ false }
    ensures has_var { has_var (pos 1 ∷ negsuc 1 ∷ []) 2 ≡ true }
    ensures has_first_var { has_var (pos 1 ∷ negsuc 1 ∷ []) 1 ≡ true }
    ensures has_no_var { has_var (pos 1 ∷ negsuc 1 ∷ []) 3 ≡ false }
{}

/// Under the literals 2 and -3, a literal is true, false or open.
pub fn values_of_literals()
    ensures true_positive { is_true_in (pos 2 ∷ negsuc 2 ∷ []) (pos 2) ≡ true }
    ensures true_negative { is_true_in (pos 2 ∷ negsuc 2 ∷ []) (negsuc 2) ≡ true }
    ensures not_true { is_true_in (pos 2 ∷ negsuc 2 ∷ []) (negsuc 1) ≡ false }
    ensures false_positive { is_false_in (pos 2 ∷ negsuc 2 ∷ []) (pos 3) ≡ true }
    ensures false_negative { is_false_in (pos 2 ∷ negsuc 2 ∷ []) (negsuc 1) ≡ true }
    ensures not_false { is_false_in (pos 2 ∷ negsuc 2 ∷ []) (pos 2) ≡ false }
    ensures open { is_open_in (pos 2 ∷ negsuc 2 ∷ []) (pos 1) ≡ true }
    ensures true_not_open { is_open_in (pos 2 ∷ negsuc 2 ∷ []) (pos 2) ≡ false }
    ensures false_not_open { is_open_in (pos 2 ∷ negsuc 2 ∷ []) (pos 3) ≡ false }
    ensures yes { value_by (pos 2 ∷ negsuc 2 ∷ []) (negsuc 2) ≡ Yes }
    ensures no { value_by (pos 2 ∷ negsuc 2 ∷ []) (negsuc 1) ≡ No }
    ensures unset { value_by (pos 2 ∷ negsuc 2 ∷ []) (negsuc 0) ≡ Unset }
{}

/// A clause is false where each of its literals is, so the empty clause always is.
pub fn false_clauses()
    ensures each { is_false_clause (pos 2 ∷ negsuc 2 ∷ []) (negsuc 1 ∷ pos 3 ∷ []) ≡ true }
    ensures one_open { is_false_clause (pos 2 ∷ negsuc 2 ∷ []) (negsuc 1 ∷ pos 1 ∷ []) ≡ false }
    ensures one_true { is_false_clause (pos 2 ∷ negsuc 2 ∷ []) (pos 2 ∷ pos 3 ∷ []) ≡ false }
    ensures empty { is_false_clause [] [] ≡ true }
    ensures but_open { others_false (pos 2 ∷ []) (pos 1 ∷ negsuc 1 ∷ pos 1 ∷ []) (pos 1) ≡ true }
    ensures but_another { others_false (pos 2 ∷ []) (pos 1 ∷ negsuc 1 ∷ []) (pos 3) ≡ false }
    ensures two_open { others_false (pos 2 ∷ []) (pos 1 ∷ pos 3 ∷ []) (pos 1) ≡ false }
{}

/// An assignment extends a partial one where it makes each of its literals true.
pub fn extended_assignments()
    ensures extends { extends tft (negsuc 1 ∷ pos 3 ∷ []) ≡ true }
    ensures first_differs { extends tft (pos 2 ∷ pos 3 ∷ []) ≡ false }
    ensures last_differs { extends tft (pos 3 ∷ pos 2 ∷ []) ≡ false }
    ensures empty { extends tft [] ≡ true }
{}

/// Two literals of a list differ, or all are one.
pub fn different_literals()
    ensures two { has_two (pos 2 ∷ pos 2 ∷ pos 3 ∷ []) ≡ true }
    ensures signs { has_two (pos 2 ∷ negsuc 1 ∷ []) ≡ true }
    ensures one_twice { has_two (pos 2 ∷ pos 2 ∷ []) ≡ false }
    ensures one { has_two (pos 2 ∷ []) ≡ false }
    ensures none { has_two [] ≡ false }
{}

/// A clause is quiet by a true literal, or by two different open ones.
pub fn quiet_clauses()
    ensures two_open { is_quiet [] (pos 2 ∷ pos 3 ∷ []) ≡ true }
    ensures one_open { is_quiet [] (pos 2 ∷ []) ≡ false }
    ensures one_open_twice { is_quiet [] (pos 2 ∷ pos 2 ∷ []) ≡ false }
    ensures unit { is_quiet (negsuc 1 ∷ []) (pos 2 ∷ pos 3 ∷ []) ≡ false }
    ensures two_left { is_quiet (negsuc 1 ∷ []) (pos 2 ∷ pos 3 ∷ pos 4 ∷ []) ≡ true }
    ensures true_literal { is_quiet (pos 3 ∷ []) (pos 2 ∷ pos 3 ∷ []) ≡ true }
    ensures all_false { is_quiet (negsuc 1 ∷ negsuc 2 ∷ []) (pos 2 ∷ pos 3 ∷ []) ≡ false }
    ensures empty { is_quiet [] [] ≡ false }
    ensures each { unit_quiet ((pos 2 ∷ pos 3 ∷ []) ∷ (pos 2 ∷ negsuc 3 ∷ []) ∷ []) [] ≡ true }
    ensures last_is_not { unit_quiet ((pos 2 ∷ pos 3 ∷ []) ∷ (pos 2 ∷ []) ∷ []) [] ≡ false }
    ensures first_is_not { unit_quiet ((pos 2 ∷ []) ∷ (pos 2 ∷ pos 3 ∷ []) ∷ []) [] ≡ false }
    ensures no_clauses { unit_quiet [] [] ≡ true }
{}

/// Clauses with no open literal.
pub fn clauses_without_open_literals()
    ensures none { has_no_open (pos 2 ∷ negsuc 2 ∷ []) ((pos 2 ∷ pos 3 ∷ []) ∷ (negsuc 1 ∷ []) ∷ []) ≡ true }
    ensures first_open { has_no_open (pos 2 ∷ []) ((pos 3 ∷ pos 2 ∷ []) ∷ []) ≡ false }
    ensures last_open { has_no_open (pos 2 ∷ []) ((pos 2 ∷ []) ∷ (pos 2 ∷ pos 3 ∷ []) ∷ []) ≡ false }
    ensures no_clauses { has_no_open [] [] ≡ true }
{}

/// A number stands in a list at any place.
pub fn numbers_stand_in_lists()
    ensures first { has (3 ∷ 5 ∷ []) 3 ≡ true }
    ensures last { has (3 ∷ 5 ∷ []) 5 ≡ true }
    ensures between { has (3 ∷ 5 ∷ []) 4 ≡ false }
    ensures none { has [] 0 ≡ false }
{}

/// Items change places, and the places by item follow.
pub fn items_change_places()
    ensures own_order { in_order 3 ≡ record { items = 0 ∷ 1 ∷ 2 ∷ []; places = 0 ∷ 1 ∷ 2 ∷ [] } }
    ensures exchanged { exchanged (1 ∷ 2 ∷ 0 ∷ []) 0 2 ≡ 0 ∷ 2 ∷ 1 ∷ [] }
    ensures same_place { exchanged (1 ∷ 2 ∷ 0 ∷ []) 1 1 ≡ 1 ∷ 2 ∷ 0 ∷ [] }
    ensures places_follow { with_exchange turned 0 2 ≡ record { items = 0 ∷ 2 ∷ 1 ∷ []; places = 0 ∷ 2 ∷ 1 ∷ [] } }
    ensures one_place { with_exchange turned 1 1 ≡ turned }
{}

/// Places are marked, and listed in the order in which they joined.
pub fn places_are_listed()
    ensures none { none_listed 2 ≡ record { listed = false ∷ false ∷ []; places = [] } }
    ensures all { all_listed 2 ≡ record { listed = true ∷ true ∷ []; places = 0 ∷ 1 ∷ [] } }
    ensures marked { is_listed (true ∷ false ∷ []) 0 ≡ true }
    ensures unmarked { is_listed (true ∷ false ∷ []) 1 ≡ false }
    ensures beyond { is_listed (true ∷ true ∷ []) 2 ≡ false }
    ensures last { last_of (4 ∷ 7 ∷ 2 ∷ []) ≡ 2 }
    ensures last_of_one { last_of (4 ∷ []) ≡ 4 }
{}

/// The place that joined last is taken, and no other place leaves.
pub fn the_last_place_is_taken()
    ensures last { IsLast two_of_three 0 }
    ensures first_is_not { ¬ IsLast two_of_three 2 }
    ensures taken { IsTaken two_of_three (record { listed = false ∷ false ∷ true ∷ []; places = 2 ∷ [] }) 0 }
    ensures stays_marked { ¬ IsTaken two_of_three (record { listed = true ∷ false ∷ true ∷ []; places = 2 ∷ [] }) 0 }
    ensures another_leaves { ¬ IsTaken two_of_three (record { listed = false ∷ false ∷ true ∷ []; places = [] }) 0 }
    ensures empty { IsEmpty (none_listed 2) }
    ensures two_are_not_none { ¬ IsEmpty two_of_three }
{}
