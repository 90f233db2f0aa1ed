//! Worked rows: parts of a graph whose edges come and go, and what is kept of them meanwhile.

ghost use Rattle.std.specs.Prelude.{[], ◌∷◌, true, false, None, Some};
ghost use Rattle.mono_graph.specs.Worked.{both, first_alone, last_alone, neither};
ghost use Rattle.mono_dynamic.specs.Arrivals.{GrowsAfter, IsGrown};
ghost use Rattle.mono_dynamic.specs.Targets.{IsSettledBy, IsShrunk, OnlyShrink};
ghost use Rattle.mono_dynamic.specs.Worked.{at_once, first_goes, known_by, one_by_one, with_way, without_way};
ghost use Rattle.mono_search_rows.specs.Worked.{second_brings_both};

/// The greater part has the edges of the smaller one and those that came, and no others.
pub fn parts_that_grow()
    ensures one_comes { IsGrown first_alone both (1 ∷ []) }
    ensures there_already { IsGrown first_alone both (1 ∷ 0 ∷ []) }
    ensures not_come { IsGrown first_alone first_alone (1 ∷ []) → ⊥ }
    ensures another_comes { IsGrown neither both (1 ∷ []) → ⊥ }
    ensures one_goes { IsGrown first_alone last_alone (1 ∷ []) → ⊥ }
{}

/// A part grows with the last step and stays until then.
pub fn parts_that_grow_after_a_step()
    ensures at_once { GrowsAfter at_once 0 1 both (0 ∷ 1 ∷ []) }
    ensures later { GrowsAfter second_brings_both 0 2 both (0 ∷ 1 ∷ []) }
    ensures before { GrowsAfter one_by_one 0 2 both (0 ∷ 1 ∷ []) → ⊥ }
    ensures another_part { GrowsAfter at_once 0 1 last_alone (1 ∷ []) → ⊥ }
    ensures one_unlisted { GrowsAfter at_once 0 1 both (1 ∷ []) → ⊥ }
    ensures no_step { GrowsAfter at_once 1 1 both [] → ⊥ }
{}

/// Of the edges of a part none goes that isn't listed. An edge that is listed may stay.
pub fn parts_that_shrink()
    ensures one_goes { IsShrunk both last_alone (0 ∷ []) }
    ensures none_goes { IsShrunk both both (0 ∷ []) }
    ensures another_goes { IsShrunk both last_alone (1 ∷ []) → ⊥ }
    ensures up_to_a_step { OnlyShrink first_goes 1 }
    ensures before_it_grows { OnlyShrink second_brings_both 1 }
    ensures once_it_grows { OnlyShrink second_brings_both 2 → ⊥ }
{}

/// After a search it is known of each target whether it is reached, and nothing is lacking exactly where all are.
pub fn targets_that_are_settled()
    ensures all { IsSettledBy true (known_by (without_way 4) None None) (known_by (with_way 0 1) (Some 0) None) }
    ensures not_all { IsSettledBy false (known_by (without_way 4) None None) (known_by (without_way 4) (Some 0) None) }
    ensures one_lacking { IsSettledBy true (known_by (without_way 4) None None) (known_by (without_way 4) (Some 0) None) → ⊥ }
    ensures none_lacking { IsSettledBy false (known_by (without_way 4) None None) (known_by (with_way 0 1) (Some 0) None) → ⊥ }
    ensures not_known { IsSettledBy true (known_by (without_way 4) None None) (known_by (with_way 0 1) None None) → ⊥ }
    ensures edge_lost { IsSettledBy false (known_by (without_way 4) None None) (known_by (with_way 0 1) (Some 0) (Some 1)) → ⊥ }
{}
