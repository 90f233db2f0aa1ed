//! Worked rows: trees of walks and rows of costs, and how they change. Two edges, the dearer of which weighs 4, lead from node 0 to
//! node 1, where they don't lead from node 0 over node 1 to node 2.

ghost use Rattle.std.specs.Prelude.{◌≡◌, [], ◌∷◌, pos, true, false, None, Some};
ghost use Rattle.mono_graph.specs.Worked.{all_three, both, first_alone, last_alone, parallel, pipe};
ghost use Rattle.mono_dynamic.specs.Arrivals.{at_source, AreReachedAlong, IsTree};
ghost use Rattle.mono_dynamic.specs.Costs.{label_of, AreLeast, AreLeastAlong, IsLater, IsLed};
ghost use Rattle.mono_dynamic.specs.LeastRows.{cost_slot, IsCostSource};
ghost use Rattle.mono_dynamic.specs.Sources.{HaveRows};
ghost use Rattle.mono_dynamic.specs.Targets.{is_settled, no_targets, targets_at, IsOneChanged, IsSearchedRow, IsShrunkRow, IsUndoneRow};
ghost use Rattle.mono_dynamic.specs.Ways.{has_target, IsSameSource};
ghost use Rattle.mono_dynamic.specs.Worked.{arrival, change, change_from, known_by, last_first, lowered_by, lowered_twice, one_by_one, walks_from, with_way, within_weight, without_way};

use mono_graph::Limit;

/// Arrivals are a tree where present edges lead to each of them from the node of an earlier one.
pub fn trees_of_arrivals()
    ensures two { IsTree (pipe 1 1) both 0 (at_source 0 ∷ arrival 1 0 0 0 ∷ arrival 2 1 1 0 ∷ []) }
    ensures source_alone { IsTree (pipe 1 1) both 2 (at_source 2 ∷ []) }
    ensures nothing { IsTree (pipe 1 1) both 0 [] → ⊥ }
    ensures of_another_source { IsTree (pipe 1 1) both 1 (at_source 0 ∷ []) → ⊥ }
    ensures by_an_absent_edge { IsTree (pipe 1 1) first_alone 1 (at_source 1 ∷ arrival 2 1 0 0 ∷ []) → ⊥ }
    ensures to_another_node { IsTree (pipe 1 1) both 0 (at_source 0 ∷ arrival 2 0 0 0 ∷ []) → ⊥ }
    ensures from_another_node { IsTree (pipe 1 1) both 0 (at_source 0 ∷ arrival 2 1 0 0 ∷ []) → ⊥ }
    ensures by_no_edge { IsTree (pipe 1 1) all_three 0 (at_source 0 ∷ arrival 0 2 0 0 ∷ []) → ⊥ }
    ensures from_a_later_one { IsTree (pipe 1 1) both 0 (at_source 0 ∷ arrival 2 1 2 0 ∷ arrival 1 0 0 0 ∷ []) → ⊥ }
{}

/// No arrival is later than the steps.
pub fn arrivals_by_steps()
    ensures a_later_one { AreReachedAlong (pipe 1 1) one_by_one 1 0 (at_source 0 ∷ arrival 1 0 0 1 ∷ arrival 2 1 1 2 ∷ []) → ⊥ }
    ensures before_any_step { AreReachedAlong (pipe 1 1) one_by_one 0 0 (at_source 0 ∷ arrival 1 0 0 1 ∷ []) → ⊥ }
{}

/// A source is a node of the graph, and its cap no more than one above the greatest bound.
pub fn sources_of_costs()
    ensures last { IsCostSource 3 (walks_from 2 (Limit.Steps (pos 9007199254740992)) 9007199254740993) }
    ensures no_node { IsCostSource 3 (walks_from 3 (Limit.Steps (pos 4)) 5) → ⊥ }
    ensures too_great { IsCostSource 3 (walks_from 2 (Limit.Steps (pos 4)) 9007199254740994) → ⊥ }
{}

/// Each that is asked has a row of its slot with at least as much.
pub fn rows_that_serve()
    ensures shared { HaveRows cost_slot (λ s. s.cap) (walks_from 2 (Limit.Steps (pos 4)) 5 ∷ walks_from 2 (Limit.Steps (pos 6)) 7 ∷ []) 2 (0 ∷ 0 ∷ [])
        (walks_from 2 (Limit.Steps (pos 6)) 7 ∷ []) }
    ensures too_little { HaveRows cost_slot (λ s. s.cap) (walks_from 2 (Limit.Steps (pos 4)) 5 ∷ []) 1 (0 ∷ [])
        (walks_from 2 (Limit.Steps (pos 4)) 4 ∷ []) → ⊥ }
    ensures of_another_slot { HaveRows cost_slot (λ s. s.cap) (walks_from 2 (Limit.Steps (pos 4)) 5 ∷ []) 1 (0 ∷ [])
        (walks_from 1 (Limit.Steps (pos 4)) 5 ∷ []) → ⊥ }
    ensures one_too_many { HaveRows cost_slot (λ s. s.cap) (walks_from 2 (Limit.Steps (pos 4)) 5 ∷ []) 1 (0 ∷ 0 ∷ [])
        (walks_from 2 (Limit.Steps (pos 4)) 5 ∷ []) → ⊥ }
{}

/// There are as many labels as nodes. No change is later than the steps, and before any the source alone has a label below the cap.
pub fn labels_and_changes_of_costs()
    ensures one_label_more { AreLeast (parallel 1 4) both (Limit.Weight (pos 9)) 0 10 (0 ∷ 1 ∷ 10 ∷ []) → ⊥ }
    ensures a_later_change { AreLeastAlong (parallel 1 4) last_first 1 0 lowered_twice → ⊥ }
    ensures before_any_change { AreLeastAlong (parallel 1 4) (λ n. both) 0 0 (lowered_by []) → ⊥ }
{}

/// A change comes along a present edge, from the source or from the node of a change before it. Its label is the one there, and what the
/// edge costs.
pub fn changes_that_edges_lead_to()
    ensures from_the_source { IsLed (pipe 1 2) both (Limit.Weight (pos 9)) 0 (change_from 0 1 0 1 ∷ []) 0 }
    ensures from_one_before { IsLed (pipe 1 2) both (Limit.Weight (pos 9)) 0 (change_from 0 1 0 1 ∷ change_from 1 2 1 3 ∷ []) 1 }
    ensures from_one_behind { IsLed (pipe 1 2) both (Limit.Weight (pos 9)) 0 (change_from 2 2 1 3 ∷ change_from 0 1 0 1 ∷ []) 0 → ⊥ }
    ensures from_another_node { IsLed (pipe 1 2) both (Limit.Weight (pos 9)) 0 (change_from 0 1 0 1 ∷ change_from 0 2 1 2 ∷ []) 1 → ⊥ }
    ensures to_another_node { IsLed (pipe 1 2) both (Limit.Weight (pos 9)) 0 (change_from 0 1 0 1 ∷ change_from 1 0 1 3 ∷ []) 1 → ⊥ }
    ensures at_another_cost { IsLed (pipe 1 2) both (Limit.Weight (pos 9)) 0 (change_from 0 1 0 1 ∷ change_from 1 2 1 2 ∷ []) 1 → ⊥ }
    ensures by_an_absent_edge { IsLed (pipe 1 2) first_alone (Limit.Weight (pos 9)) 0 (change_from 0 1 0 1 ∷ change_from 1 2 1 3 ∷ []) 1 → ⊥ }
    ensures by_no_edge { IsLed (pipe 1 2) all_three (Limit.Weight (pos 9)) 0 (change_from 0 0 2 0 ∷ []) 0 → ⊥ }
{}

/// Changes are added with one stamp. Without them the labels are those of before.
pub fn costs_that_fall()
    ensures one_added { IsLater 2 (record (lowered_by (change 1 1 0 10 4 1 ∷ [])) { labels = 0 ∷ 4 ∷ [] })
        (lowered_by (change 1 1 0 10 4 1 ∷ change 1 0 1 4 1 2 ∷ [])) }
    ensures none_added { IsLater 2 (lowered_by []) (lowered_by []) }
    ensures with_another_stamp { IsLater 3 (record (lowered_by []) { labels = 0 ∷ 4 ∷ [] }) (lowered_by (change 1 0 0 4 1 2 ∷ [])) → ⊥ }
    ensures from_another_label { IsLater 2 (record (lowered_by []) { labels = 0 ∷ 5 ∷ [] }) (lowered_by (change 1 0 0 4 1 2 ∷ [])) → ⊥ }
    ensures one_taken_back { IsLater 2 (lowered_by (change 1 0 0 4 1 2 ∷ [])) (lowered_by []) → ⊥ }
    ensures another_cap { IsLater 2 (lowered_by []) (record (lowered_by []) { cap = 11 }) → ⊥ }
    ensures another_limit { IsLater 2 (lowered_by []) (record (lowered_by []) { limit = Limit.Steps (pos 9) }) → ⊥ }
{}

/// A search changes neither the graph's size nor the source, nor what is measured, nor up to where.
pub fn ways_from_one_source()
    ensures searched { IsSameSource (without_way 4) (with_way 0 1) }
    ensures more_nodes { IsSameSource (without_way 4) (record (without_way 4) { tree = record { nodes = 3; source = 0; arrivals = at_source 0 ∷ [] } }) → ⊥ }
    ensures another_source { IsSameSource (without_way 4) (record (without_way 4)
        { tree = record { nodes = 2; source = 1; arrivals = at_source 0 ∷ [] } }) → ⊥ }
    ensures another_limit { IsSameSource (without_way 4) (record (without_way 4) { limit = Limit.Weight (pos 8) }) → ⊥ }
    ensures another_cap { IsSameSource (without_way 4) (record (without_way 4) { cap = 9 }) → ⊥ }
{}

/// Of the rows one alone has changed.
pub fn rows_of_which_one_changes()
    ensures second { IsOneChanged (λ old new. is_settled new ≡ true) (known_by (without_way 4) None None ∷ known_by (without_way 4) None None ∷ [])
        (known_by (without_way 4) None None ∷ known_by (without_way 4) (Some 0) None ∷ []) 1 }
    ensures none { IsOneChanged (λ old new. is_settled new ≡ true) (known_by (without_way 4) None None ∷ known_by (without_way 4) None None ∷ [])
        (known_by (without_way 4) None None ∷ known_by (without_way 4) None None ∷ []) 1 → ⊥ }
    ensures both { IsOneChanged (λ old new. is_settled new ≡ true) (known_by (without_way 4) None None ∷ known_by (without_way 4) None None ∷ [])
        (known_by (without_way 4) (Some 0) None ∷ known_by (without_way 4) (Some 0) None ∷ []) 1 → ⊥ }
    ensures one_more { IsOneChanged (λ old new. is_settled new ≡ true) (known_by (without_way 4) None None ∷ [])
        (known_by (without_way 4) (Some 0) None ∷ no_targets ∷ []) 0 → ⊥ }
{}

/// An edge of the tree that goes is known as lost.
pub fn rows_whose_edges_go()
    ensures nothing_known { IsShrunkRow (parallel 1 4) (0 ∷ []) 1 (known_by (without_way 4) None None) (known_by (without_way 4) None None) }
    ensures not_lost { IsShrunkRow (parallel 1 4) (0 ∷ []) 1 (known_by (with_way 0 1) None None) (known_by (with_way 0 1) None None) → ⊥ }
    ensures another_label { IsShrunkRow (parallel 1 4) (0 ∷ []) 1 (known_by (without_way 4) None None) (known_by (without_way 5) None None) → ⊥ }
    ensures another_since { IsShrunkRow (parallel 1 4) (0 ∷ []) 1 (known_by (with_way 0 1) (Some 0) None) (known_by (with_way 0 1) None (Some 1)) → ⊥ }
{}

/// Going back shows nothing that wasn't shown, and forgets what was shown since.
pub fn rows_whose_edges_come_back()
    ensures nothing_known { IsUndoneRow 0 (known_by (without_way 4) None None) (known_by (without_way 4) None None) }
    ensures forgotten { IsUndoneRow 0 (known_by (without_way 4) (Some 1) None) (known_by (without_way 4) None None) }
    ensures not_forgotten { IsUndoneRow 0 (record (known_by (without_way 4) (Some 1) None) { targets = [] })
        (record (known_by (without_way 4) (Some 1) None) { targets = [] }) → ⊥ }
    ensures newly_lacking { IsUndoneRow 0 (record (known_by (without_way 4) None None) { targets = [] })
        (record (known_by (without_way 4) (Some 0) None) { targets = [] }) → ⊥ }
    ensures another_label { IsUndoneRow 0 (known_by (without_way 4) None None) (known_by (without_way 5) None None) → ⊥ }
    ensures no_targets { IsUndoneRow 0 (known_by (without_way 4) None None) (record (known_by (without_way 4) None None) { targets = [] }) → ⊥ }
{}

/// A search keeps the source and the targets, and its tree is one in the part.
pub fn rows_that_are_searched()
    ensures source_alone { IsSearchedRow (parallel 1 4) last_alone 1 (known_by (with_way 0 1) None None) (known_by (without_way 4) None None) }
    ensures by_an_absent_edge { IsSearchedRow (parallel 1 4) last_alone 1 (known_by (without_way 4) None None) (known_by (with_way 0 1) None None) → ⊥ }
    ensures another_cap { IsSearchedRow (parallel 1 4) last_alone 1 (known_by (without_way 4) None None)
        (known_by (record (without_way 4) { cap = 9 }) None None) → ⊥ }
    ensures other_targets { IsSearchedRow (parallel 1 4) last_alone 1 (known_by (without_way 4) None None)
        (record (known_by (without_way 4) None None) { targets = within_weight 2 ∷ [] }) → ⊥ }
{}

/// Targets that ways lead to, and lists by place.
pub fn targets_that_ways_have()
    ensures at_the_bound { has_target (with_way 0 4) (within_weight 4) ≡ true }
    ensures beyond_the_bound { has_target (with_way 0 4) (within_weight 3) ≡ false }
    ensures without_a_way { has_target (without_way 4) (within_weight 9) ≡ false }
    ensures second_label { label_of (7 ∷ 5 ∷ []) 1 ≡ 5 }
    ensures no_label { label_of (7 ∷ 5 ∷ []) 2 ≡ 0 }
    ensures second_row { targets_at (no_targets ∷ known_by (without_way 4) None None ∷ []) 1 ≡ known_by (without_way 4) None None }
{}
