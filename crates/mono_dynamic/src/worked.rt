//! Worked rows: what the words of this crate's contracts make of small graphs.

ghost use Rattle.std.specs.Prelude.{◌≡◌, ◌∷◌, [], ℕ, pos, true, false, None, Some};
ghost use Rattle.mono_graph.specs.Worked.{pipe, parallel, round_trip, looped, both, first_alone, last_alone, neither};
ghost use Rattle.mono_dynamic.specs.Arrivals.{after, at_source, is_reached, is_by, within, AreReached, AreReachedAlong};
ghost use Rattle.mono_dynamic.specs.Costs.{AreLeast, AreLeastAlong, labels_after, made_by};
ghost use Rattle.mono_dynamic.specs.LeastRows.{cost_slot, costs_back, costs_from};
ghost use Rattle.mono_dynamic.specs.Rows.{alone, back_to};
ghost use Rattle.mono_dynamic.specs.SearchTrees.{IsSearchTree, RestsOn};
ghost use Rattle.mono_dynamic.specs.Sources.{AreApart};
ghost use Rattle.mono_dynamic.specs.Targets.{is_lacking, is_settled, unsearched, AreTold};
ghost use Rattle.mono_dynamic.specs.Ways.{first_ways, AreWaysTo, IsTargetOf};
ghost use Rattle.mono_dynamic.specs.Worked.{arrival, one_by_one, at_once, change, first_goes, known_by, last_first, lowered_by, lowered_twice, walks_from, with_way, within_weight, without_way};

use mono_graph::Limit;

/// Along a path of two edges each node is reached up to the first edge that is absent, by its own edge, and no other.
pub fn reached_along_a_path()
    ensures both { AreReached (pipe 1 1) both 0 (at_source 0 ∷ arrival 1 0 0 1 ∷ arrival 2 1 1 1 ∷ []) }
    ensures first { AreReached (pipe 1 1) first_alone 0 (at_source 0 ∷ arrival 1 0 0 1 ∷ []) }
    ensures last { AreReached (pipe 1 1) last_alone 0 (at_source 0 ∷ []) }
    ensures too_few { AreReached (pipe 1 1) both 0 (at_source 0 ∷ arrival 1 0 0 1 ∷ []) → ⊥ }
    ensures too_many { AreReached (pipe 1 1) first_alone 0 (at_source 0 ∷ arrival 1 0 0 1 ∷ arrival 2 1 1 1 ∷ []) → ⊥ }
    ensures by_another_edge { AreReached (pipe 1 1) both 0 (at_source 0 ∷ arrival 1 1 0 1 ∷ arrival 2 1 1 1 ∷ []) → ⊥ }
    ensures from_another_arrival { AreReached (pipe 1 1) both 0 (at_source 0 ∷ arrival 1 0 0 1 ∷ arrival 2 1 0 1 ∷ []) → ⊥ }
    ensures of_another_source { AreReached (pipe 1 1) both 1 (at_source 0 ∷ arrival 1 0 0 1 ∷ arrival 2 1 1 1 ∷ []) → ⊥ }
{}

/// A cycle and an edge from a node to itself reach nothing again, and of two parallel edges either may be the one.
pub fn reached_round_a_cycle()
    ensures cycle { AreReached (round_trip 1 1) both 0 (at_source 0 ∷ arrival 1 0 0 1 ∷ []) }
    ensures to_itself { AreReached looped (true ∷ []) 0 (at_source 0 ∷ []) }
    ensures by_first { AreReached (parallel 1 4) both 0 (at_source 0 ∷ arrival 1 0 0 1 ∷ []) }
    ensures by_last { AreReached (parallel 1 4) both 0 (at_source 0 ∷ arrival 1 1 0 1 ∷ []) }
    ensures by_absent { AreReached (parallel 1 4) first_alone 0 (at_source 0 ∷ arrival 1 1 0 1 ∷ []) → ⊥ }
{}

/// Where two edges come one after the other, the nodes have the stamps 1 and 2; where they come at once, both have 1.
pub fn reached_step_by_step()
    ensures one_by_one { AreReachedAlong (pipe 1 1) one_by_one 2 0 (at_source 0 ∷ arrival 1 0 0 1 ∷ arrival 2 1 1 2 ∷ []) }
    ensures too_late { AreReachedAlong (pipe 1 1) one_by_one 2 0 (at_source 0 ∷ arrival 1 0 0 2 ∷ arrival 2 1 1 2 ∷ []) → ⊥ }
    ensures too_early { AreReachedAlong (pipe 1 1) one_by_one 2 0 (at_source 0 ∷ arrival 1 0 0 1 ∷ arrival 2 1 1 1 ∷ []) → ⊥ }
    ensures at_once { AreReachedAlong (pipe 1 1) at_once 1 0 (at_source 0 ∷ arrival 1 0 0 1 ∷ arrival 2 1 1 1 ∷ []) }
    ensures not_yet { AreReachedAlong (pipe 1 1) at_once 1 0 (at_source 0 ∷ arrival 1 0 0 1 ∷ arrival 2 1 1 2 ∷ []) → ⊥ }
{}

/// Going back keeps the arrivals with stamps up to a number, at 0 the source alone, and at the last number all.
pub fn arrivals_up_to_a_stamp()
    ensures none { within 0 (at_source 0 ∷ arrival 1 0 0 1 ∷ arrival 2 1 1 2 ∷ []) ≡ at_source 0 ∷ [] }
    ensures some { within 1 (at_source 0 ∷ arrival 1 0 0 1 ∷ arrival 2 1 1 2 ∷ []) ≡ at_source 0 ∷ arrival 1 0 0 1 ∷ [] }
    ensures all { within 2 (at_source 0 ∷ arrival 1 0 0 1 ∷ arrival 2 1 1 2 ∷ []) ≡ at_source 0 ∷ arrival 1 0 0 1 ∷ arrival 2 1 1 2 ∷ [] }
    ensures source { is_reached (within 0 (at_source 4 ∷ [])) 4 ≡ true }
    ensures other { is_reached (within 9 (at_source 4 ∷ [])) 0 ≡ false }
    ensures never { (n : ℕ) → is_by None n ≡ false }
    ensures before { is_by (Some 2) 1 ≡ false }
    ensures at { is_by (Some 2) 2 ≡ true }
{}

/// The arrivals of later steps are those that going back takes away, at 0 all but the source, and at the last number none.
pub fn arrivals_beyond_a_stamp()
    ensures all { after 0 (at_source 0 ∷ arrival 1 0 0 1 ∷ arrival 2 1 1 2 ∷ []) ≡ arrival 1 0 0 1 ∷ arrival 2 1 1 2 ∷ [] }
    ensures some { after 1 (at_source 0 ∷ arrival 1 0 0 1 ∷ arrival 2 1 1 2 ∷ []) ≡ arrival 2 1 1 2 ∷ [] }
    ensures none { after 2 (at_source 0 ∷ arrival 1 0 0 1 ∷ arrival 2 1 1 2 ∷ []) ≡ [] }
{}

/// A search tree has the ways to all targets that are reached, and nothing else.
pub fn ways_along_a_path()
    ensures first { IsSearchTree (pipe 1 1) both 0 (1 ∷ []) (at_source 0 ∷ arrival 1 0 0 0 ∷ []) }
    ensures last { IsSearchTree (pipe 1 1) both 0 (2 ∷ []) (at_source 0 ∷ arrival 1 0 0 0 ∷ arrival 2 1 1 0 ∷ []) }
    ensures source { IsSearchTree (pipe 1 1) both 0 (0 ∷ []) (at_source 0 ∷ []) }
    ensures out_of_reach { IsSearchTree (pipe 1 1) first_alone 0 (2 ∷ []) (at_source 0 ∷ []) }
    ensures first_target_alone { IsSearchTree (pipe 1 1) both 0 (1 ∷ 2 ∷ []) (at_source 0 ∷ arrival 1 0 0 0 ∷ []) → ⊥ }
    ensures beyond_the_target { IsSearchTree (pipe 1 1) both 0 (1 ∷ []) (at_source 0 ∷ arrival 1 0 0 0 ∷ arrival 2 1 1 0 ∷ []) → ⊥ }
    ensures towards_what_is_lacking { IsSearchTree (pipe 1 1) first_alone 0 (2 ∷ []) (at_source 0 ∷ arrival 1 0 0 0 ∷ []) → ⊥ }
    ensures by_absent { IsSearchTree (pipe 1 1) last_alone 0 (1 ∷ []) (at_source 0 ∷ arrival 1 0 0 0 ∷ []) → ⊥ }
{}

/// A tree rests on the edges by which its nodes were reached, and the source was reached by none.
pub fn edges_of_ways()
    ensures first { RestsOn (at_source 0 ∷ arrival 1 0 0 0 ∷ arrival 2 1 1 0 ∷ []) 0 }
    ensures last { RestsOn (at_source 0 ∷ arrival 1 0 0 0 ∷ arrival 2 1 1 0 ∷ []) 1 }
    ensures other { RestsOn (at_source 0 ∷ arrival 1 3 0 0 ∷ []) 1 → ⊥ }
    ensures of_source { RestsOn (at_source 0 ∷ arrival 1 3 0 0 ∷ []) 0 → ⊥ }
{}

/// Walks are kept to a target where one is within its limit, also where it is just that, and then nothing else.
pub fn ways_within_bounds()
    ensures below { AreWaysTo (parallel 1 4) both (within_weight 3 ∷ []) (with_way 0 1) }
    ensures at { AreWaysTo (parallel 1 4) both (within_weight 1 ∷ []) (with_way 0 1) }
    ensures beyond { AreWaysTo (parallel 1 4) both (within_weight 0 ∷ []) (without_way 1) }
    ensures kept_beyond { AreWaysTo (parallel 1 4) both (within_weight 0 ∷ []) (with_way 0 1) → ⊥ }
    ensures lacking_at { AreWaysTo (parallel 1 4) both (within_weight 1 ∷ []) (without_way 1) → ⊥ }
    ensures dearer { AreWaysTo (parallel 1 4) both (within_weight 3 ∷ []) (with_way 1 1) → ⊥ }
    ensures by_absent { AreWaysTo (parallel 1 4) last_alone (within_weight 3 ∷ []) (with_way 0 1) → ⊥ }
    ensures nothing_asked { AreWaysTo (parallel 1 4) both [] (with_way 0 1) → ⊥ }
{}

/// What is told of a target that is reached until the cheaper of two parallel edges goes, and then is out of reach.
pub fn targets_told()
    ensures until_it_goes { AreTold (parallel 1 4) first_goes 1 (known_by (with_way 0 1) (Some 0) (Some 1)) }
    ensures out_of_reach { AreTold (parallel 1 4) first_goes 1 (known_by (without_way 4) (Some 1) None) }
    ensures nothing { AreTold (parallel 1 4) first_goes 1 (known_by (without_way 4) None None) }
    ensures unseen { AreTold (parallel 1 4) first_goes 1 (known_by (with_way 0 1) (Some 0) None) → ⊥ }
    ensures too_early { AreTold (parallel 1 4) first_goes 1 (known_by (without_way 4) (Some 0) None) → ⊥ }
    ensures of_later_steps { AreTold (parallel 1 4) first_goes 0 (known_by (without_way 4) (Some 1) None) → ⊥ }
    ensures lost_later { AreTold (parallel 1 4) first_goes 0 (known_by (with_way 0 1) (Some 0) (Some 1)) → ⊥ }
    ensures mispriced { AreTold (parallel 1 4) first_goes 0 (known_by (with_way 1 1) (Some 0) None) → ⊥ }
{}

/// A target is lacking where it is known that its node isn't reached within its limit, and all is known while no edge went.
pub fn targets_known()
    ensures there { is_lacking (known_by (with_way 0 1) (Some 0) None) (within_weight 1) ≡ false }
    ensures beyond { is_lacking (known_by (with_way 0 1) (Some 0) None) (within_weight 0) ≡ true }
    ensures elsewhere { is_lacking (known_by (without_way 1) (Some 0) None) (within_weight 1) ≡ true }
    ensures forgotten { is_lacking (known_by (without_way 1) None None) (within_weight 1) ≡ false }
    ensures settled { is_settled (known_by (with_way 0 1) (Some 0) None) ≡ true }
    ensures lost { is_settled (known_by (with_way 0 1) (Some 0) (Some 1)) ≡ false }
    ensures unsearched { is_settled (known_by (without_way 1) None None) ≡ false }
{}

/// A target can be asked for where its node is one, it measures the same, and its bound is below the cap.
pub fn targets_that_can_be_asked()
    ensures asked { IsTargetOf (without_way 4) (within_weight 9) }
    ensures at_cap { IsTargetOf (without_way 4) (within_weight 10) → ⊥ }
    ensures by_steps { IsTargetOf (without_way 4) (record { node = 1; limit = Limit.Steps (pos 9) }) → ⊥ }
    ensures no_node { IsTargetOf (without_way 4) (record { node = 2; limit = Limit.Weight (pos 9) }) → ⊥ }
{}

/// Of two parallel edges the cheaper one counts, where it is present; what costs more than the cap counts as the cap.
pub fn least_costs_over_parallel_edges()
    ensures both { AreLeast (parallel 1 4) both (Limit.Weight (pos 9)) 0 10 (0 ∷ 1 ∷ []) }
    ensures last { AreLeast (parallel 1 4) last_alone (Limit.Weight (pos 9)) 0 10 (0 ∷ 4 ∷ []) }
    ensures steps { AreLeast (parallel 1 4) last_alone (Limit.Steps (pos 9)) 0 10 (0 ∷ 1 ∷ []) }
    ensures capped { AreLeast (parallel 1 4) last_alone (Limit.Weight (pos 2)) 0 3 (0 ∷ 3 ∷ []) }
    ensures not_lowered { AreLeast (parallel 1 4) both (Limit.Weight (pos 9)) 0 10 (0 ∷ 4 ∷ []) → ⊥ }
    ensures above_cap { AreLeast (parallel 1 4) last_alone (Limit.Weight (pos 2)) 0 3 (0 ∷ 4 ∷ []) → ⊥ }
    ensures too_low { AreLeast (parallel 1 4) last_alone (Limit.Weight (pos 9)) 0 10 (0 ∷ 1 ∷ []) → ⊥ }
    ensures to_itself { AreLeast looped (true ∷ []) (Limit.Weight (pos 9)) 0 10 (0 ∷ []) }
    ensures cycle { AreLeast (round_trip 2 3) both (Limit.Weight (pos 9)) 0 10 (0 ∷ 2 ∷ []) }
{}

/// Where the dearer of two parallel edges comes first, the label falls twice, and going back raises it twice.
pub fn least_costs_step_by_step()
    ensures falls { AreLeastAlong (parallel 1 4) last_first 2 0 lowered_twice }
    ensures too_late { AreLeastAlong (parallel 1 4) last_first 2 0 (lowered_by (change 1 1 0 10 4 2 ∷ change 1 0 1 4 1 2 ∷ [])) → ⊥ }
    ensures by_another_edge { AreLeastAlong (parallel 1 4) last_first 2 0 (lowered_by (change 1 0 0 10 4 1 ∷ change 1 0 1 4 1 2 ∷ [])) → ⊥ }
    ensures after_none { labels_after 0 lowered_twice ≡ 0 ∷ 10 ∷ [] }
    ensures after_one { labels_after 1 lowered_twice ≡ 0 ∷ 4 ∷ [] }
    ensures after_both { labels_after 2 lowered_twice ≡ 0 ∷ 1 ∷ [] }
{}

/// Going back keeps the changes of the first steps, at 0 none, and at the last number all.
pub fn changes_up_to_a_stamp()
    ensures none { made_by 0 lowered_twice.changes ≡ [] }
    ensures some { made_by 1 lowered_twice.changes ≡ change 1 1 0 10 4 1 ∷ [] }
    ensures all { made_by 2 lowered_twice.changes ≡ change 1 1 0 10 4 1 ∷ change 1 0 1 4 1 2 ∷ [] }
{}

/// A node has three slots, one for each measure, whatever the bound and the cap.
pub fn slots_of_sources()
    ensures free { cost_slot (walks_from 0 Limit.Free 1) ≡ 0 }
    ensures steps { cost_slot (walks_from 0 (Limit.Steps (pos 5)) 6) ≡ 1 }
    ensures weight { cost_slot (walks_from 0 (Limit.Weight (pos 5)) 6) ≡ 2 }
    ensures next_node { cost_slot (walks_from 1 Limit.Free 1) ≡ 3 }
    ensures last { cost_slot (walks_from 2 (Limit.Weight (pos 7)) 9) ≡ 8 }
{}

/// Sources are apart where no two have one node and one measure. Bounds and caps don't tell them apart.
pub fn sources_apart()
    ensures alone { AreApart cost_slot (walks_from 0 Limit.Free 1 ∷ []) }
    ensures by_node { AreApart cost_slot (walks_from 0 Limit.Free 1 ∷ walks_from 1 Limit.Free 1 ∷ []) }
    ensures by_measure { AreApart cost_slot (walks_from 0 (Limit.Steps (pos 5)) 6 ∷ walks_from 0 (Limit.Weight (pos 5)) 6 ∷ []) }
    ensures by_bound_alone { AreApart cost_slot (walks_from 0 (Limit.Steps (pos 5)) 6 ∷ walks_from 0 (Limit.Steps (pos 7)) 8 ∷ []) → ⊥ }
    ensures twice { AreApart cost_slot (walks_from 1 Limit.Free 1 ∷ walks_from 0 Limit.Free 1 ∷ walks_from 1 Limit.Free 1 ∷ []) → ⊥ }
{}

/// Before any step the source has the label 0, and each other node the cap.
pub fn costs_at_first()
    ensures first { costs_from 3 (walks_from 0 (Limit.Weight (pos 9)) 10)
        ≡ record { limit = Limit.Weight (pos 9); cap = 10; labels = 0 ∷ 10 ∷ 10 ∷ []; changes = [] } }
    ensures last { costs_from 3 (walks_from 2 (Limit.Steps (pos 4)) 5)
        ≡ record { limit = Limit.Steps (pos 4); cap = 5; labels = 5 ∷ 5 ∷ 0 ∷ []; changes = [] } }
    ensures lone { costs_from 1 (walks_from 0 Limit.Free 1) ≡ record { limit = Limit.Free; cap = 1; labels = 0 ∷ []; changes = [] } }
{}

/// A row that goes back has what was there after so many steps.
pub fn rows_that_go_back()
    ensures reached { back_to 1 (record { nodes = 3; source = 0; arrivals = at_source 0 ∷ arrival 1 0 0 1 ∷ arrival 2 1 1 2 ∷ [] })
        ≡ record { nodes = 3; source = 0; arrivals = at_source 0 ∷ arrival 1 0 0 1 ∷ [] } }
    ensures costs { costs_back 1 lowered_twice
        ≡ record { limit = Limit.Weight (pos 9); cap = 10; labels = 0 ∷ 4 ∷ []; changes = change 1 1 0 10 4 1 ∷ [] } }
{}

/// Before any search the tree is the source alone, and nothing is known of what it lacks. Where walks cost nothing no node has a
/// label, and the cap is 1.
pub fn ways_at_first()
    ensures free { first_ways 2 (walks_from 1 Limit.Free 1) ≡ record { limit = Limit.Free; cap = 1; tree = alone 2 1; labels = [] } }
    ensures in_steps { first_ways 2 (walks_from 1 (Limit.Steps (pos 4)) 5)
        ≡ record { limit = Limit.Steps (pos 4); cap = 5; tree = alone 2 1; labels = 5 ∷ 0 ∷ [] } }
    ensures by_weight { first_ways 2 (walks_from 0 (Limit.Weight (pos 9)) 10)
        ≡ record { limit = Limit.Weight (pos 9); cap = 10; tree = record { nodes = 2; source = 0; arrivals = at_source 0 ∷ [] }; labels = 0 ∷ 10 ∷ [] } }
    ensures unsearched { unsearched 2 (walks_from 1 Limit.Free 1)
        ≡ record { ways = first_ways 2 (walks_from 1 Limit.Free 1); targets = []; since = None; lost = None } }
{}
