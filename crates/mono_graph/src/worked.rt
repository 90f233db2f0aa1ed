//! Worked rows: what the definitions of graphs, parts, walks, flows and trees make of small graphs.

ghost use Rattle.std.specs.Prelude.{◌≡◌, ◌+◌, ◌≤◌, ◌==◌, [], ◌∷◌, true, false, pos, negsuc, Some, None, length};
ghost use Rattle.mono_graph.specs.Digraph.{Digraph, IsGraph, IsPartOf, IsSubpart, leaving, entering, place_of, with_edge, weight_of, enabled, present, has, is_distinct};
ghost use Rattle.mono_graph.specs.Walks.{admits, is_walk, is_path, is_cut, is_labelling, IsBounded};
ghost use Rattle.mono_graph.specs.Flows.{is_flow_of, is_flow_cut};
ghost use Rattle.mono_graph.specs.Trees.{joins, is_tree, is_split, is_least, component_count};
ghost use Rattle.mono_graph.specs.Worked.{edge, edge_of, single, label, amount, round_trip, parallel, lone, looped, triangle, kite, pipe, both, first_alone, last_alone, neither, all_three};

use crate::Limit;
use mono_base::limits::{MAX_BOUND, MAX_EDGES, MAX_NODES, MAX_VARS, MAX_WEIGHT};

/// A walk may go over an edge again, and each time counts.
pub fn walk_repeats_an_edge()
    ensures walk { is_walk (round_trip 2 3) both 0 1 (0 ∷ 1 ∷ 0 ∷ []) ≡ true }
    ensures three_steps { is_path (round_trip 2 3) both 0 1 (Limit.Steps (pos 3)) (0 ∷ 1 ∷ 0 ∷ []) ≡ true }
    ensures not_two { is_path (round_trip 2 3) both 0 1 (Limit.Steps (pos 2)) (0 ∷ 1 ∷ 0 ∷ []) ≡ false }
    ensures weighs_seven { is_path (round_trip 2 3) both 0 1 (Limit.Weight (pos 7)) (0 ∷ 1 ∷ 0 ∷ []) ≡ true }
    ensures not_six { is_path (round_trip 2 3) both 0 1 (Limit.Weight (pos 6)) (0 ∷ 1 ∷ 0 ∷ []) ≡ false }
    ensures absent { is_walk (round_trip 2 3) first_alone 0 1 (0 ∷ 1 ∷ 0 ∷ []) ≡ false }
    ensures wrong_way { is_walk (round_trip 2 3) both 0 1 (1 ∷ []) ≡ false }
    ensures free { is_path (round_trip 2 3) both 0 1 Limit.Free (0 ∷ 1 ∷ 0 ∷ []) ≡ true }
{}

/// The empty walk leads from each node to itself, in every part and within every bound from 0 on.
pub fn empty_walk()
    ensures stays { is_path (round_trip 2 3) neither 1 1 (Limit.Steps (pos 0)) [] ≡ true }
    ensures goes_nowhere { is_path (round_trip 2 3) both 0 1 Limit.Free [] ≡ false }
{}

/// A cycle of weight 0 costs nothing, however often a walk goes round it.
pub fn cycle_of_weight_0()
    ensures light { is_path (round_trip 0 0) both 0 0 (Limit.Weight (pos 0)) (0 ∷ 1 ∷ 0 ∷ 1 ∷ []) ≡ true }
    ensures long { is_path (round_trip 0 0) both 0 0 (Limit.Steps (pos 3)) (0 ∷ 1 ∷ 0 ∷ 1 ∷ []) ≡ false }
{}

/// Each edge of a walk begins where the one before ended, the first at the start, and the last ends at the end.
pub fn walk_is_connected()
    ensures whole { is_walk (pipe 1 1) both 0 2 (0 ∷ 1 ∷ []) ≡ true }
    ensures ends_early { is_walk (pipe 1 1) both 0 2 (0 ∷ []) ≡ false }
    ensures begins_late { is_walk (pipe 1 1) both 0 2 (1 ∷ []) ≡ false }
    ensures goes_past { is_walk (pipe 1 1) both 0 1 (0 ∷ 1 ∷ []) ≡ false }
    ensures stands_still { is_walk (pipe 1 1) both 0 1 (0 ∷ 0 ∷ []) ≡ false }
    ensures past_the_edges { is_walk lone (true ∷ []) 0 0 (0 ∷ []) ≡ false }
{}

/// A limit admits what is at most its bound: where nothing counts that is 0, and with a negative bound nothing.
pub fn costs_within_limits()
    ensures at_the_bound { admits (Limit.Steps (pos 3)) 3 ≡ true }
    ensures above { admits (Limit.Steps (pos 3)) 4 ≡ false }
    ensures light { admits (Limit.Weight (pos 3)) 3 ≡ true }
    ensures heavy { admits (Limit.Weight (pos 3)) 4 ≡ false }
    ensures nothing { admits (Limit.Weight (negsuc 0)) 0 ≡ false }
    ensures free { admits Limit.Free 0 ≡ true }
    ensures uncounted { admits Limit.Free 1 ≡ false }
{}

/// Bounds go from -1 to the greatest that a predicate may have.
pub fn bounds_of_limits()
    ensures free { IsBounded Limit.Free }
    ensures least { IsBounded (Limit.Steps (negsuc 0)) }
    ensures below { IsBounded (Limit.Steps (negsuc 1)) → ⊥ }
    ensures greatest { IsBounded (Limit.Steps (pos MAX_BOUND)) }
    ensures beyond { IsBounded (Limit.Steps (pos (MAX_BOUND + 1))) → ⊥ }
    ensures least_weight { IsBounded (Limit.Weight (negsuc 0)) }
    ensures below_weight { IsBounded (Limit.Weight (negsuc 1)) → ⊥ }
    ensures greatest_weight { IsBounded (Limit.Weight (pos MAX_BOUND)) }
    ensures beyond_weight { IsBounded (Limit.Weight (pos (MAX_BOUND + 1))) → ⊥ }
{}

/// A bound of -1 is never met. The labels that show it are all 0, listed or not.
pub fn bound_of_minus_1()
    ensures not_met { is_path (round_trip 2 3) both 0 0 (Limit.Steps (negsuc 0)) [] ≡ false }
    ensures not_met_by_weight { is_path (round_trip 2 3) both 0 0 (Limit.Weight (negsuc 0)) [] ≡ false }
    ensures unlisted { is_labelling (round_trip 2 3) both 0 0 (Limit.Steps (negsuc 0)) [] ≡ true }
    ensures listed { is_labelling (round_trip 2 3) both 0 1 (Limit.Weight (negsuc 0)) (label 0 0 ∷ []) ≡ true }
{}

/// Labels: 0 at the start, above the bound at the end, and no edge raises the label by more than it costs.
pub fn labels_bound_walks()
    ensures passes { is_labelling (round_trip 2 3) both 0 1 (Limit.Weight (pos 1)) (label 0 0 ∷ label 1 2 ∷ []) ≡ true }
    ensures unlisted { is_labelling (round_trip 2 3) both 0 1 (Limit.Weight (pos 1)) (label 0 0 ∷ []) ≡ true }
    ensures too_high { is_labelling (round_trip 2 3) both 0 1 (Limit.Weight (pos 1)) (label 0 0 ∷ label 1 3 ∷ []) ≡ false }
    ensures not_above { is_labelling (round_trip 2 3) both 0 1 (Limit.Weight (pos 2)) (label 0 0 ∷ label 1 2 ∷ []) ≡ false }
    ensures start_not_0 { is_labelling (round_trip 2 3) both 0 1 (Limit.Weight (pos 1)) (label 0 1 ∷ label 1 2 ∷ []) ≡ false }
    ensures node_twice { is_labelling (round_trip 2 3) both 0 1 (Limit.Weight (pos 1)) (label 0 0 ∷ label 1 2 ∷ label 1 2 ∷ []) ≡ false }
{}

/// Each present edge is looked at: also one from a node that has a label above the bound, or none.
pub fn labels_at_each_edge()
    ensures from_above { is_labelling (pipe 1 1) last_alone 0 2 (Limit.Weight (pos 1)) (label 0 0 ∷ label 1 5 ∷ label 2 6 ∷ []) ≡ true }
    ensures raised_above { is_labelling (pipe 1 1) last_alone 0 2 (Limit.Weight (pos 1)) (label 0 0 ∷ label 1 5 ∷ label 2 7 ∷ []) ≡ false }
    ensures from_unlisted { is_labelling (pipe 1 1) last_alone 0 2 (Limit.Weight (pos 1)) (label 0 0 ∷ label 2 3 ∷ []) ≡ true }
    ensures raised_unlisted { is_labelling (pipe 1 1) last_alone 0 2 (Limit.Weight (pos 1)) (label 0 0 ∷ label 2 4 ∷ []) ≡ false }
{}

/// A step costs 1 whatever the edge weighs, and nothing where there is no limit.
pub fn labels_by_limit()
    ensures steps { is_labelling (pipe 5 5) both 0 2 (Limit.Steps (pos 1)) (label 0 0 ∷ label 1 1 ∷ label 2 2 ∷ []) ≡ true }
    ensures too_many_steps { is_labelling (pipe 5 5) both 0 2 (Limit.Steps (pos 1)) (label 0 0 ∷ label 1 1 ∷ label 2 3 ∷ []) ≡ false }
    ensures free { is_labelling (pipe 1 1) first_alone 0 2 Limit.Free (label 0 0 ∷ label 1 0 ∷ label 2 1 ∷ []) ≡ true }
    ensures free_unlisted { is_labelling (pipe 1 1) first_alone 0 2 Limit.Free (label 0 0 ∷ label 1 0 ∷ []) ≡ true }
    ensures free_raised { is_labelling (pipe 1 1) both 0 2 Limit.Free (label 0 0 ∷ label 1 0 ∷ []) ≡ false }
{}

/// A cut's list is read as a set. An edge that enters the set doesn't matter, nor does one that isn't present.
pub fn cut_is_a_set()
    ensures twice { is_cut (round_trip 2 3) (false ∷ true ∷ []) 0 1 (0 ∷ 0 ∷ []) ≡ true }
    ensures left { is_cut (round_trip 2 3) first_alone 0 1 (0 ∷ []) ≡ false }
    ensures no_start { is_cut (round_trip 2 3) neither 0 1 [] ≡ false }
    ensures end_within { is_cut (round_trip 2 3) neither 0 1 (0 ∷ 1 ∷ []) ≡ false }
    ensures edge_within { is_cut (pipe 1 1) first_alone 0 2 (0 ∷ 1 ∷ []) ≡ true }
    ensures last_edge { is_cut (pipe 1 1) last_alone 0 2 (0 ∷ 1 ∷ []) ≡ false }
{}

/// Each of two parallel edges carries its own amount, and both leave the cut.
pub fn parallel_edges()
    ensures walks { is_walk (parallel 1 4) both 0 1 (1 ∷ []) ≡ true }
    ensures flow { is_flow_of (parallel 1 4) both 0 1 (pos 5) (amount 0 1 ∷ amount 1 4 ∷ []) ≡ true }
    ensures flow_of_less { is_flow_of (parallel 1 4) both 0 1 (pos 4) (amount 0 1 ∷ amount 1 4 ∷ []) ≡ true }
    ensures over_weight { is_flow_of (parallel 1 4) both 0 1 (pos 5) (amount 0 2 ∷ amount 1 3 ∷ []) ≡ false }
    ensures cut_of_six { is_flow_cut (parallel 1 4) both 0 1 (pos 6) (0 ∷ []) ≡ true }
    ensures not_of_five { is_flow_cut (parallel 1 4) both 0 1 (pos 5) (0 ∷ []) ≡ false }
    ensures places { leaving (parallel 1 4) 0 ≡ 0 ∷ 1 ∷ [] }
    ensures none_enters { entering (parallel 1 4) 0 ≡ [] }
    ensures both_enter { entering (parallel 1 4) 1 ≡ 0 ∷ 1 ∷ [] }
    ensures none_leaves { leaving (parallel 1 4) 1 ≡ [] }
{}

/// An edge that isn't present may be listed with amount 0. No flow carries more, and none is lost on the way.
pub fn flow_amounts()
    ensures absent_with_0 { is_flow_of (pipe 3 2) first_alone 0 2 (pos 0) (amount 1 0 ∷ []) ≡ true }
    ensures absent_with_1 { is_flow_of (pipe 3 2) first_alone 0 2 (pos 0) (amount 0 1 ∷ amount 1 1 ∷ []) ≡ false }
    ensures kept { is_flow_of (pipe 3 2) both 0 2 (pos 2) (amount 0 2 ∷ amount 1 2 ∷ []) ≡ true }
    ensures lost { is_flow_of (pipe 3 2) both 0 2 (pos 2) (amount 0 3 ∷ amount 1 2 ∷ []) ≡ false }
    ensures gained { is_flow_of (pipe 3 2) both 0 2 (pos 0) (amount 0 1 ∷ amount 1 2 ∷ []) ≡ false }
    ensures unlisted { is_flow_of (pipe 3 2) both 0 2 (pos 0) (amount 1 1 ∷ []) ≡ false }
    ensures edge_twice { is_flow_of (pipe 3 2) both 0 2 (pos 2) (amount 0 2 ∷ amount 1 2 ∷ amount 1 2 ∷ []) ≡ false }
    ensures too_little { is_flow_of (pipe 3 2) both 0 2 (pos 3) (amount 0 2 ∷ amount 1 2 ∷ []) ≡ false }
{}

/// What flows back into the source counts against the value.
pub fn flow_round_and_round()
    ensures round { is_flow_of (round_trip 2 2) both 0 1 (pos 1) (amount 0 2 ∷ amount 1 2 ∷ []) ≡ false }
    ensures net { is_flow_of (round_trip 2 2) both 0 1 (pos 1) (amount 0 2 ∷ amount 1 1 ∷ []) ≡ true }
    ensures below_0 { is_flow_of (round_trip 2 2) both 0 1 (pos 0) (amount 0 1 ∷ amount 1 2 ∷ []) ≡ false }
    ensures minus_1 { is_flow_of (round_trip 2 2) both 0 1 (negsuc 0) (amount 0 1 ∷ amount 1 2 ∷ []) ≡ true }
{}

/// The empty flow has value 0, so no cut shows that there is no flow of 0.
pub fn flow_of_0()
    ensures flow { is_flow_of (pipe 3 2) neither 0 2 (pos 0) [] ≡ true }
    ensures no_cut { is_flow_cut (pipe 3 2) neither 0 2 (pos 0) (0 ∷ []) ≡ false }
    ensures cut_of_1 { is_flow_cut (pipe 3 2) neither 0 2 (pos 1) (0 ∷ []) ≡ true }
{}

/// A flow's cut has the source and lacks the sink. Only present edges that leave it weigh, each once.
pub fn flow_cut_is_a_set()
    ensures no_source { is_flow_cut (pipe 3 2) neither 0 2 (pos 1) (1 ∷ []) ≡ false }
    ensures sink_within { is_flow_cut (pipe 3 2) neither 0 2 (pos 1) (0 ∷ 2 ∷ []) ≡ false }
    ensures twice { is_flow_cut (parallel 1 4) both 0 1 (pos 6) (0 ∷ 0 ∷ []) ≡ true }
    ensures absent { is_flow_cut (parallel 1 4) first_alone 0 1 (pos 2) (0 ∷ []) ≡ true }
    ensures enters { is_flow_cut (round_trip 2 9) both 0 1 (pos 3) (0 ∷ []) ≡ true }
    ensures within { is_flow_cut (pipe 9 2) both 0 2 (pos 3) (0 ∷ 1 ∷ []) ≡ true }
    ensures outside { is_flow_cut (pipe 2 9) both 0 2 (pos 3) (0 ∷ []) ≡ true }
{}

/// With one node the empty list is a spanning tree of weight 0, and nothing is split.
pub fn one_node()
    ensures tree { is_tree lone [] (pos 0) [] ≡ true }
    ensures not_below_0 { is_tree lone [] (negsuc 0) [] ≡ false }
    ensures least { is_least lone [] (negsuc 0) [] ≡ true }
    ensures whole_set { is_split lone [] (0 ∷ []) ≡ false }
    ensures empty_set { is_split lone [] [] ≡ false }
{}

/// An edge from a node to itself is a walk, leaves no set, is joined by no edge at all, and is in no tree.
pub fn self_loop()
    ensures walk { is_path looped (true ∷ []) 0 0 (Limit.Weight (pos 5)) (0 ∷ []) ≡ true }
    ensures least { is_least looped (true ∷ []) (negsuc 0) [] ≡ true }
    ensures tree { is_tree looped (true ∷ []) (pos 0) [] ≡ true }
    ensures no_tree { is_tree looped (true ∷ []) (pos 5) (0 ∷ []) ≡ false }
    ensures leaves { leaving looped 0 ≡ 0 ∷ [] }
    ensures enters { entering looped 0 ≡ 0 ∷ [] }
{}

/// Where weights tie, several trees are least.
pub fn tie_in_a_least_tree()
    ensures one { is_least (triangle 1 1 1) all_three (pos 1) (0 ∷ 1 ∷ []) ≡ true }
    ensures another { is_least (triangle 1 1 1) all_three (pos 1) (2 ∷ 0 ∷ []) ≡ true }
    ensures not_heavier { is_least (triangle 1 1 1) all_three (pos 2) (0 ∷ 1 ∷ []) ≡ false }
    ensures heavy_edge { is_least (triangle 1 1 2) all_three (pos 1) (0 ∷ 2 ∷ []) ≡ false }
    ensures heavy_edge_absent { is_least (triangle 1 1 2) (true ∷ false ∷ true ∷ []) (pos 1) (0 ∷ 2 ∷ []) ≡ true }
    ensures tree_absent { is_least (triangle 1 1 2) (false ∷ false ∷ true ∷ []) (pos 1) (0 ∷ 1 ∷ []) ≡ true }
    ensures not_spanning { is_least (triangle 1 1 1) (false ∷ false ∷ false ∷ []) (pos 0) (0 ∷ []) ≡ false }
{}

/// A spanning tree has one edge less than nodes, all different, and takes each in either direction.
pub fn spanning_trees()
    ensures against_the_edge { is_tree (triangle 1 2 4) all_three (pos 5) (0 ∷ 2 ∷ []) ≡ true }
    ensures too_heavy { is_tree (triangle 1 2 4) all_three (pos 4) (0 ∷ 2 ∷ []) ≡ false }
    ensures edge_twice { is_tree (triangle 1 2 4) all_three (pos 9) (0 ∷ 0 ∷ []) ≡ false }
    ensures cycle { is_tree (triangle 1 2 4) all_three (pos 9) (0 ∷ 1 ∷ 2 ∷ []) ≡ false }
    ensures absent { is_tree (triangle 1 2 4) (true ∷ true ∷ false ∷ []) (pos 9) (0 ∷ 2 ∷ []) ≡ false }
    ensures all_joined { is_tree kite (true ∷ all_three) (pos 9) (0 ∷ 1 ∷ 3 ∷ []) ≡ true }
    ensures cycle_and_node { is_tree kite (true ∷ all_three) (pos 9) (0 ∷ 1 ∷ 2 ∷ []) ≡ false }
{}

/// A split has a node and lacks a node, and no present edge leaves or enters it.
pub fn splits()
    ensures split { is_split (triangle 1 2 4) (true ∷ false ∷ false ∷ []) (2 ∷ []) ≡ true }
    ensures joined { is_split (triangle 1 2 4) (true ∷ false ∷ true ∷ []) (2 ∷ []) ≡ false }
    ensures node_0 { is_split (triangle 1 2 4) (false ∷ true ∷ false ∷ []) (0 ∷ []) ≡ true }
    ensures edge_within { is_split (triangle 1 2 4) (true ∷ false ∷ false ∷ []) (0 ∷ 1 ∷ []) ≡ true }
    ensures edge_leaves { is_split (triangle 1 2 4) (true ∷ false ∷ false ∷ []) (0 ∷ []) ≡ false }
    ensures edge_enters { is_split (triangle 1 2 4) (true ∷ false ∷ false ∷ []) (1 ∷ []) ≡ false }
    ensures no_node { is_split (triangle 1 2 4) (false ∷ false ∷ false ∷ []) [] ≡ false }
    ensures all_nodes { is_split (triangle 1 2 4) (false ∷ false ∷ false ∷ []) (0 ∷ 1 ∷ 2 ∷ []) ≡ false }
{}

/// Edges join their ends, in either direction and one after the other.
pub fn joined_nodes()
    ensures itself { joins [] 1 1 ≡ true }
    ensures apart { joins [] 0 1 ≡ false }
    ensures forth { joins (edge 1 0 1 1 ∷ edge 2 1 2 1 ∷ []) 0 2 ≡ true }
    ensures back { joins (edge 1 0 1 1 ∷ edge 2 1 2 1 ∷ []) 2 0 ≡ true }
    ensures not_joined { joins (edge 1 0 1 1 ∷ []) 0 2 ≡ false }
    ensures each_alone { component_count [] 3 ≡ 3 }
    ensures later_nodes { component_count (edge 1 1 2 1 ∷ []) 3 ≡ 2 }
    ensures over_a_node { component_count (edge 1 0 2 1 ∷ []) 3 ≡ 2 }
    ensures all_joined { component_count (edge 1 0 1 1 ∷ edge 2 2 1 1 ∷ []) 3 ≡ 1 }
    ensures no_nodes { component_count [] 0 ≡ 0 }
    ensures components { component_count (edge 1 0 1 1 ∷ []) 3 ≡ 2 }
    ensures joins_back { joins (edge 1 0 1 1 ∷ edge 2 2 1 1 ∷ []) 0 2 ≡ true }
{}

/// Edges are found by their numbers, which may have gaps.
pub fn edge_numbers()
    ensures found { place_of (triangle 1 2 4) 7 ≡ Some 1 }
    ensures gap { place_of (triangle 1 2 4) 8 ≡ None }
    ensures past { place_of (triangle 1 2 4) 10 ≡ None }
    ensures not_by_variable { place_of (single (edge_of 7 0 1 3 5)) 3 ≡ None }
    ensures by_number { place_of (single (edge_of 7 0 1 3 5)) 7 ≡ Some 0 }
{}

/// A graph with one more edge has it behind the others. Weights count as often as places are listed.
pub fn edges_and_weights()
    ensures one_more { with_edge lone (edge 1 0 0 5) ≡ looped }
    ensures behind { with_edge (single (edge 1 0 1 2)) (edge 2 1 0 3) ≡ round_trip 2 3 }
    ensures weight { weight_of (triangle 1 2 4) (0 ∷ 2 ∷ 2 ∷ []) ≡ 9 }
    ensures of_none { weight_of (triangle 1 2 4) [] ≡ 0 }
    ensures past_the_edges { weight_of (triangle 1 2 4) (3 ∷ []) ≡ 0 }
{}

/// A list is read as a set by what it has.
pub fn lists_as_sets()
    ensures first { has (3 ∷ 5 ∷ []) 3 ≡ true }
    ensures last { has (3 ∷ 5 ∷ []) 5 ≡ true }
    ensures other { has (3 ∷ 5 ∷ []) 4 ≡ false }
    ensures none { has [] 0 ≡ false }
    ensures distinct { is_distinct (3 ∷ 5 ∷ 4 ∷ []) ≡ true }
    ensures twice { is_distinct (3 ∷ 5 ∷ 3 ∷ []) ≡ false }
    ensures later_twice { is_distinct (3 ∷ 5 ∷ 5 ∷ []) ≡ false }
{}

/// A part of a graph tells of each of its places, and a part by variables has the edges whose variable is true.
pub fn parts_of_graphs()
    ensures part { IsPartOf first_alone (pipe 1 1) }
    ensures too_short { IsPartOf (true ∷ []) (pipe 1 1) → ⊥ }
    ensures too_long { IsPartOf all_three (pipe 1 1) → ⊥ }
    ensures held { present first_alone 0 ≡ true }
    ensures not_held { present first_alone 1 ≡ false }
    ensures past_the_end { present first_alone 2 ≡ false }
    ensures by_variable { enabled (λ v. v == 9) (single (edge_of 1 0 1 9 5)) ≡ true ∷ [] }
    ensures not_by_number { enabled (λ v. v == 1) (single (edge_of 1 0 1 9 5)) ≡ false ∷ [] }
    ensures smaller { IsSubpart first_alone both }
    ensures itself { IsSubpart first_alone first_alone }
    ensures larger { IsSubpart both first_alone → ⊥ }
{}

/// The least and the greatest numbers of a graph.
pub fn graphs_at_their_limits()
    ensures one_node { IsGraph lone }
    ensures no_node { IsGraph (record { nodes = 0; edges = [] }) → ⊥ }
    ensures all_nodes { IsGraph (record { nodes = MAX_NODES; edges = [] }) }
    ensures too_many_nodes { IsGraph (record { nodes = MAX_NODES + 1; edges = [] }) → ⊥ }
    ensures few_edges { (g : Digraph) → IsGraph g → length g.edges ≤ MAX_EDGES }
    ensures greatest { IsGraph (single (edge_of 4294967295 1 1 MAX_VARS MAX_WEIGHT)) }
    ensures least { IsGraph (single (edge_of 1 0 0 1 0)) }
{}

/// What no edge of a graph is.
pub fn edges_past_their_limits()
    ensures no_number { IsGraph (single (edge_of 0 0 1 1 0)) → ⊥ }
    ensures no_start { IsGraph (single (edge_of 1 2 1 1 0)) → ⊥ }
    ensures no_end { IsGraph (single (edge_of 1 0 2 1 0)) → ⊥ }
    ensures no_variable { IsGraph (single (edge_of 1 0 1 0 0)) → ⊥ }
    ensures great_variable { IsGraph (single (edge_of 1 0 1 (MAX_VARS + 1) 0)) → ⊥ }
    ensures great_weight { IsGraph (single (edge_of 1 0 1 1 (MAX_WEIGHT + 1))) → ⊥ }
    ensures number_twice { IsGraph (record { nodes = 2; edges = edge 1 0 1 0 ∷ edge 1 0 1 0 ∷ [] }) → ⊥ }
    ensures number_falls { IsGraph (record { nodes = 2; edges = edge 2 0 1 0 ∷ edge 1 0 1 0 ∷ [] }) → ⊥ }
{}
