//! What follows from the definitions of walks, flows, trees and cycles alone.
//!
//! Each test of a witness on the one side excludes what it denies: where a cut passes there is no walk, and so on. What
//! passes over a part passes over each larger one, and what denies it passes over each smaller one: this is what makes
//! the predicates monotonic (Bayless, Bayless, Hoos and Hu, SAT Modulo Monotonic Theories, 2015).
//!
//! `P` and `Q` are parts: lists by place. None of the laws asks that they are parts of the graph, since a walk, a flow and
//! a tree have edges of the graph alone.

ghost use Rattle.std.specs.Prelude.{◌≡◌, ◌≢◌, ◌+◌, ◌^◌, ◌∷◌, false, ◌≤◌, ◌≤ℤ◌, ◌<◌, ◌&&◌, ◌↔◌, ℕ, ℤ, Bool, List, length, pos, not, int_le, IsTrue};
ghost use Rattle.std.specs.List.{list_all, range_with_len};
ghost use Rattle.mono_graph.specs.Digraph.{Digraph, HasEnds, IsGraph, IsSubpart, has, is_distinct, is_place, leads_out, present_by, weight_of};
ghost use Rattle.mono_graph.specs.Walks.{is_walk, is_path, is_cut, is_labelling};
ghost use Rattle.mono_graph.specs.Flows.{is_flow, is_flow_of, is_flow_cut, value_of};
ghost use Rattle.mono_graph.specs.Trees.{joins, component_count, is_tree, is_split, is_least, IsRoute};
ghost use Rattle.mono_graph.specs.Cycles.{is_cycle, is_order, IsAcyclic};
ghost use Rattle.mono_graph.specs.declared.edge.Edge.{Edge};

use crate::{Amount, Label, Limit};

/// Where a set of nodes is a cut, no walk leads from the one node to the other.
pub fn cut_means_no_walk()
    ensures { (g : Digraph) (P : List Bool) (u v : ℕ) (set walk : List ℕ) → IsTrue (is_cut g P u v set) → IsTrue (is_walk g P u v walk) → ⊥ }
{}

/// Where a labelling passes, no walk is within the limit.
pub fn labelling_means_no_light_walk()
    ensures { (g : Digraph) (P : List Bool) (u v : ℕ) (limit : Limit) (labels : List Label) (walk : List ℕ) → limit ≢ Limit.Free
        → IsTrue (is_labelling g P u v limit labels) → IsTrue (is_path g P u v limit walk) → ⊥ }
{}

/// The value of a flow is at most what the present edges that leave a set weigh, where the set has the source and
/// lacks the sink.
pub fn flow_value_is_at_most_cut()
    ensures { (g : Digraph) (P : List Bool) (s t : ℕ) (flow : ℕ → ℕ) (set : List ℕ) → HasEnds g → s < g.nodes → IsTrue (is_flow g P s t flow)
        → IsTrue (has set s) → IsTrue (not (has set t)) → value_of g s flow ≤ℤ pos (weight_of g (present_by (leads_out set) g P)) }
{}

/// Where the edges that leave a set weigh less than the bound, no flow has a value as great as the bound.
pub fn flow_cut_means_no_flow()
    ensures { (g : Digraph) (P : List Bool) (s t : ℕ) (least : ℤ) (flow : ℕ → ℕ) (set : List ℕ) → HasEnds g → s < g.nodes
        → IsTrue (is_flow_cut g P s t least set) → IsTrue (is_flow g P s t flow && int_le least (value_of g s flow)) → ⊥ }
{}

/// Where no edge joins a set with the rest, there is no spanning tree.
pub fn split_means_no_tree()
    ensures { (g : Digraph) (P : List Bool) (most : ℤ) (set tree : List ℕ) → IsTrue (is_split g P set) → IsTrue (is_tree g P most tree) → ⊥ }
{}

/// A spanning tree that joins the ends of each present edge by edges no heavier is no heavier than any in the part.
pub fn least_tree_is_lightest()
    ensures { (g : Digraph) (P : List Bool) (most limit : ℤ) (least tree : List ℕ) → IsTrue (is_least g P most least)
        → IsTrue (is_tree g P limit tree) → weight_of g least ≤ weight_of g tree }
{}

/// Where such a tree is heavier than the bound, no spanning tree is within it.
pub fn least_tree_means_no_lighter_tree()
    ensures { (g : Digraph) (P : List Bool) (most : ℤ) (least tree : List ℕ) → IsTrue (is_least g P most least) → IsTrue (is_tree g P most tree) → ⊥ }
{}

/// Two nodes are joined exactly where some list of the edges, each taken in either direction, leads from the one to the other.
pub fn joined_means_route()
    ensures { (es : List Edge) (u v : ℕ) → IsTrue (joins es u v) ↔ ((route : List (Edge × Bool)) × IsRoute es u route v) }
{}

/// One more edge lowers the number of components by at most one.
pub fn edge_joins_at_most_two_components()
    ensures { (e : Edge) (es : List Edge) (n : ℕ) → component_count es n ≤ component_count (e ∷ es) n + 1 }
{}

/// An edge between two components makes one of them.
pub fn edge_between_components_joins_them()
    ensures { (e : Edge) (es : List Edge) (n : ℕ) → e.from < n → e.to < n → joins es e.from e.to ≡ false
        → component_count (e ∷ es) n + 1 ≡ component_count es n }
{}

/// Edges that join n nodes are at least n - 1.
pub fn joined_nodes_need_edges()
    ensures { (es : List Edge) (n : ℕ) → IsTrue (list_all (joins es 0) (range_with_len 0 n)) → n ≤ length es + 1 }
{}

/// A walk within a limit, a flow and a spanning tree pass over each larger part.
pub fn larger_part_keeps_what_is_there()
    ensures path { (g : Digraph) (P Q : List Bool) → IsSubpart P Q → (u v : ℕ) (limit : Limit) (walk : List ℕ) → IsTrue (is_path g P u v limit walk)
        → IsTrue (is_path g Q u v limit walk) }
    ensures flow { (g : Digraph) (P Q : List Bool) → IsSubpart P Q → (s t : ℕ) (least : ℤ) (amounts : List Amount)
        → IsTrue (is_flow_of g P s t least amounts) → IsTrue (is_flow_of g Q s t least amounts) }
    ensures tree { (g : Digraph) (P Q : List Bool) → IsSubpart P Q → (most : ℤ) (tree : List ℕ) → IsTrue (is_tree g P most tree)
        → IsTrue (is_tree g Q most tree) }
{}

/// A cut, a labelling, a flow cut, a split and a least tree pass over each smaller part.
pub fn smaller_part_keeps_what_is_not_there()
    ensures cut { (g : Digraph) (P Q : List Bool) → IsSubpart P Q → (u v : ℕ) (set : List ℕ) → IsTrue (is_cut g Q u v set) → IsTrue (is_cut g P u v set) }
    ensures labelling { (g : Digraph) (P Q : List Bool) → IsSubpart P Q → (u v : ℕ) (limit : Limit) (labels : List Label)
        → IsTrue (is_labelling g Q u v limit labels) → IsTrue (is_labelling g P u v limit labels) }
    ensures flow_cut { (g : Digraph) (P Q : List Bool) → IsSubpart P Q → (s t : ℕ) (least : ℤ) (set : List ℕ) → IsTrue (is_flow_cut g Q s t least set)
        → IsTrue (is_flow_cut g P s t least set) }
    ensures split { (g : Digraph) (P Q : List Bool) → IsSubpart P Q → (set : List ℕ) → IsTrue (is_split g Q set) → IsTrue (is_split g P set) }
    ensures least { (g : Digraph) (P Q : List Bool) → IsSubpart P Q → (most : ℤ) (tree : List ℕ) → IsTrue (is_least g Q most tree)
        → IsTrue (is_least g P most tree) }
{}

/// A cycle is a nonempty walk from a node to itself.
pub fn cycle_is_a_closed_walk()
    ensures { (g : Digraph) (P : List Bool) (cycle : List ℕ) → IsTrue (is_cycle g P cycle) → IsAcyclic g P → ⊥ }
{}

/// Where there is an order, no nonempty walk leads from a node to itself.
pub fn order_means_no_closed_walk()
    ensures { (g : Digraph) (P : List Bool) (order : List ℕ) → IsTrue (is_order g P order) → IsAcyclic g P }
{}

/// A cycle passes over each larger part.
pub fn larger_part_keeps_cycles()
    ensures { (g : Digraph) (P Q : List Bool) → IsSubpart P Q → (cycle : List ℕ) → IsTrue (is_cycle g P cycle) → IsTrue (is_cycle g Q cycle) }
{}

/// An order passes over each smaller part, and so does that there is no cycle.
pub fn smaller_part_keeps_orders()
    ensures order { (g : Digraph) (P Q : List Bool) → IsSubpart P Q → (order : List ℕ) → IsTrue (is_order g Q order) → IsTrue (is_order g P order) }
    ensures acyclic { (g : Digraph) (P Q : List Bool) → IsSubpart P Q → IsAcyclic g Q → IsAcyclic g P }
{}

/// Different edges of a graph weigh less than 2^84 together: there are fewer than 2^20, and each weighs less than 2^64.
pub fn different_edges_weigh_less_than_two_to_the_84()
    ensures { (g : Digraph) (ks : List ℕ) → IsGraph g → IsTrue (is_distinct ks) → IsTrue (list_all (is_place g) ks) → weight_of g ks < 2 ^ 84 }
{}
