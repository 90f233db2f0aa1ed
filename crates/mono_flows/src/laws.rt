//! What follows from the definitions of flows for lists of amounts, and for what a search finds.
//!
//! That the value of a flow is at most what leaves a set, and that a cut excludes a flow, are laws of the graph crate.

ghost use Rattle.std.specs.Prelude.{◌≡◌, ◌≢◌, ◌<◌, ◌&&◌, ◌↔◌, ℕ, ℤ, Bool, List, All, IsTrue, false, length, not, pos};
ghost use Rattle.mono_graph.specs.Digraph.{Digraph, HasEnds, edge_at, has, leads_out, present, present_by, weight_of};
ghost use Rattle.mono_graph.specs.Flows.{amount_at, inflow, outflow, is_flow, is_flow_of, value_of};
ghost use Rattle.mono_graph.specs.declared.amount.Amount.{Amount};
ghost use Rattle.mono_flows.specs.Listed.{edges_of};
ghost use Rattle.mono_flows.specs.Answers.{Passes, is_flow_found};
ghost use Rattle.mono_flows.specs.declared.found.FlowOrCut.{FlowOrCut};

/// What a list of amounts doesn't name carries nothing: an edge that isn't listed, and a node that no listed edge has
/// as an end, which is balanced therefore. So a test of the listed edges and their ends is a test of the whole graph.
pub fn unnamed_carries_nothing()
    ensures edge { (amounts : List Amount) (k : ℕ) → has (edges_of amounts) k ≡ false → amount_at amounts k ≡ 0 }
    ensures node { (g : Digraph) (amounts : List Amount) (u : ℕ) → All (λ a. (edge_at g a.edge).from ≢ u) amounts
        → All (λ a. (edge_at g a.edge).to ≢ u) amounts → inflow g (amount_at amounts) u ≡ outflow g (amount_at amounts) u }
{}

/// A flow reaches its bound where a set has the source and lacks the sink, the present edges that leave it are full, and
/// the edges that enter it carry nothing: its value is what the present edges that leave the set weigh.
pub fn full_cut_is_the_value()
    ensures { (g : Digraph) (P : List Bool) (s t : ℕ) (flow : ℕ → ℕ) (set : List ℕ) → HasEnds g → s < g.nodes → IsTrue (is_flow g P s t flow)
        → IsTrue (has set s) → IsTrue (not (has set t))
        → ((k : ℕ) → k < length g.edges → IsTrue (present P k && leads_out set (edge_at g k)) → flow k ≡ (edge_at g k).weight)
        → ((k : ℕ) → k < length g.edges → IsTrue (has set (edge_at g k).to && not (has set (edge_at g k).from)) → flow k ≡ 0)
        → value_of g s flow ≡ pos (weight_of g (present_by (leads_out set) g P)) }
{}

/// What a search found decides whether there is a flow of at least `least`: it is a flow exactly where there is one.
pub fn found_flow_decides()
    ensures { (g : Digraph) (P : List Bool) (s t : ℕ) (least : ℤ) (found : FlowOrCut) → HasEnds g → s < g.nodes → Passes g P s t least found
        → IsTrue (is_flow_found found) ↔ ((amounts : List Amount) × IsTrue (is_flow_of g P s t least amounts)) }
{}
