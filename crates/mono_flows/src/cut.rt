//! The weight of the present edges that leave a set of nodes.
//!
//! Each function goes over the set and the edges at its nodes, and not over the graph. A node may be listed again, so
//! the nodes that were counted are marked too. Weights are below 2^64 and a graph has at most 10^6 edges, so a sum needs
//! more than 64 bits, and 128 hold it.

ghost use Rattle.std.specs.Prelude.{◌≡◌, ◌<◌, ◌≤◌, ◌*◌, ◌^◌, ℕ, pos, false, All, IsTrue, length, slice_index_or, sum_by, filter, int_lt};
ghost use Rattle.mono_graph.specs.Digraph.{has, leaving, places, edge_at};
ghost use Rattle.mono_graph.specs.Flows.{is_flow_cut};
ghost use Rattle.mono_flows.specs.Cuts.{weight_out};

use crate::network::Network;
use mono_base::limits::{MAX_EDGES, MAX_WEIGHT};

/// What the present edges weigh that lead from the node to one outside.
fn weight_leaving(network: &Network, inside: &[bool], node: u32) -> u128
    requires inside { length inside.now ≡ network.now.graph.now.nodes }
    requires node { node < network.now.graph.now.nodes }
    ensures exact { result ≡ sum_by (weight_out network.now.graph.now network.now.part.now inside.now) (leaving network.now.graph.now node) }
    ensures bound { result ≤ MAX_EDGES * MAX_WEIGHT }
{
    // A graph has few edges, so the sum fits.
    network.graph.known();
    let mut weight: u128 = 0;
    for place in network.graph.leaving(node) {
        let edge = network.graph.edge(*place);
        if network.part.has(*place) && !inside[edge.to as usize] {
            weight += u128::from(edge.weight);
        }
    }
    weight
}

/// What the present edges weigh that lead from the set to a node outside. Marks the nodes of the set as counted.
fn weight_out_of(network: &Network, inside: &[bool], counted: &mut Vec<bool>, nodes: &[u32]) -> u128
    requires inside { length inside.now ≡ network.now.graph.now.nodes }
    requires counted { length counted.old.items ≡ network.now.graph.now.nodes }
    requires clear { (u : ℕ) → slice_index_or counted.old.items u false ≡ false }
    requires nodes { All (λ u. u < network.now.graph.now.nodes) nodes.now }
    ensures exact { result ≡ sum_by (weight_out network.now.graph.now network.now.part.now inside.now)
        (filter (λ k. has nodes.now (edge_at network.now.graph.now k).from) (places network.now.graph.now)) }
    ensures len { length counted.new.items ≡ network.now.graph.now.nodes }
    ensures counted { (u : ℕ) → slice_index_or counted.new.items u false ≡ has nodes.now u }
    ensures bound { result < 2 ^ 120 }
{
    // A graph has few nodes and edges, so the sum fits.
    network.graph.known();
    let mut weight: u128 = 0;
    for node in nodes {
        if !counted[*node as usize] {
            weight += weight_leaving(network, inside, *node);
            counted[*node as usize] = true;
        }
    }
    weight
}

/// Whether the weight is below `least`.
fn is_below(weight: u128, least: i64) -> bool
    requires { weight < 2 ^ 120 }
    ensures { result ≡ int_lt (pos weight) least }
{
    (weight as i128) < i128::from(least)
}

/// Whether the marked set has the source and lacks the sink, and what leaves it weighs below `least`. Its nodes may be
/// left marked as counted.
pub(crate) fn bounds_flows(
    network: &Network,
    inside: &[bool],
    counted: &mut Vec<bool>,
    least: i64,
    nodes: &[u32],
) -> bool
    requires nodes { All (λ u. u < network.now.graph.now.nodes) nodes.now }
    requires inside_len { length inside.now ≡ network.now.graph.now.nodes }
    requires inside { (u : ℕ) → slice_index_or inside.now u false ≡ has nodes.now u }
    requires counted_len { length counted.old.items ≡ network.now.graph.now.nodes }
    requires counted_clear { (u : ℕ) → slice_index_or counted.old.items u false ≡ false }
    ensures passes { result ≡ is_flow_cut network.now.graph.now network.now.part.now network.now.source network.now.sink least nodes.now }
    ensures counted_len { length counted.new.items ≡ network.now.graph.now.nodes }
    ensures counted { (u : ℕ) → IsTrue (slice_index_or counted.new.items u false) → IsTrue (has nodes.now u) }
{
    if !inside[network.source as usize] || inside[network.sink as usize] {
        return false;
    }
    is_below(weight_out_of(network, inside, counted, nodes), least)
}
