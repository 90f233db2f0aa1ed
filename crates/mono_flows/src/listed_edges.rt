//! The edges that a list of amounts names.
//!
//! Both functions go over the list, and not over the graph.

ghost use Rattle.std.specs.Prelude.{◌≡◌, ◌<◌, ◌≤◌, ◌&&◌, ℕ, false, All, IsTrue, length, slice_index_or};
ghost use Rattle.std.specs.List.{list_all};
ghost use Rattle.mono_graph.specs.Digraph.{has, is_distinct};
ghost use Rattle.mono_flows.specs.Listed.{edges_of, can_carry as can_carry_of};

use crate::network::Network;
use mono_base::limits::MAX_WEIGHT;
use mono_graph::Amount;

/// Whether the edge can carry the amount.
fn can_carry(network: &Network, amount: Amount) -> bool
    requires { amount.edge < length network.now.graph.now.edges }
    ensures passes { result ≡ can_carry_of network.now.graph.now network.now.part.now amount }
    ensures small { IsTrue result → amount.amount ≤ MAX_WEIGHT }
{
    amount.amount <= network.capacity(amount.edge)
}

/// Whether no edge is listed twice, and each can carry its amount. Marks listed edges, up to the first that fails.
pub(crate) fn mark_edges(network: &Network, listed: &mut Vec<bool>, amounts: &[Amount]) -> bool
    requires known { All (λ a. a.edge < length network.now.graph.now.edges) amounts.now }
    requires len { length listed.old.items ≡ length network.now.graph.now.edges }
    requires clear { (k : ℕ) → slice_index_or listed.old.items k false ≡ false }
    ensures len { length listed.new.items ≡ length network.now.graph.now.edges }
    ensures marked { (k : ℕ) → IsTrue (slice_index_or listed.new.items k false) → IsTrue (has (edges_of amounts.now) k) }
    ensures passes { result ≡ (is_distinct (edges_of amounts.now) && list_all (can_carry_of network.now.graph.now network.now.part.now) amounts.now) }
    ensures few { IsTrue result → length amounts.now ≤ length network.now.graph.now.edges }
    ensures small { IsTrue result → All (λ a. a.amount ≤ MAX_WEIGHT) amounts.now }
{
    for amount in amounts {
        let place = amount.edge as usize;
        if listed[place] || !can_carry(network, *amount) {
            return false;
        }
        listed[place] = true;
    }
    true
}

/// Takes the marks off the listed edges.
pub(crate) fn unmark_edges(listed: &mut Vec<bool>, amounts: &[Amount])
    requires known { All (λ a. a.edge < length listed.old.items) amounts.now }
    ensures len { length listed.new.items ≡ length listed.old.items }
    ensures clear { ((k : ℕ) → IsTrue (slice_index_or listed.old.items k false) → IsTrue (has (edges_of amounts.now) k)) → (k : ℕ)
        → slice_index_or listed.new.items k false ≡ false }
{
    for amount in amounts {
        listed[amount.edge as usize] = false;
    }
}
