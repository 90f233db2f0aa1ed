//! A flow that begins with given amounts.
//!
//! The amounts are tested first: no edge is listed twice, each can carry its amount, all nodes but the source and the sink
//! are balanced, and no amount exceeds the value. What isn't listed carries nothing.

ghost use Rattle.std.specs.Prelude.{◌≡◌, ◌<◌, ◌≤◌, ℕ, false, All, IfNone, IfOk, IfSome, IsTrue, length, slice_index_or};
ghost use Rattle.mono_graph.specs.Digraph.{has, is_distinct};
ghost use Rattle.mono_graph.specs.Flows.{amount_at};
ghost use Rattle.mono_flows.specs.Flowing.{IsFlow, IsFlowing};
ghost use Rattle.mono_flows.specs.Listed.{edges_of as edges_in};
ghost use Rattle.mono_flows.specs.Residual.{amount_of};
ghost use Rattle.mono_flows.specs.Rooms.{HasRoomFor, IsClearRoom};
ghost use Rattle.mono_flows.specs.Sums.{AreSums, AreZero, MayBeSumsOf};

use crate::edge_room::EdgeRoom;
use crate::flow::Flow;
use crate::listed_edges::{mark_edges, unmark_edges};
use crate::network::Network;
use crate::node_sums::NodeSums;
use mono_graph::Amount;
use std::alloc::{AllocError, Global};

/// Whether no amount is greater.
fn are_within(amounts: &[Amount], most: u64) -> bool
    ensures { IsTrue result → All (λ a. a.amount ≤ most) amounts.now }
{
    for amount in amounts {
        if amount.amount > most {
            return false;
        }
    }
    true
}

/// The value of the flow that the amounts are, if they are one. What they name may be left marked and summed.
fn value_in(
    network: &Network,
    listed: &mut Vec<bool>,
    sums: &mut NodeSums,
    amounts: &[Amount],
) -> Option<u64>
    requires known { All (λ a. a.edge < length network.now.graph.now.edges) amounts.now }
    requires listed_len { length listed.old.items ≡ length network.now.graph.now.edges }
    requires listed_clear { (k : ℕ) → slice_index_or listed.old.items k false ≡ false }
    requires sums { AreZero network.now.graph.now.nodes sums.old }
    ensures flow { IfSome result (IsFlowing network.now.graph.now network.now.part.now network.now.source network.now.sink (amount_at amounts.now)) }
    ensures distinct { IfSome result (λ _. IsTrue (is_distinct (edges_in amounts.now))) }
    ensures listed_len { length listed.new.items ≡ length network.now.graph.now.edges }
    ensures listed { (k : ℕ) → IsTrue (slice_index_or listed.new.items k false) → IsTrue (has (edges_in amounts.now) k) }
    ensures sums_len { AreSums network.now.graph.now.nodes sums.new }
    ensures sums { MayBeSumsOf network.now.graph.now amounts.now sums.new }
{
    // A graph has few edges, so no sum overflows.
    network.graph.known();
    if !mark_edges(network, listed, amounts) {
        return None;
    }
    sums.add_amounts(network.graph, amounts);
    if !sums.are_balanced(network, amounts) {
        return None;
    }
    let value = sums.surplus_at(network.source)?;
    if !are_within(amounts, value) {
        return None;
    }
    Some(value)
}

/// Carries the amounts, where nothing is carried yet. Of an edge that is listed again the last amount counts.
pub(crate) fn put_amounts(carried: &mut Vec<u64>, amounts: &[Amount])
    requires { All (λ a. a.edge < length carried.old.items) amounts.now }
    ensures len { length carried.new.items ≡ length carried.old.items }
    ensures amounts { IsTrue (is_distinct (edges_in amounts.now)) → ((k : ℕ) → amount_of carried.old.items k ≡ 0)
        → (k : ℕ) → amount_of carried.new.items k ≡ amount_at amounts.now k }
{
    for amount in amounts {
        carried[amount.edge as usize] = amount.amount;
    }
}

/// The edges that are listed.
pub(crate) fn edges_of(alloc: Global, amounts: &[Amount]) -> Result<Vec<u32>, AllocError>
    ensures { IfOk result (λ edges. edges.items ≡ edges_in amounts.now) }
{
    amounts.iter().map(|a| a.edge).collect(alloc)
}

/// The value of the flow that the amounts are, if they are one. Nothing stays marked or summed.
fn tested_value(
    network: &Network,
    room: &mut EdgeRoom,
    sums: &mut NodeSums,
    amounts: &[Amount],
) -> Option<u64>
    requires known { All (λ a. a.edge < length network.now.graph.now.edges) amounts.now }
    requires clear { IsClearRoom room.old }
    requires fits { HasRoomFor (length network.now.graph.now.edges) room.old }
    requires sums { AreZero network.now.graph.now.nodes sums.old }
    ensures flow { IfSome result (IsFlowing network.now.graph.now network.now.part.now network.now.source network.now.sink (amount_at amounts.now)) }
    ensures distinct { IfSome result (λ _. IsTrue (is_distinct (edges_in amounts.now))) }
    ensures clear { IsClearRoom room.new }
    ensures fits { HasRoomFor (length network.now.graph.now.edges) room.new }
    ensures sums { AreZero network.now.graph.now.nodes sums.new }
{
    let found = value_in(network, &mut room.listed, sums, amounts);
    unmark_edges(&mut room.listed, amounts);
    sums.clear(network.graph, amounts);
    found
}

/// The flow that carries these amounts, if they are one of a value of at most `most`. Its amounts are taken from the room.
pub(crate) fn kept_flow(
    alloc: Global,
    network: &Network,
    room: &mut EdgeRoom,
    sums: &mut NodeSums,
    amounts: &[Amount],
    most: u64,
) -> Result<Option<Flow>, AllocError>
    requires known { All (λ a. a.edge < length network.now.graph.now.edges) amounts.now }
    requires clear { IsClearRoom room.old }
    requires fits { HasRoomFor (length network.now.graph.now.edges) room.old }
    requires sums { AreZero network.now.graph.now.nodes sums.old }
    ensures flow { IfOk result (λ found. IfSome found (IsFlow network.now)) }
    ensures most { IfOk result (λ found. IfSome found (λ flow. flow.value ≤ most)) }
    ensures clear { IsClearRoom room.new }
    ensures fits { IfOk result (λ found. IfNone found (HasRoomFor (length network.now.graph.now.edges) room.new)) }
    ensures sums { AreZero network.now.graph.now.nodes sums.new }
{
    let Some(value) = tested_value(network, room, sums, amounts) else {
        return Ok(None);
    };
    if value > most {
        return Ok(None);
    }
    let touched = edges_of(alloc, amounts)?;
    let mut carried = room.take_amounts(alloc);
    put_amounts(&mut carried, amounts);
    Ok(Some(Flow {
        amounts: carried,
        value,
        touched,
    }))
}
