//! Tests labels that show that no walk is within a limit.
//!
//! The labels are entered by node, and then the edges at the listed nodes are looked at: those that leave them and those
//! that enter them, since a listed label may be above that of the nodes that aren't listed. An edge between two of those
//! is never tense.

ghost use Rattle.std.specs.Prelude.{◌≡◌, ◌<◌, ℕ, false, All, IsTrue, length, vec_len, slice_index_or};
ghost use Rattle.std.specs.List.{list_all};
ghost use Rattle.mono_graph.specs.Digraph.{IsPartOf, has};
ghost use Rattle.mono_graph.specs.Walks.{is_labelling as is_labelling_of};
ghost use Rattle.mono_paths.specs.Found.{HasBound};
ghost use Rattle.mono_paths.specs.Listed.{nodes_listed, label_in, is_calm, is_calm_around};

use crate::table::LabelTable;
use mono_graph::{Graph, Label, Limit, Part};

/// Whether the edge isn't present, or the label rises along it by at most what it costs.
fn is_calm(graph: &Graph, part: &Part, limit: Limit, table: &LabelTable, place: u32) -> bool
    requires part { IsPartOf part.now graph.now }
    requires listed { vec_len table.now.listed ≡ graph.now.nodes }
    requires values { vec_len table.now.values ≡ graph.now.nodes }
    requires place { place < length graph.now.edges }
    ensures { result ≡ is_calm (label_in table.now) limit graph.now part.now place }
{
    if !part.has(place) {
        return true;
    }
    let edge = graph.edge(place);
    let start = table.label(edge.from);
    let end = table.label(edge.to);
    end <= start || end - start <= limit.cost_of(edge)
}

/// Whether so it is at all of these edges.
fn are_calm(graph: &Graph, part: &Part, limit: Limit, table: &LabelTable, places: &[u32]) -> bool
    requires part { IsPartOf part.now graph.now }
    requires listed { vec_len table.now.listed ≡ graph.now.nodes }
    requires values { vec_len table.now.values ≡ graph.now.nodes }
    requires places { All (λ k. k < length graph.now.edges) places.now }
    ensures { result ≡ list_all (is_calm (label_in table.now) limit graph.now part.now) places.now }
{
    for place in places {
        if !is_calm(graph, part, limit, table, *place) {
            return false;
        }
    }
    true
}

/// Whether so it is at all edges of the listed nodes.
fn is_calm_around(
    graph: &Graph,
    part: &Part,
    limit: Limit,
    table: &LabelTable,
    labels: &[Label],
) -> bool
    requires part { IsPartOf part.now graph.now }
    requires listed { vec_len table.now.listed ≡ graph.now.nodes }
    requires values { vec_len table.now.values ≡ graph.now.nodes }
    requires labels { All (λ l. l.node < graph.now.nodes) labels.now }
    ensures { result ≡ list_all (λ l. is_calm_around (label_in table.now) limit graph.now part.now l.node) labels.now }
{
    for label in labels {
        if !are_calm(graph, part, limit, table, graph.leaving(label.node)) {
            return false;
        }
        if !are_calm(graph, part, limit, table, graph.entering(label.node)) {
            return false;
        }
    }
    true
}

/// Whether the labels pass. They may be left in the table.
pub fn holds(
    graph: &Graph,
    part: &Part,
    table: &mut LabelTable,
    from: u32,
    to: u32,
    limit: Limit,
    labels: &[Label],
) -> bool
    requires part { IsPartOf part.now graph.now }
    requires from { from < graph.now.nodes }
    requires to { to < graph.now.nodes }
    requires limit { HasBound limit }
    requires labels { All (λ l. l.node < graph.now.nodes) labels.now }
    requires listed_len { vec_len table.old.listed ≡ graph.now.nodes }
    requires values_len { vec_len table.old.values ≡ graph.now.nodes }
    requires clear { (u : ℕ) → slice_index_or table.old.listed.items u false ≡ false }
    ensures passes { result ≡ is_labelling_of graph.now part.now from to limit labels.now }
    ensures listed_len { vec_len table.new.listed ≡ graph.now.nodes }
    ensures values_len { vec_len table.new.values ≡ graph.now.nodes }
    ensures marked { (u : ℕ) → IsTrue (slice_index_or table.new.listed.items u false) → IsTrue (has (nodes_listed labels.now) u) }
{
    table.others = limit.cap();
    if !table.enter(labels) {
        return false;
    }
    if table.label(from) != 0 {
        return false;
    }
    if table.label(to) < table.others {
        return false;
    }
    is_calm_around(graph, part, limit, table, labels)
}
