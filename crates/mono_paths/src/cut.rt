//! Tests sets of nodes that no walk leaves.
//!
//! The edges that leave the nodes of the set are looked at, and no others, and those of a node that is listed again no
//! second time.

ghost use Rattle.std.specs.Prelude.{◌≡◌, ◌<◌, ℕ, All, IsTrue, false, length, slice_index_or, vec_len};
ghost use Rattle.std.specs.List.{list_all};
ghost use Rattle.mono_graph.specs.Digraph.{IsPartOf, has};
ghost use Rattle.mono_graph.specs.Walks.{is_cut as is_cut_of};
ghost use Rattle.mono_paths.specs.Stays.{stays_at};

use mono_graph::{Graph, Part};

/// Whether no present edge leads from the node to one that isn't marked.
fn stays(graph: &Graph, part: &Part, inside: &[bool], node: u32) -> bool
    requires part { IsPartOf part.now graph.now }
    requires inside { length inside.now ≡ graph.now.nodes }
    requires node { node < graph.now.nodes }
    ensures { result ≡ stays_at inside.now graph.now part.now node }
{
    let places = graph.leaving(node);
    for place in places {
        if part.has(*place) && !inside[graph.edge(*place).to as usize] {
            return false;
        }
    }
    true
}

/// Whether so it is at each of the nodes. Those that were looked at are marked as seen.
fn all_stay(
    graph: &Graph,
    part: &Part,
    inside: &[bool],
    seen: &mut Vec<bool>,
    nodes: &[u32],
) -> bool
    requires part { IsPartOf part.now graph.now }
    requires inside { length inside.now ≡ graph.now.nodes }
    requires nodes { All (λ u. u < graph.now.nodes) nodes.now }
    requires seen { vec_len seen.old ≡ graph.now.nodes }
    requires clear { (u : ℕ) → slice_index_or seen.old.items u false ≡ false }
    ensures stay { result ≡ list_all (stays_at inside.now graph.now part.now) nodes.now }
    ensures seen { vec_len seen.new ≡ graph.now.nodes }
    ensures marked { (u : ℕ) → IsTrue (slice_index_or seen.new.items u false) → IsTrue (has nodes.now u) }
{
    for node in nodes {
        if !seen[*node as usize] {
            seen[*node as usize] = true;
            if !stays(graph, part, inside, *node) {
                return false;
            }
        }
    }
    true
}

/// Whether the set whose nodes are marked passes. Nodes that were looked at are marked as seen.
pub fn holds(
    graph: &Graph,
    part: &Part,
    inside: &[bool],
    seen: &mut Vec<bool>,
    from: u32,
    to: u32,
    nodes: &[u32],
) -> bool
    requires part { IsPartOf part.now graph.now }
    requires from { from < graph.now.nodes }
    requires to { to < graph.now.nodes }
    requires nodes { All (λ u. u < graph.now.nodes) nodes.now }
    requires inside_len { length inside.now ≡ graph.now.nodes }
    requires inside { (u : ℕ) → u < graph.now.nodes → slice_index_or inside.now u false ≡ has nodes.now u }
    requires seen { vec_len seen.old ≡ graph.now.nodes }
    requires clear { (u : ℕ) → slice_index_or seen.old.items u false ≡ false }
    ensures passes { result ≡ is_cut_of graph.now part.now from to nodes.now }
    ensures seen { vec_len seen.new ≡ graph.now.nodes }
    ensures marked { (u : ℕ) → IsTrue (slice_index_or seen.new.items u false) → IsTrue (has nodes.now u) }
{
    // The edges of a graph lead to its nodes.
    graph.known();
    if !inside[from as usize] {
        return false;
    }
    if inside[to as usize] {
        return false;
    }
    all_stay(graph, part, inside, seen, nodes)
}
