//! Labels that are lowered along the edges of one node after another.

ghost use Rattle.std.specs.Prelude.{◌≡◌, ◌<◌, ◌≤◌, ◌+◌, ℕ, Bool, false, IfOk, length, sum, vec_len, IsTrue};
ghost use Rattle.mono_graph.specs.Digraph.{IsPartOf, edge_at, present};
ghost use Rattle.mono_graph.specs.Walks.{cost_of as cost_by};
ghost use Rattle.mono_paths.specs.Trails.{IsTrail, visit_at};
ghost use Rattle.mono_paths.specs.Spread.{IsSpread, AreLabels, Lowers, label_of, waits_after};

use crate::labels::Labels;
use crate::visit::Visit;
use mono_graph::{Graph, Limit, Part};
use std::alloc::AllocError;

/// Lowers the label of the node to which the edge at the place leads, where that edge asks for it. Whether it did.
fn relax(
    graph: &Graph,
    part: &Part,
    limit: Limit,
    labels: &mut Labels,
    visits: &mut Vec<Visit>,
    at: usize,
    place: u32,
) -> Result<bool, AllocError>
    requires part { IsPartOf part.now graph.now }
    requires place { place < length graph.now.edges }
    requires at { at < vec_len visits.old }
    requires labels { length labels.old.each ≡ graph.now.nodes }
    ensures cap { labels.new.cap ≡ labels.old.cap }
    ensures len { length labels.new.each ≡ length labels.old.each }
    ensures lowered { IfOk result (λ lowered. IsTrue lowered
        → IsTrue (present part.now place) × Lowers labels.old.each labels.new.each visits.old.items visits.new.items
        (record {
          node = (edge_at graph.now place).to;
          place = place;
          before = at;
          cost = (visit_at visits.old.items at).cost + cost_by limit (edge_at graph.now place);
        })) }
    ensures kept { IfOk result (λ lowered. lowered ≡ false
        → (labels.new.each ≡ labels.old.each) × (visits.new.items ≡ visits.old.items)
        × (IsTrue (present part.now place) → label_of labels.old.each (edge_at graph.now place).to
        ≤ (visit_at visits.old.items at).cost + cost_by limit (edge_at graph.now place))) }
{
    if !part.has(place) {
        return Ok(false);
    }
    let edge = graph.edge(place);
    let cost = visits[at].cost;
    let label = labels.get(edge.to);
    let step = limit.cost_of(edge);
    if label <= cost || label - cost <= step {
        return Ok(false);
    }
    visits.push(Visit {
        node: edge.to,
        place,
        before: at,
        cost: cost + step,
    })?;
    labels.lower(edge.to, cost + step)?;
    Ok(true)
}

/// Looks at the edges of a visit's node, unless the node has a lower label by now.
pub fn expand(
    graph: &Graph,
    part: &Part,
    limit: Limit,
    labels: &mut Labels,
    visits: &mut Vec<Visit>,
    at: usize,
) -> Result<(), AllocError>
    requires part { IsPartOf part.now graph.now }
    requires trail { IsTrail graph.now part.now limit visits.old.items }
    requires at { at < vec_len visits.old }
    requires labels { AreLabels graph.now labels.old.cap labels.old.each visits.old.items }
    ensures cap { labels.new.cap ≡ labels.old.cap }
    ensures len { length labels.new.each ≡ length labels.old.each }
    ensures trail { IfOk result (λ _. IsTrail graph.now part.now limit visits.new.items) }
    ensures labels { IfOk result (λ _. AreLabels graph.now labels.old.cap labels.new.each visits.new.items) }
    ensures grows { IfOk result (λ _. vec_len visits.old ≤ vec_len visits.new) }
    ensures first { IfOk result (λ _. visit_at visits.new.items 0 ≡ visit_at visits.old.items 0) }
    ensures spread { IfOk result (λ _. (waits : ℕ → Bool) → IsSpread graph.now part.now limit labels.old.each visits.old.items waits
        → IsSpread graph.now part.now limit labels.new.each visits.new.items (waits_after waits at (length visits.old.items))) }
    ensures work { IfOk result (λ _. sum labels.new.each + vec_len visits.new ≤ sum labels.old.each + vec_len visits.old) }
{
    let visit = visits[at];
    if visit.cost != labels.get(visit.node) {
        return Ok(());
    }
    let places = graph.leaving(visit.node);
    for place in places {
        relax(graph, part, limit, labels, visits, at, *place)?;
    }
    Ok(())
}
