//! Edges of one variable, which come to a part with an order together and go together.

ghost use Rattle.std.specs.Prelude.{◌≡◌, ◌<◌, ◌&&◌, ℕ, Bool, List, false, not, take, All, IsTrue, length};
ghost use Rattle.mono_graph.specs.Digraph.{Digraph, IsPartOf, IsSubpart, has, present};
ghost use Rattle.mono_graph.specs.Cycles.{is_cycle, is_order};
ghost use Rattle.mono_cycles.specs.Kept.{IsGrownBy};
ghost use Rattle.mono_dynamic.specs.Arrivals.{IsGrown};
ghost use Rattle.mono_acyclic.specs.Together.{IsPutIn};

use mono_cycles::OrderedPart;
use mono_graph::Graph;

/// Puts an edge into the part, unless it closes a cycle. Whether it is there now.
fn insert(ordered: &mut OrderedPart, graph: &Graph, place: u32) -> bool
    requires size { length ordered.old.order ≡ graph.now.nodes }
    requires part { IsPartOf ordered.old.part graph.now }
    requires place { place < length graph.now.edges }
    ensures size { length ordered.new.order ≡ length ordered.old.order }
    ensures part_size { length ordered.new.part ≡ length ordered.old.part }
    ensures part { IsTrue result → IsGrownBy ordered.old.part ordered.new.part place }
    ensures part_stays { result ≡ false → (k : ℕ) → present ordered.new.part k ≡ present ordered.old.part k }
    ensures order { IsTrue (is_order graph.now ordered.old.part ordered.old.order) → IsTrue (is_order graph.now ordered.new.part ordered.new.order) }
    ensures cycle { result ≡ false → (Q : List Bool) → IsSubpart ordered.old.part Q → IsTrue (present Q place)
        → IsTrue (is_cycle graph.now Q ordered.new.cycle) }
{
    if ordered.part().has(place) {
        return true;
    }
    ordered.insert(graph, place)
}

/// Puts edges into the part, up to the first one that closes a cycle. Whether all are there now.
pub(crate) fn insert_all(ordered: &mut OrderedPart, graph: &Graph, places: &[u32]) -> bool
    requires size { length ordered.old.order ≡ graph.now.nodes }
    requires part { IsPartOf ordered.old.part graph.now }
    requires places { All (λ k. k < length graph.now.edges) places.now }
    ensures put { IsTrue result → IsPutIn graph.now ordered.old ordered.new places.now }
    ensures some { result ≡ false → (n : ℕ) × IsPutIn graph.now ordered.old ordered.new (take n places.now) }
    ensures cycle { result ≡ false → (Q : List Bool) → IsGrown ordered.old.part Q places.now → IsTrue (is_cycle graph.now Q ordered.new.cycle) }
{
    for place in places {
        if !insert(ordered, graph, *place) {
            return false;
        }
    }
    true
}

/// Takes edges out of the part.
pub(crate) fn remove_all(ordered: &mut OrderedPart, places: &[u32])
    requires { All (λ k. k < length ordered.old.part) places.now }
    ensures size { length ordered.new.order ≡ length ordered.old.order }
    ensures part_size { length ordered.new.part ≡ length ordered.old.part }
    ensures part { (k : ℕ) → present ordered.new.part k ≡ (not (has places.now k) && present ordered.old.part k) }
    ensures order { (g : Digraph) → IsTrue (is_order g ordered.old.part ordered.old.order) → IsTrue (is_order g ordered.new.part ordered.new.order) }
{
    for place in places {
        ordered.remove(*place);
    }
}
