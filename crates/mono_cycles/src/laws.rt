//! What a cycle or an order that was found decides.
//!
//! `P` is a part: a list by place.

ghost use Rattle.std.specs.Prelude.{◌≡◌, ◌↔◌, Bool, List, IsTrue, false};
ghost use Rattle.mono_graph.specs.Digraph.{Digraph};
ghost use Rattle.mono_graph.specs.Cycles.{IsAcyclic};
ghost use Rattle.mono_cycles.specs.Found.{IsCycleOrOrder, is_cycle_found};
ghost use Rattle.mono_cycles.specs.declared.finder.CycleOrOrder.{CycleOrOrder};

/// What `find_cycle` gives is a cycle exactly where there is a nonempty walk from a node to itself.
pub fn found_cycle_decides()
    ensures { (g : Digraph) (P : List Bool) (found : CycleOrOrder) → IsCycleOrOrder g P found → IsTrue (is_cycle_found found) ↔ ¬ IsAcyclic g P }
{}

/// It is an order exactly where there is none.
pub fn found_order_decides()
    ensures { (g : Digraph) (P : List Bool) (found : CycleOrOrder) → IsCycleOrOrder g P found → (is_cycle_found found ≡ false) ↔ IsAcyclic g P }
{}
