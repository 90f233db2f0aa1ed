//! Worked rows: trees of walks, rows of costs and targets just where what is said of them ends. Two edges lead from node 0 to node 1, where
//! they don't lead from node 0 over node 1 to node 2.

ghost use Rattle.std.specs.Prelude.{[], ◌∷◌, ℕ, Bool, List, pos, true};
ghost use Rattle.mono_graph.specs.Digraph.{Digraph};
ghost use Rattle.mono_graph.specs.Worked.{both, last_alone, looped, parallel, pipe};
ghost use Rattle.mono_dynamic.specs.Arrivals.{at_source, AreReachedAlong, IsTree};
ghost use Rattle.mono_dynamic.specs.Costs.{AreLeastAlong, IsLed};
ghost use Rattle.mono_dynamic.specs.SearchTrees.{LeadsOn};
ghost use Rattle.mono_dynamic.specs.Sources.{IsServed};
ghost use Rattle.mono_dynamic.specs.Targets.{Targets, AreTold, IsUndoneRow};
ghost use Rattle.mono_dynamic.specs.Ways.{no_target, AreWaysTo, IsTarget};
ghost use Rattle.mono_dynamic.specs.Worked.{arrival, at_once, change, change_from, last_first, lowered_by, with_way, within_weight};

use mono_graph::Limit;

/// No arrival comes by way of itself, and none leads on where there is no other. Each is by an edge of the part, also where another edge
/// there weighs the same.
pub fn arrivals_by_way_of_others()
    ensures from_itself { IsTree looped (true ∷ []) 0 (at_source 0 ∷ arrival 0 0 1 0 ∷ []) → ⊥ }
    ensures source_alone { LeadsOn (at_source 0 ∷ []) 0 → ⊥ }
    ensures by_an_absent_edge { AreWaysTo (parallel 1 1) last_alone (within_weight 3 ∷ []) (with_way 0 1) → ⊥ }
{}

/// What is kept is right after the last step too, not only before it.
pub fn last_steps()
    ensures not_reached { AreReachedAlong (pipe 1 1) at_once 1 0 (at_source 0 ∷ []) → ⊥ }
    ensures not_lowered { AreLeastAlong (parallel 1 4) last_first 2 0 (record (lowered_by (change 1 1 0 10 4 1 ∷ [])) { labels = 0 ∷ 4 ∷ [] }) → ⊥ }
    ensures by_an_absent_edge { AreLeastAlong (parallel 1 4) last_first 1 0 (record (lowered_by (change 1 0 0 10 4 1 ∷ [])) { labels = 0 ∷ 4 ∷ [] }) → ⊥ }
{}

/// The first change comes from the source, whichever node that is.
pub fn changes_from_another_source()
    ensures { IsLed (pipe 1 2) both (Limit.Weight (pos 9)) 1 (change_from 0 2 1 2 ∷ []) 0 }
{}

/// What a list doesn't hold neither serves nor is a target, even where what stands for it would do.
pub fn what_no_list_holds()
    ensures row { IsServed (λ (n : ℕ). 0) (λ n. n) 0 [] 0 → ⊥ }
    ensures target { IsTarget [] no_target → ⊥ }
{}

/// Where no step is taken back, what is told is of the same steps.
pub fn rows_that_go_back_no_step()
    ensures { (g : Digraph) (parts : ℕ → List Bool) (kept : ℕ) (old new : Targets) → IsUndoneRow kept old new → AreTold g parts kept old
        → AreTold g parts kept new }
{}
