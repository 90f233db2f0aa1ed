//! Worked rows: what theories of cycles keep of the surely present edges.

ghost use Rattle.std.specs.Prelude.{◌≡◌, [], ◌∷◌, pos, true, false, None, Some};
ghost use Rattle.mono_graph.specs.Worked.{both, first_alone, neither, pipe, round_trip};
ghost use Rattle.mono_acyclic.specs.declared.ordered_edges.Closing.{Closing};
ghost use Rattle.mono_acyclic.specs.Orders.{AreEdgesOf, IsKeptTo};
ghost use Rattle.mono_search_rows.specs.Worked.{having_seen, kept_by, ordered_by};

/// The surely present edges from node 0 over node 1 to node 2 are kept with an order of all nodes in which each of them rises.
pub fn edges_in_an_order()
    ensures ordered { AreEdgesOf (kept_by (ordered_by first_alone (0 ∷ 1 ∷ 2 ∷ [])) None) (having_seen (pipe 1 1) (pos 1 ∷ [])) }
    ensures in_another_order { AreEdgesOf (kept_by (ordered_by first_alone (2 ∷ 0 ∷ 1 ∷ [])) None) (having_seen (pipe 1 1) (pos 1 ∷ [])) }
    ensures falling { AreEdgesOf (kept_by (ordered_by first_alone (1 ∷ 0 ∷ 2 ∷ [])) None) (having_seen (pipe 1 1) (pos 1 ∷ [])) → ⊥ }
    ensures more_edges { AreEdgesOf (kept_by (ordered_by both (0 ∷ 1 ∷ 2 ∷ [])) None) (having_seen (pipe 1 1) (pos 1 ∷ [])) → ⊥ }
    ensures more_places { AreEdgesOf (kept_by (ordered_by (true ∷ false ∷ false ∷ []) (0 ∷ 1 ∷ 2 ∷ [])) None) (having_seen (pipe 1 1) (pos 1 ∷ [])) → ⊥ }
    ensures more_nodes { AreEdgesOf (kept_by (ordered_by first_alone (0 ∷ 1 ∷ 2 ∷ 3 ∷ [])) None) (having_seen (pipe 1 1) (pos 1 ∷ [])) → ⊥ }
{}

/// Of the edges there and back between two nodes the second one closes a cycle. The order stays that of the literals before it.
pub fn edges_with_a_cycle()
    ensures before { IsKeptTo (having_seen (round_trip 1 1) (pos 1 ∷ pos 2 ∷ [])) 1 (ordered_by first_alone (0 ∷ 1 ∷ [])) None }
    ensures closed { (c : Closing) → c.at ≡ 1 → c.cycle.items ≡ 0 ∷ 1 ∷ []
        → IsKeptTo (having_seen (round_trip 1 1) (pos 1 ∷ pos 2 ∷ [])) 2 (ordered_by first_alone (0 ∷ 1 ∷ [])) (Some c) }
    ensures closed_later { (c : Closing) → c.at ≡ 1 → c.cycle.items ≡ 0 ∷ 1 ∷ []
        → IsKeptTo (having_seen (round_trip 1 1) (pos 1 ∷ pos 2 ∷ [])) 1 (ordered_by first_alone (0 ∷ 1 ∷ [])) (Some c) → ⊥ }
    ensures no_cycle { (c : Closing) → c.at ≡ 1 → c.cycle.items ≡ 0 ∷ []
        → IsKeptTo (having_seen (round_trip 1 1) (pos 1 ∷ pos 2 ∷ [])) 2 (ordered_by first_alone (0 ∷ 1 ∷ [])) (Some c) → ⊥ }
    ensures too_few_edges { (c : Closing) → c.at ≡ 1 → c.cycle.items ≡ 0 ∷ 1 ∷ []
        → IsKeptTo (having_seen (round_trip 1 1) (pos 1 ∷ pos 2 ∷ [])) 2 (ordered_by neither (0 ∷ 1 ∷ [])) (Some c) → ⊥ }
{}
