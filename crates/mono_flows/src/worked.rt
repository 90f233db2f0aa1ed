//! Worked rows: what the words of this crate's contracts make of small graphs.
//!
//! What a flow and a cut are is pinned by rows of the graph crate.

ghost use Rattle.std.specs.Prelude.{◌≡◌, ◌∷◌, [], ◌+◌, pos, true, false, ℕ, Vec};
ghost use Rattle.std.specs.declared.alloc.Global.{Global};
ghost use Rattle.mono_graph.specs.Worked.{amount, parallel, both};
ghost use Rattle.mono_graph.specs.declared.amount.Amount.{Amount};
ghost use Rattle.mono_flows.specs.Answers.{Passes, IsKnown, IsSmall, IsDistinct, IsExact, is_flow_found};
ghost use Rattle.mono_flows.specs.declared.found.FlowOrCut.TheVariants as found;

use mono_base::limits::MAX_WITNESS_VALUE;

/// A found flow passes where it is a flow of at least the value, and a found cut where it is a cut.
pub fn found_passes()
    ensures flow { (amounts : Vec Amount Global) → amounts.items ≡ amount 0 1 ∷ amount 1 4 ∷ [] → Passes (parallel 1 4) both 0 1 (pos 5) (found.Flow amounts) }
    ensures too_little { (amounts : Vec Amount Global) → amounts.items ≡ amount 0 1 ∷ amount 1 4 ∷ []
        → Passes (parallel 1 4) both 0 1 (pos 6) (found.Flow amounts) → ⊥ }
    ensures cut { (nodes : Vec ℕ Global) → nodes.items ≡ 0 ∷ [] → Passes (parallel 1 4) both 0 1 (pos 6) (found.Cut nodes) }
    ensures no_cut { (nodes : Vec ℕ Global) → nodes.items ≡ 0 ∷ [] → Passes (parallel 1 4) both 0 1 (pos 5) (found.Cut nodes) → ⊥ }
{}

/// What was found names places of edges and nodes of the graph.
pub fn found_is_known()
    ensures last_edge { (amounts : Vec Amount Global) → amounts.items ≡ amount 1 1 ∷ [] → IsKnown (parallel 1 4) (found.Flow amounts) }
    ensures no_edge { (amounts : Vec Amount Global) → amounts.items ≡ amount 2 1 ∷ [] → IsKnown (parallel 1 4) (found.Flow amounts) → ⊥ }
    ensures last_node { (nodes : Vec ℕ Global) → nodes.items ≡ 1 ∷ [] → IsKnown (parallel 1 4) (found.Cut nodes) }
    ensures no_node { (nodes : Vec ℕ Global) → nodes.items ≡ 2 ∷ [] → IsKnown (parallel 1 4) (found.Cut nodes) → ⊥ }
{}

/// Amounts are small where none exceeds what a witness may list.
pub fn found_is_small()
    ensures greatest { (amounts : Vec Amount Global) → amounts.items ≡ amount 0 (MAX_WITNESS_VALUE) ∷ [] → IsSmall (found.Flow amounts) }
    ensures too_great { (amounts : Vec Amount Global) → amounts.items ≡ amount 0 (MAX_WITNESS_VALUE + 1) ∷ [] → IsSmall (found.Flow amounts) → ⊥ }
    ensures cut { (nodes : Vec ℕ Global) → IsSmall (found.Cut nodes) }
{}

/// A found cut lists each node once.
pub fn found_is_distinct()
    ensures cut { (nodes : Vec ℕ Global) → nodes.items ≡ 1 ∷ 0 ∷ [] → IsDistinct (found.Cut nodes) }
    ensures twice { (nodes : Vec ℕ Global) → nodes.items ≡ 0 ∷ 1 ∷ 0 ∷ [] → IsDistinct (found.Cut nodes) → ⊥ }
    ensures flow { (amounts : Vec Amount Global) → IsDistinct (found.Flow amounts) }
{}

/// A found flow has exactly the value that was asked for.
pub fn found_is_exact()
    ensures flow { (amounts : Vec Amount Global) → amounts.items ≡ amount 0 1 ∷ amount 1 4 ∷ [] → IsExact (parallel 1 4) 0 (pos 5) (found.Flow amounts) }
    ensures more { (amounts : Vec Amount Global) → amounts.items ≡ amount 0 1 ∷ amount 1 4 ∷ [] → IsExact (parallel 1 4) 0 (pos 4) (found.Flow amounts) → ⊥ }
    ensures cut { (nodes : Vec ℕ Global) → IsExact (parallel 1 4) 0 (pos 6) (found.Cut nodes) }
{}

/// A found flow is told from a found cut.
pub fn found_is_one_of_two()
    ensures flow { (amounts : Vec Amount Global) → is_flow_found (found.Flow amounts) ≡ true }
    ensures cut { (nodes : Vec ℕ Global) → is_flow_found (found.Cut nodes) ≡ false }
{}
