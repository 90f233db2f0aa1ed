//! Rows from which it is read whether there are walks as the predicates of a kind ask for them.

ghost use Rattle.std.specs.Prelude.{◌≡◌, ◌+◌, ◌<◌, ◌≤◌, ◌↔◌, false, map, IfOk, IfSome, IsTrue};

use crate::AsksWalk;
use mono_dynamic::{SourceRow, WalkTarget};
use std::alloc::{AllocError, Global};

/// A row that shows a walk to a target exactly where there is one, along edges that came one by one.
pub trait ShowsWalks<K: AsksWalk>: SourceRow {
    ghost use Rattle.std.specs.Prelude.{ℕ, Bool, List};
    ghost use Rattle.mono_graph.specs.Digraph.{Digraph, has, present};
    ghost use Rattle.mono_graph.specs.Walks.{is_path};
    ghost use Rattle.mono_graph.specs.declared.limit.Limit.{Limit};
    ghost use Rattle.mono_dynamic.specs.declared.cost_source.CostSource.{CostSource};
    ghost use Rattle.mono_dynamic.specs.declared.walk_target.WalkTarget.{WalkTarget};
    ghost use Rattle.mono_dynamic.specs.Arrivals.{GrowsAfter};
    ghost use Rattle.mono_dynamic.specs.LeastRows.{IsCostSource};
    ghost use Rattle.mono_dynamic.specs.RowsAlong.{IsMeasured};
    ghost use Rattle.mono_problem.specs.declared.atom.Predicate.{Predicate};
    ghost use Rattle.mono_theory.specs.Asked.{limit_of};

    /// Rows are kept where their number times the nodes of the graph is at most so much.
    const MOST_CELLS: usize;

    /// How many nodes the graph of the row has.
    ghost size: { Self → ℕ };

    /// The row is from this source, and right after each number of steps up to so many, when the part was that of this number.
    ghost along: { Digraph → (ℕ → List Bool) → ℕ → CostSource → Self → Type 0 };

    /// Walks within limits of which a row can show whether there are some.
    ghost can_show: { Limit → Type 0 };

    /// Whether the row shows a walk to the target.
    ghost shows: { Self → WalkTarget → Bool };

    /// Whether the row shows a walk to the target.
    fn shows(&self, target: WalkTarget) -> bool
        requires { target.node < size self.now }
        ensures { result ≡ shows self.now target };

    /// A walk to the target in the part as it was after so many steps, where the row shows that there was one.
    fn walk_within(
        &self,
        alloc: Global,
        target: WalkTarget,
        stamp: u32,
    ) -> Result<Option<Vec<u32>>, AllocError>
        requires { target.node < size self.now }
        ensures { IfOk result (λ found. IfSome found (λ walk. (g : Digraph) (parts : ℕ → List Bool) (n : ℕ) (s : CostSource) → stamp ≤ n
            → IsMeasured s target → can_show target.limit → along g parts n s self.now
            → IsTrue (is_path g (parts stamp) s.node target.node target.limit walk.items))) };

    /// The predicates of the kind have such limits.
    ghost serves: { (q : Predicate) → IsTrue (K.covers q) → can_show (limit_of q) };

    /// A new row is right in a part with no edge.
    ghost starts: { (g : Digraph) (parts : ℕ → List Bool) (s : CostSource) → IsCostSource g.nodes s → ((k : ℕ) → present (parts 0) k ≡ false)
        → along g parts 0 s (Self.at_first g.nodes s) };

    /// A row that is right can grow.
    ghost is_fit: { (g : Digraph) (parts : ℕ → List Bool) (n : ℕ) (s : CostSource) (r : Self) → along g parts n s r
        → Self.fits g.nodes n r × (size r ≡ g.nodes) };

    /// It is right by the parts of these steps alone.
    ghost same: { (g : Digraph) (parts others : ℕ → List Bool) (n : ℕ) (s : CostSource) (r : Self) → ((m : ℕ) → m ≤ n → others m ≡ parts m)
        → along g parts n s r → along g others n s r };

    /// It stays right while the part stays.
    ghost still: { (g : Digraph) (parts : ℕ → List Bool) (n last : ℕ) (s : CostSource) (r : Self) → n ≤ last
        → ((m : ℕ) → n ≤ m → m ≤ last → parts m ≡ parts n) → along g parts n s r → along g parts last s r };

    /// It is right again once it has grown.
    ghost grows: { (g : Digraph) (parts : ℕ → List Bool) (Q : List Bool) (ks : List ℕ) (n : ℕ) (s : CostSource) (old new : Self)
        → Self.grown g Q ks n old new → GrowsAfter parts n (n + 1) Q ks → along g parts n s old → along g parts (n + 1) s new };

    /// And once it has gone back.
    ghost goes_back: { (g : Digraph) (parts : ℕ → List Bool) (n kept : ℕ) (s : CostSource) (old new : Self)
        → Self.undone kept old new → kept ≤ n → along g parts n s old → along g parts kept s new };

    /// It shows a walk exactly where there is one.
    ghost exact: { (g : Digraph) (parts : ℕ → List Bool) (n : ℕ) (s : CostSource) (r : Self) (t : WalkTarget) → IsMeasured s t
        → can_show t.limit → t.node < g.nodes → along g parts n s r
        → IsTrue (shows r t) ↔ ((ks : List ℕ) × IsTrue (is_path g (parts n) s.node t.node t.limit ks)) };

    /// Where it shows something new of a target, it has changed at the target's node.
    ghost newly: { (g : Digraph) (Q : List Bool) (ks : List ℕ) (n : ℕ) (old new : Self) (t : WalkTarget) → Self.fits g.nodes n old
        → Self.grown g Q ks n old new → has (map Self.Change.node (Self.changed_after n new)) t.node ≡ false
        → IsTrue (shows new t) → IsTrue (shows old t) };
}
