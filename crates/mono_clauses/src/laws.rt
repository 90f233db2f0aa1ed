//! How a store goes on following a trail that changes: what `Follows` needs, and what it survives.

ghost use Rattle.std.specs.Prelude.{◌≡◌, ◌≢◌, ℕ, ℤ, ◌<◌, ◌≤◌, length};
ghost use Rattle.mono_clauses.specs.Store.{StoreView, no_clauses, Follows, FollowsBelow};
ghost use Rattle.mono_trail.specs.Moves.{joined, lowered, settled};
ghost use Rattle.mono_trail.specs.TrailView.{TrailView, IsSoundTrail};
ghost use Rattle.mono_trail.specs.declared.reason.Reason.{Reason};
ghost use Rattle.mono_trail.specs.declared.reason.Reason.TheVariants.{Decided};

/// A new store follows every trail over its variables.
pub fn a_new_store_follows()
    ensures { (t : TrailView) → Follows (no_clauses t.vars) t }
{}

/// A decision keeps it where the trail has given all its literals.
pub fn deciding_keeps()
    ensures { (s : StoreView) (t : TrailView) (l : ℤ) → IsSoundTrail t → t.given ≡ length t.lits → Follows s t → Follows s (joined t l Decided) }
{}

/// An implied literal keeps it.
pub fn implying_keeps()
    ensures { (s : StoreView) (t : TrailView) (l : ℤ) (why : Reason) → IsSoundTrail t → why ≢ Decided → Follows s t → Follows s (joined t l why) }
{}

/// Going back keeps it.
pub fn going_back_keeps()
    ensures { (s : StoreView) (t : TrailView) (level : ℕ) → IsSoundTrail t → level ≤ t.level → Follows s t → Follows s (lowered level t) }
{}

/// After a false clause was found it holds again once the trail has gone back below the level of that propagation.
pub fn going_below_restores()
    ensures { (s : StoreView) (t : TrailView) (level : ℕ) → IsSoundTrail t → level < t.level → FollowsBelow s t → Follows s (lowered level t) }
{}

/// Settling a late reason keeps both.
pub fn settling_keeps()
    ensures follows { (s : StoreView) (t : TrailView) (v n : ℕ) → Follows s t → Follows s (settled t v n) }
    ensures below { (s : StoreView) (t : TrailView) (v n : ℕ) → FollowsBelow s t → FollowsBelow s (settled t v n) }
{}
