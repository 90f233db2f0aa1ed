//! What holds of trails and of Luby's sequence by their definitions.

ghost use Rattle.std.specs.Prelude.{◌≡◌, ◌≤◌, ◌<◌, ◌↔◌, ℕ, length};
ghost use Rattle.mono_trail.specs.Luby.{Luby};
ghost use Rattle.mono_trail.specs.Places.{level_at};
ghost use Rattle.mono_trail.specs.TrailView.{TrailView, IsSoundTrail, count_to};

/// What a backjump keeps are exactly the literals up to its level.
pub fn literals_up_to_a_level_come_first()
    ensures { (t : TrailView) (level k : ℕ) → IsSoundTrail t → k < length t.lits → (k < count_to level t.marks ↔ level_at t.marks k ≤ level) }
{}

/// Luby's sequence has one term at each place.
pub fn luby_has_one_term_at_each_place()
    ensures { (k v w : ℕ) → Luby k v → Luby k w → v ≡ w }
{}
