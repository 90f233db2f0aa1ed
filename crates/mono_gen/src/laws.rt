//! Laws of generated inputs.

ghost use Rattle.std.specs.Prelude.{◌≡◌, ◌≤◌, ℕ, None, length};
ghost use Rattle.mono_gnf.specs.Faults.{first_fault};
ghost use Rattle.mono_gen.specs.Board.{edges_of, edge_count};
ghost use Rattle.mono_gen.specs.Generated.{generated};
ghost use Rattle.mono_gen.specs.declared.kind.GenKind.{GenKind as Kind};

/// A board has as many edges as its header announces.
pub fn edges_are_counted()
    ensures { (n : ℕ) → 1 ≤ n → length (edges_of n) ≡ edge_count n }
{}

/// A generated input has no fault, so it stands for a problem.
pub fn no_fault()
    ensures { (k : Kind) (n seed : ℕ) → 2 ≤ n → n ≤ 100 → first_fault (generated k n seed) ≡ None }
{}
