//! Texts and counts that were worked by hand.

ghost use Rattle.std.specs.Prelude.{◌≡◌, ◌∷◌, ◌++◌, [], codes, length};
ghost use Rattle.mono_gen.specs.Board.{edges_of, edge_count};
ghost use Rattle.mono_gen.specs.Draws.{seeded, draw, after};
ghost use Rattle.mono_gen.specs.Generated.{generated};
ghost use Rattle.mono_gen.specs.declared.kind.GenKind.TheVariants as kind;

/// The edges of small boards.
pub fn worked_edges()
    ensures two { edges_of 2 ≡ (0, 1) ∷ (0, 2) ∷ (1, 3) ∷ (1, 0) ∷ (2, 3) ∷ (2, 0) ∷ (3, 2) ∷ (3, 1) ∷ [] }
    ensures two_count { edge_count 2 ≡ 8 }
    ensures three_count { length (edges_of 3) ≡ edge_count 3 }
    ensures ten { edge_count 10 ≡ 360 }
    ensures hundred { edge_count 100 ≡ 39600 }
{}

/// The first words of a seed.
pub fn worked_draws()
    ensures first { draw 4294967296 (seeded 0) ≡ 0xe4c14788 }
    ensures second { draw 4294967296 (after 1 (seeded 0)) ≡ 0x379c6516 }
{}

/// A whole text.
pub fn worked_wall()
    ensures wall { generated kind.Wall 2 7 ≡ codes
        "p gnf 9 3\ndigraph int 4 8 0\nedge 0 0 1 1 1\nedge 0 0 2 2 2\nedge 0 1 3 3 9\nedge 0 1 0 4 3\n"
        ++ codes "edge 0 2 3 5 5\nedge 0 2 0 6 2\nedge 0 3 2 7 6\nedge 0 3 1 8 3\nreach 0 0 3 9\n9 0\n-1 0\n-5 0\n" }
{}
