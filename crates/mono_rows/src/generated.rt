//! Worked rows: a whole generated text with walks, a flow and drawn clauses, and words of large seeds.

ghost use Rattle.std.specs.Prelude.{◌≡◌, codes, take};
ghost use Rattle.mono_gen.specs.Draws.{draw, seeded};
ghost use Rattle.mono_gen.specs.Generated.{board_line, cross_line, flow_line, generated, walk_line};
ghost use Rattle.mono_gen.specs.declared.kind.GenKind.TheVariants as kind;

/// A board of two rows: the walk along it, the walk across, a flow of 2, and 13 drawn clauses.
pub fn worked_grid()
    ensures grid { generated kind.Grid 2 1 ≡ codes
        "p gnf 11 16\ndigraph int 4 8 0\nedge 0 0 1 1 8\nedge 0 0 2 2 2\nedge 0 1 3 3 4\nedge 0 1 0 4 7\nedge 0 2 3 5 8\nedge 0 2 0 6 4\nedge 0 3 2 7 9\nedge 0 3 1 8 2\nreach 0 0 3 9\nreach 0 1 2 10\nmaximum_flow_geq 0 0 3 11 2\n9 0\n10 0\n11 0\n4 3 1 0\n3 5 -2 0\n4 -7 -4 0\n5 -3 -6 0\n7 1 -4 0\n1 -4 1 0\n8 2 -4 0\n1 -7 -4 0\n6 -6 -2 0\n4 7 -2 0\n6 5 2 0\n7 1 -4 0\n4 3 6 0\n" }
{}

/// The lines of a board of three rows: what differs between a number, its double and its square.
pub fn worked_lines_of_three()
    ensures counts { take 12 (generated kind.Grid 3 1) ≡ codes "p gnf 27 36\n" }
    ensures board { board_line 3 ≡ codes "digraph int 9 24 0\n" }
    ensures walk { walk_line 3 ≡ codes "reach 0 0 8 25\n" }
    ensures across { cross_line 3 ≡ codes "reach 0 2 6 26\n" }
    ensures flow { flow_line 3 ≡ codes "maximum_flow_geq 0 0 8 27 2\n" }
{}

/// A board of three rows whose second column is walled off.
pub fn worked_wall_of_three()
    ensures wall { generated kind.Wall 3 4 ≡ codes
        "p gnf 25 4\ndigraph int 9 24 0\nedge 0 0 1 1 1\nedge 0 0 3 2 7\nedge 0 1 2 3 1\nedge 0 1 4 4 4\nedge 0 1 0 5 5\nedge 0 2 5 6 7\nedge 0 2 1 7 6\nedge 0 3 4 8 2\nedge 0 3 6 9 6\nedge 0 3 0 10 8\nedge 0 4 5 11 3\nedge 0 4 7 12 6\nedge 0 4 3 13 2\nedge 0 4 1 14 3\nedge 0 5 8 15 3\nedge 0 5 4 16 5\nedge 0 5 2 17 1\nedge 0 6 7 18 5\nedge 0 6 3 19 5\nedge 0 7 8 20 7\nedge 0 7 6 21 3\nedge 0 7 4 22 6\nedge 0 8 7 23 4\nedge 0 8 5 24 3\nreach 0 0 8 25\n25 0\n-3 0\n-11 0\n-20 0\n" }
{}

/// The first word of a seed of more than 32 bits, and of the greatest one.
pub fn words_of_large_seeds()
    ensures beyond_32_bits { draw 4294967296 (seeded 21474836483) ≡ 0x66e935c0 }
    ensures greatest { draw 4294967296 (seeded 18446744073709551615) ≡ 0 }
{}
