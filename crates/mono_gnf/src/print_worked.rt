//! Worked cases: texts, and the printed forms of the problems that they stand for.

ghost use Rattle.std.specs.Prelude.{[], codes};
ghost use Rattle.mono_gnf.specs.Prints.{Prints};

/// Headers and clauses.
pub fn worked_clauses()
    ensures empty { Prints [] (codes "p gnf 0 0\n") }
    ensures comment { Prints (codes "1 2\nc middle\n-3 0") (codes "p gnf 3 1\n1 2 -3 0\n") }
    ensures repeats { Prints (codes "0 2 02 0 -0") (codes "p gnf 2 3\n0\n2 2 0\n0\n") }
    ensures advice { Prints (codes "p cnf 4 9\n1 0") (codes "p gnf 4 1\n1 0\n") }
    ensures signs { Prints (codes "-2 1 -2 0\n1000000 0") (codes "p gnf 1000000 2\n-2 1 -2 0\n1000000 0\n") }
{}

/// Graphs and edges.
pub fn worked_graphs()
    ensures weights { Prints (codes "digraph int 1000000 1 0\nedge 0 0 999999 1") (codes "p gnf 1 0\ndigraph int 1000000 1 0\nedge 0 0 999999 1 1\n") }
    ensures heavy { Prints (codes "digraph int 2 1 0\nedge 0 0 1 1 18446744073709551615")
        (codes "p gnf 1 0\ndigraph int 2 1 0\nedge 0 0 1 1 18446744073709551615\n") }
    ensures interleaved { Prints (codes "digraph 2 9 7\ndigraph int 3 0 4\nedge 4 0 2 1\nreach 7 0 1 3\nedge 7 0 1 2 0\n-3 0\nedge 4 1 1 4 5")
        (codes "p gnf 4 1\ndigraph int 2 1 7\ndigraph int 3 2 4\nedge 4 0 2 1 1\nedge 7 0 1 2 0\nedge 4 1 1 4 5\nreach 7 0 1 3\n-3 0\n") }
{}

/// Predicates, each in each of its forms.
pub fn worked_predicates()
    ensures one_less { Prints (codes "digraph 1 9 5\ndistance_lt 5 0 0 1 5") (codes "p gnf 1 0\ndigraph int 1 0 5\ndistance_leq 5 0 0 1 4\n") }
    ensures never { Prints (codes "digraph 1 0 0\ndistance_lt 0 0 0 1 0") (codes "p gnf 1 0\ndigraph int 1 0 0\ndistance_lt 0 0 0 1 0\n") }
    ensures one_more { Prints (codes "digraph 2 0 0\nmaximum_flow_gt 0 0 1 2 3") (codes "p gnf 2 0\ndigraph int 2 0 0\nmaximum_flow_geq 0 0 1 2 4\n") }
    ensures beyond { Prints (codes "digraph 2 0 0\nmaximum_flow_gt 0 0 1 2 9007199254740992")
        (codes "p gnf 2 0\ndigraph int 2 0 0\nmaximum_flow_gt 0 0 1 2 9007199254740992\n") }
    ensures largest { Prints (codes "digraph 2 0 0\nmaximum_flow_geq 0 0 1 2 9007199254740992")
        (codes "p gnf 2 0\ndigraph int 2 0 0\nmaximum_flow_geq 0 0 1 2 9007199254740992\n") }
    ensures light { Prints (codes "digraph 2 0 0\nweighted_distance_leq 0 0 1 1 7\nweighted_distance_lt 0 1 0 2 0")
        (codes "p gnf 2 0\ndigraph int 2 0 0\nweighted_distance_leq 0 0 1 1 7\nweighted_distance_lt 0 1 0 2 0\n") }
    ensures trees { Prints (codes "digraph 2 0 3\nmst_weight_lt 3 1 0\nmst_weight_lt 3 2 1\nmst_weight_leq 3 4 0")
        (codes "p gnf 4 0\ndigraph int 2 0 3\nmst_weight_lt 3 1 0\nmst_weight_leq 3 2 0\nmst_weight_leq 3 4 0\n") }
    ensures acyclic { Prints (codes "digraph 1 0 7\nacyclic\t07 3 \n1 0") (codes "p gnf 3 1\ndigraph int 1 0 7\nacyclic 7 3\n1 0\n") }
{}

/// What isn't the printed form of what was read.
pub fn worked_others()
    ensures sign { Prints (codes "-1 0") (codes "p gnf 1 1\n1 0\n") → ⊥ }
    ensures variables { Prints (codes "1 0") (codes "p gnf 2 1\n1 0\n") → ⊥ }
    ensures nothing { Prints (codes "1 0") [] → ⊥ }
    ensures fault { Prints (codes "1") (codes "p gnf 1 0\n") → ⊥ }
{}
