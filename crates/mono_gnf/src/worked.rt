//! Worked cases: texts with their first faults, and what texts stand for.

ghost use Rattle.std.specs.Prelude.{◌≡◌, ◌+◌, ◌∷◌, ◌++◌, [], ℕ, ℤ, List, codes, length, sum_by, Some, None, Ok, Err, pos, negsuc};
ghost use Rattle.mono_base.specs.declared.limits.TheConstants.{MAX_GRAPHS, MAX_EDGES, MAX_ATOMS, MAX_CLAUSES, MAX_LITERALS};
ghost use Rattle.mono_problem.specs.Instance.{Instance};
ghost use Rattle.mono_problem.specs.declared.atom.Predicate.TheVariants as kind;
ghost use Rattle.mono_gnf.specs.declared.fault.GnfFault.{GnfFault};
ghost use Rattle.mono_gnf.specs.declared.fault.GnfFault.TheVariants as fault;
ghost use Rattle.mono_gnf.specs.declared.refusal.GnfRefusal.TheVariants as refusal;
ghost use Rattle.mono_gnf.specs.declared.statement.Statement.{Statement};
ghost use Rattle.mono_gnf.specs.declared.statement.Statement.TheVariants as says;
ghost use Rattle.mono_gnf.specs.Lines.{clauses_of, literal_count};
ghost use Rattle.mono_gnf.specs.Declarations.{graphs, edges, atoms, nodes_named};
ghost use Rattle.mono_gnf.specs.Faults.{first_fault, number_fault, statement_fault};
ghost use Rattle.mono_gnf.specs.Stands.{Stands, Reads};

/// Each fault, but for counts that take thousands of lines.
#[tactic(auto, unfolding(crate::specs::Statements::statement_of))]
pub fn worked_faults()
    ensures word { first_fault (codes "bv 1 2") ≡ Some (1, fault.UnknownWord) }
    ensures sat { first_fault (codes "p sat 3 1") ≡ Some (1, fault.UnknownWord) }
    ensures percent { first_fault (codes "1 0\n%") ≡ Some (2, fault.UnknownWord) }
    ensures glued { first_fault (codes "cfoo") ≡ Some (1, fault.UnknownWord) }
    ensures plus { first_fault (codes "+1 0") ≡ Some (1, fault.UnknownWord) }
    ensures literal { first_fault (codes "1 x 0") ≡ Some (1, fault.NotNumber) }
    ensures field { first_fault (codes "edge 7 9 x 0") ≡ Some (1, fault.NotNumber) }
    ensures minus { first_fault (codes "-") ≡ Some (1, fault.NotNumber) }
    ensures minuses { first_fault (codes "--1 0") ≡ Some (1, fault.NotNumber) }
    ensures digit { first_fault (codes "1x 0") ≡ Some (1, fault.NotNumber) }
    ensures no_weight_word { first_fault (codes "digraph int 2 1") ≡ Some (1, fault.NotNumber) }
    ensures large { first_fault (codes "1000001 0") ≡ Some (1, fault.TooLarge) }
    ensures variable_large { first_fault (codes "edge 0 0 0 1000001") ≡ Some (1, fault.TooLarge) }
    ensures weight_large { first_fault (codes "digraph 1 0 0\nedge 0 0 0 1 18446744073709551616") ≡ Some (2, fault.TooLarge) }
    ensures bound_large { first_fault (codes "mst_weight_leq 0 1 9007199254740993") ≡ Some (1, fault.TooLarge) }
    ensures count { first_fault (codes "p cnf 3") ≡ Some (1, fault.FieldCount) }
    ensures alone { first_fault (codes "p") ≡ Some (1, fault.FieldCount) }
    ensures acyclic_count { first_fault (codes "digraph 1 0 0\nacyclic 0") ≡ Some (2, fault.FieldCount) }
    ensures acyclic_name { first_fault (codes "digraph 1 0 0\nacyclic 0 1 name") ≡ Some (2, fault.FieldCount) }
    ensures acyclic_large { first_fault (codes "acyclic 0 1000001") ≡ Some (1, fault.TooLarge) }
    ensures acyclic_graph { first_fault (codes "acyclic 0 1") ≡ Some (1, fault.UnknownGraph) }
    ensures acyclic_variable { first_fault (codes "digraph 1 0 0\nacyclic 0 0") ≡ Some (2, fault.BadVariable) }
    ensures more { first_fault (codes "p cnf 1 2 3") ≡ Some (1, fault.FieldCount) }
    ensures name { first_fault (codes "digraph int 2 1 0 name") ≡ Some (1, fault.FieldCount) }
    ensures unknown { first_fault (codes "edge 0 0 1 1") ≡ Some (1, fault.UnknownGraph) }
    ensures duplicate { first_fault (codes "digraph int 2 0 0\ndigraph 3 0 0") ≡ Some (2, fault.DuplicateGraph) }
    ensures no_nodes { first_fault (codes "digraph int 0 0 0") ≡ Some (1, fault.NodeOutOfRange) }
    ensures range { first_fault (codes "digraph int 2 1 0\nedge 0 2 0 1") ≡ Some (2, fault.NodeOutOfRange) }
    ensures variable { first_fault (codes "digraph int 2 1 0\nedge 0 0 1 0") ≡ Some (2, fault.BadVariable) }
    ensures weight { first_fault (codes "digraph float 2 1 0") ≡ Some (1, fault.WeightWord) }
    ensures named { first_fault (codes "digraph 2 1 0 name") ≡ Some (1, fault.WeightWord) }
    ensures header { first_fault (codes "p cnf 1 0\np gnf 1 0") ≡ Some (2, fault.SecondHeader) }
    ensures within { first_fault (codes "1 2\np cnf 2 1") ≡ Some (2, fault.OpenClause) }
    ensures unfinished { first_fault (codes "1 2\nc end") ≡ Some (1, fault.UnfinishedClause) }
    ensures ends { first_fault (codes "digraph int 2 0 0\nmaximum_flow_geq 0 1 1 5 2") ≡ Some (2, fault.SameEnds) }
    ensures nodes { first_fault (codes "digraph 1000000 0 0\ndigraph 1 0 1") ≡ Some (2, fault.TooMany) }
{}

/// The first of several faults: by lines, and in a line by the order of checks.
#[tactic(auto, unfolding(crate::specs::Statements::statement_of))]
pub fn worked_order()
    ensures lines { first_fault (codes "digraph int 2 1 0\nedge 0 0 1 1\n1 0\nreach 0 0 2 3\nbogus") ≡ Some (4, fault.NodeOutOfRange) }
    ensures clause_first { first_fault (codes "1\nbogus") ≡ Some (2, fault.OpenClause) }
    ensures form_before_count { first_fault (codes "p sat") ≡ Some (1, fault.UnknownWord) }
    ensures count_before_fields { first_fault (codes "edge x") ≡ Some (1, fault.FieldCount) }
    ensures weight_before_fields { first_fault (codes "digraph float x 1 0") ≡ Some (1, fault.WeightWord) }
    ensures left_field { first_fault (codes "edge 0 4294967296 x 1") ≡ Some (1, fault.TooLarge) }
    ensures fields_before_graph { first_fault (codes "edge 7 9 1 1 x") ≡ Some (1, fault.NotNumber) }
    ensures identity_before_nodes { first_fault (codes "digraph 1 0 0\ndigraph 0 0 0") ≡ Some (2, fault.DuplicateGraph) }
    ensures graph_before_nodes { first_fault (codes "digraph 1 0 0\nreach 1 5 0 0") ≡ Some (2, fault.UnknownGraph) }
    ensures nodes_before_variable { first_fault (codes "digraph int 2 1 0\nedge 0 5 0 0") ≡ Some (2, fault.NodeOutOfRange) }
    ensures variable_before_ends { first_fault (codes "digraph 2 0 0\nmaximum_flow_gt 0 1 1 0 2") ≡ Some (2, fault.BadVariable) }
    ensures left_literal { first_fault (codes "1 1000001 x") ≡ Some (1, fault.TooLarge) }
    ensures last_literal { first_fault (codes "1 0 2\n0 3\n-4\nc\n\t\n") ≡ Some (3, fault.UnfinishedClause) }
{}

/// How many graphs, edges and predicates there may be. Graph 7 is new, graph 5 has 2 nodes.
pub fn worked_counts()
    ensures graphs { (before : List Statement) → length (graphs before) ≡ MAX_GRAPHS → nodes_named (graphs before) 7 ≡ None
        → statement_fault before (says.Graph 7 1) ≡ Some fault.TooMany }
    ensures last_graph { (before : List Statement) → length (graphs before) + 1 ≡ MAX_GRAPHS → sum_by (λ g. g.1) (graphs before) ≡ 5000
        → nodes_named (graphs before) 7 ≡ None → statement_fault before (says.Graph 7 1) ≡ None }
    ensures edges { (before : List Statement) → length (edges before) ≡ MAX_EDGES → nodes_named (graphs before) 5 ≡ Some 2
        → statement_fault before (says.Edge 5 0 1 1 0) ≡ Some fault.TooMany }
    ensures last_edge { (before : List Statement) → length (edges before) + 1 ≡ MAX_EDGES → nodes_named (graphs before) 5 ≡ Some 2
        → statement_fault before (says.Edge 5 0 1 1 0) ≡ None }
    ensures predicates { (before : List Statement) → length (atoms before) ≡ MAX_ATOMS → nodes_named (graphs before) 5 ≡ Some 2
        → statement_fault before (says.Atom 5 1 kind.Acyclic) ≡ Some fault.TooMany }
    ensures last_predicate { (before : List Statement) → length (atoms before) + 1 ≡ MAX_ATOMS → nodes_named (graphs before) 5 ≡ Some 2
        → statement_fault before (says.Atom 5 1 kind.Acyclic) ≡ None }
{}

/// Every other fault of a line comes before the counts. Graph 7 is new, graph 5 has 2 nodes.
pub fn worked_counts_come_last()
    ensures no_nodes { (before : List Statement) → length (graphs before) ≡ MAX_GRAPHS → nodes_named (graphs before) 7 ≡ None
        → statement_fault before (says.Graph 7 0) ≡ Some fault.NodeOutOfRange }
    ensures identity { (before : List Statement) → length (graphs before) ≡ MAX_GRAPHS → nodes_named (graphs before) 5 ≡ Some 2
        → statement_fault before (says.Graph 5 1) ≡ Some fault.DuplicateGraph }
    ensures edges_graph { (before : List Statement) → length (edges before) ≡ MAX_EDGES → nodes_named (graphs before) 7 ≡ None
        → statement_fault before (says.Edge 7 0 1 1 0) ≡ Some fault.UnknownGraph }
    ensures edges_node { (before : List Statement) → length (edges before) ≡ MAX_EDGES → nodes_named (graphs before) 5 ≡ Some 2
        → statement_fault before (says.Edge 5 0 2 1 0) ≡ Some fault.NodeOutOfRange }
    ensures edges_variable { (before : List Statement) → length (edges before) ≡ MAX_EDGES → nodes_named (graphs before) 5 ≡ Some 2
        → statement_fault before (says.Edge 5 0 1 0 0) ≡ Some fault.BadVariable }
    ensures predicates_graph { (before : List Statement) → length (atoms before) ≡ MAX_ATOMS → nodes_named (graphs before) 7 ≡ None
        → statement_fault before (says.Atom 7 1 kind.Acyclic) ≡ Some fault.UnknownGraph }
    ensures predicates_ends { (before : List Statement) → length (atoms before) ≡ MAX_ATOMS → nodes_named (graphs before) 5 ≡ Some 2
        → statement_fault before (says.Atom 5 1 (kind.Flow 0 0 (pos 1))) ≡ Some fault.SameEnds }
{}

/// How many clauses and literals there may be, those of the line itself among them.
pub fn worked_number_counts()
    ensures clauses { (zs : List ℤ) → length (clauses_of zs) ≡ MAX_CLAUSES → number_fault zs (codes "0" ∷ []) ≡ Some fault.TooMany }
    ensures last_clause { (zs : List ℤ) → length (clauses_of zs) + 1 ≡ MAX_CLAUSES → number_fault zs (codes "0" ∷ []) ≡ None }
    ensures clause_of_the_line { (zs : List ℤ) → length (clauses_of zs) + 1 ≡ MAX_CLAUSES → number_fault zs (codes "0" ∷ codes "0" ∷ []) ≡ Some fault.TooMany }
    ensures clauses_alone { (zs : List ℤ) → length (clauses_of zs) ≡ MAX_CLAUSES → literal_count zs ≡ 0 → number_fault zs (codes "-1" ∷ []) ≡ None }
    ensures literals { (zs : List ℤ) → literal_count zs ≡ MAX_LITERALS → number_fault zs (codes "-1" ∷ []) ≡ Some fault.TooMany }
    ensures last_literal { (zs : List ℤ) → literal_count zs + 1 ≡ MAX_LITERALS → number_fault zs (codes "-1" ∷ []) ≡ None }
    ensures literal_of_the_line { (zs : List ℤ) → literal_count zs + 1 ≡ MAX_LITERALS → number_fault zs (codes "1" ∷ codes "1" ∷ []) ≡ Some fault.TooMany }
    ensures literals_alone { (zs : List ℤ) → literal_count zs ≡ MAX_LITERALS → length (clauses_of zs) ≡ 0 → number_fault zs (codes "0" ∷ []) ≡ None }
{}

/// Texts without a fault.
#[tactic(auto, unfolding(crate::specs::Statements::statement_of))]
pub fn worked_problems()
    ensures empty { Stands [] (record { vars = 0; graphs = []; atoms = []; clauses = [] }) }
    ensures blank { Stands (codes "\n \t\r\nc 1 x\n") (record { vars = 0; graphs = []; atoms = []; clauses = [] }) }
    ensures clauses { Stands (codes "p cnf 4 9\n1 -2 0 0\n02\nc x\n2 -0\n") (record {
      vars = 4;
      graphs = [];
      atoms = [];
      clauses = (pos 1 ∷ negsuc 1 ∷ []) ∷ [] ∷ (pos 2 ∷ pos 2 ∷ []) ∷ [];
    }) }
    ensures late_edge { Stands (codes "digraph int 3 9 7\nreach 7 0 2 5\nedge 7 0 2 1\ndigraph 1 0 3\nedge 3 0 0 6 0\nedge 7 2 1 1 9")
        (record {
          vars = 6;
          graphs = (
            7,
            record {
              nodes = 3;
              edges = record { number = 1; from = 0; to = 2; var = 1; weight = 1 }
                  ∷ record { number = 3; from = 2; to = 1; var = 1; weight = 9 } ∷ [];
            },
          )
              ∷ (3, record { nodes = 1; edges = record { number = 2; from = 0; to = 0; var = 6; weight = 0 } ∷ [] }) ∷ [];
          atoms = record { number = 1; graph = 0; var = 5; predicate = kind.Reach 0 2 } ∷ [];
          clauses = [];
        }) }
    ensures bounds { Stands (codes "digraph 2 0 0\ndistance_leq 0 0 1 1 3\ndistance_lt 0 0 1 2 0\nweighted_distance_lt 0 1 0 3 4\n"
        ++ codes "maximum_flow_geq 0 0 1 4 5\nmaximum_flow_gt 0 1 0 5 9007199254740992\nmst_weight_leq 0 6 7\nmst_weight_lt 0 7 7")
        (record {
          vars = 7;
          graphs = (0, record { nodes = 2; edges = [] }) ∷ [];
          atoms = record { number = 1; graph = 0; var = 1; predicate = kind.Steps 0 1 (pos 3) }
              ∷ record { number = 2; graph = 0; var = 2; predicate = kind.Steps 0 1 (negsuc 0) }
              ∷ record { number = 3; graph = 0; var = 3; predicate = kind.Distance 1 0 (pos 3) }
              ∷ record { number = 4; graph = 0; var = 4; predicate = kind.Flow 0 1 (pos 5) }
              ∷ record { number = 5; graph = 0; var = 5; predicate = kind.Flow 1 0 (pos 9007199254740993) }
              ∷ record { number = 6; graph = 0; var = 6; predicate = kind.Tree (pos 7) }
              ∷ record { number = 7; graph = 0; var = 7; predicate = kind.Tree (pos 6) } ∷ [];
          clauses = [];
        }) }
    ensures acyclic { Stands (codes "digraph 1 0 5\ndigraph 2 0 3\nacyclic 3 4\nacyclic 5 2") (record {
      vars = 4;
      graphs = (5, record { nodes = 1; edges = [] }) ∷ (3, record { nodes = 2; edges = [] }) ∷ [];
      atoms = record { number = 1; graph = 1; var = 4; predicate = kind.Acyclic }
          ∷ record { number = 2; graph = 0; var = 2; predicate = kind.Acyclic } ∷ [];
      clauses = [];
    }) }
    ensures limits { Stands (codes "p gnf 1000000 4294967295\ndigraph 1000000 4294967295 4294967295\n"
        ++ codes "edge 4294967295 999999 0 1000000 18446744073709551615\n-1000000 0")
        (record {
          vars = 1000000;
          graphs = (
            4294967295,
            record {
              nodes = 1000000;
              edges = record { number = 1; from = 999999; to = 0; var = 1000000; weight = 18446744073709551615 } ∷ [];
            },
          ) ∷ [];
          atoms = [];
          clauses = (negsuc 999999 ∷ []) ∷ [];
        }) }
{}

/// What a reader may answer, and what it may not.
#[tactic(auto, unfolding(crate::specs::Statements::statement_of))]
pub fn worked_answers()
    ensures problem { Reads (codes "-1 0") (Ok (record { vars = 1; graphs = []; atoms = []; clauses = (negsuc 0 ∷ []) ∷ [] })) }
    ensures fault { Reads (codes "1") (Err (refusal.At 1 fault.UnfinishedClause)) }
    ensures other_fault { Reads (codes "1") (Err (refusal.At 1 fault.OpenClause)) → ⊥ }
    ensures other_line { Reads (codes "1") (Err (refusal.At 2 fault.UnfinishedClause)) → ⊥ }
    ensures no_problem { (p : Instance) → Reads (codes "1") (Ok p) → ⊥ }
    ensures no_fault { (line : ℕ) (f : GnfFault) → Reads (codes "-1 0") (Err (refusal.At line f)) → ⊥ }
    ensures other_problem { Stands (codes "-1 0") (record { vars = 1; graphs = []; atoms = []; clauses = (pos 1 ∷ []) ∷ [] }) → ⊥ }
    ensures other_vars { Stands (codes "-1 0") (record { vars = 2; graphs = []; atoms = []; clauses = (negsuc 0 ∷ []) ∷ [] }) → ⊥ }
{}
