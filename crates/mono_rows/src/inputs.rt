//! Worked rows: which nodes each form of an input may name, words that no other row reads, clauses that stay open, and the
//! names of faults.

ghost use Rattle.std.specs.Prelude.{◌≡◌, ◌∷◌, [], ℤ, List, codes, length, Some, None, pos, Err};
ghost use Rattle.mono_base.specs.declared.limits.TheConstants.{MAX_CLAUSES, MAX_LITERALS};
ghost use Rattle.mono_text.specs.declared.field.FieldRefusal.TheVariants as field;
ghost use Rattle.mono_text.specs.Fields.{fields_of};
ghost use Rattle.mono_problem.specs.declared.atom.Predicate.TheVariants as kind;
ghost use Rattle.mono_gnf.specs.declared.fault.GnfFault.TheVariants as fault;
ghost use Rattle.mono_gnf.specs.Faults.{first_fault, number_fault};
ghost use Rattle.mono_gnf.specs.Lines.{clauses_of, literal_count};
ghost use Rattle.mono_gnf.specs.Names.{fault_name};
ghost use Rattle.mono_gnf.specs.Prints.{Prints};
ghost use Rattle.mono_gnf.specs.Stands.{Stands};

/// Both nodes of each form are below the number of nodes.
pub fn nodes_of_each_form()
    ensures edge_to { first_fault (codes "digraph 2 1 0\nedge 0 0 2 1") ≡ Some (2, fault.NodeOutOfRange) }
    ensures edge_from_and_to { first_fault (codes "digraph 2 1 0\nedge 0 1 1 1") ≡ None }
    ensures reach_from { first_fault (codes "digraph 2 0 0\nreach 0 2 0 1") ≡ Some (2, fault.NodeOutOfRange) }
    ensures reach_to { first_fault (codes "digraph 2 0 0\nreach 0 0 2 1") ≡ Some (2, fault.NodeOutOfRange) }
    ensures steps_from { first_fault (codes "digraph 2 0 0\ndistance_leq 0 2 0 1 5") ≡ Some (2, fault.NodeOutOfRange) }
    ensures steps_to { first_fault (codes "digraph 2 0 0\ndistance_lt 0 0 2 1 5") ≡ Some (2, fault.NodeOutOfRange) }
    ensures distance_from { first_fault (codes "digraph 2 0 0\nweighted_distance_leq 0 2 0 1 5") ≡ Some (2, fault.NodeOutOfRange) }
    ensures distance_to { first_fault (codes "digraph 2 0 0\nweighted_distance_lt 0 0 2 1 5") ≡ Some (2, fault.NodeOutOfRange) }
    ensures flow_from { first_fault (codes "digraph 2 0 0\nmaximum_flow_geq 0 2 0 1 5") ≡ Some (2, fault.NodeOutOfRange) }
    ensures flow_to { first_fault (codes "digraph 2 0 0\nmaximum_flow_gt 0 0 2 1 5") ≡ Some (2, fault.NodeOutOfRange) }
    ensures reach_same { first_fault (codes "digraph 2 0 0\nreach 0 2 2 1") ≡ Some (2, fault.NodeOutOfRange) }
    ensures steps_same { first_fault (codes "digraph 2 0 0\ndistance_leq 0 2 2 1 5") ≡ Some (2, fault.NodeOutOfRange) }
    ensures distance_same { first_fault (codes "digraph 2 0 0\nweighted_distance_leq 0 2 2 1 5") ≡ Some (2, fault.NodeOutOfRange) }
    ensures flow_same { first_fault (codes "digraph 2 0 0\nmaximum_flow_geq 0 2 2 1 5") ≡ Some (2, fault.NodeOutOfRange) }
    ensures last_nodes { first_fault (codes "digraph 2 0 0\nreach 0 1 1 1\ndistance_leq 0 1 1 2 5\nweighted_distance_leq 0 1 1 3 5") ≡ None }
    ensures last_nodes_of_flows { first_fault (codes "digraph 2 0 0\nmaximum_flow_geq 0 1 0 1 5\nmaximum_flow_geq 0 0 1 1 5") ≡ None }
{}

/// A bound goes up to 2^53 in each form.
pub fn bounds_of_each_form()
    ensures steps { first_fault (codes "distance_leq 0 0 1 1 9007199254740993") ≡ Some (1, fault.TooLarge) }
    ensures fewer_steps { first_fault (codes "distance_lt 0 0 1 1 9007199254740993") ≡ Some (1, fault.TooLarge) }
    ensures distance { first_fault (codes "weighted_distance_leq 0 0 1 1 9007199254740993") ≡ Some (1, fault.TooLarge) }
    ensures smaller_distance { first_fault (codes "weighted_distance_lt 0 0 1 1 9007199254740993") ≡ Some (1, fault.TooLarge) }
    ensures flow { first_fault (codes "maximum_flow_geq 0 0 1 1 9007199254740993") ≡ Some (1, fault.TooLarge) }
    ensures greater_flow { first_fault (codes "maximum_flow_gt 0 0 1 1 9007199254740993") ≡ Some (1, fault.TooLarge) }
    ensures lighter_tree { first_fault (codes "mst_weight_lt 0 1 9007199254740993") ≡ Some (1, fault.TooLarge) }
    ensures greatest { first_fault (codes "digraph 2 0 0\ndistance_lt 0 0 1 1 9007199254740992\nweighted_distance_leq 0 0 1 1 9007199254740992\nmst_weight_leq 0 1 9007199254740992")
        ≡ None }
{}

/// A clause that is open at the end stands behind others, or begins in the line where another ends.
pub fn clauses_left_open()
    ensures behind_another { first_fault (codes "1 0 2") ≡ Some (1, fault.UnfinishedClause) }
    ensures behind_an_empty_one { first_fault (codes "0 2") ≡ Some (1, fault.UnfinishedClause) }
    ensures behind_three { first_fault (codes "0\n1 0 0\n-3\n") ≡ Some (3, fault.UnfinishedClause) }
    ensures word_within { first_fault (codes "1 0 2\nreach") ≡ Some (2, fault.OpenClause) }
    ensures none { first_fault (codes "1 0 2 0") ≡ None }
{}

/// A number beyond the limits is the fault of its line, whatever stands behind it. What is no number of the format is told first.
pub fn numbers_beyond_the_limits()
    ensures clause { (zs : List ℤ) → length (clauses_of zs) ≡ MAX_CLAUSES → number_fault zs (codes "0" ∷ codes "x" ∷ []) ≡ Some fault.TooMany }
    ensures literal { (zs : List ℤ) → literal_count zs ≡ MAX_LITERALS → number_fault zs (codes "-1" ∷ codes "x" ∷ []) ≡ Some fault.TooMany }
    ensures too_large { (zs : List ℤ) → literal_count zs ≡ MAX_LITERALS → number_fault zs (codes "1000001" ∷ []) ≡ Some fault.TooLarge }
    ensures no_number { (zs : List ℤ) → literal_count zs ≡ MAX_LITERALS → number_fault zs (codes "x" ∷ []) ≡ Some fault.NotNumber }
{}

/// Bounds of weighted walks, as they are and one less.
pub fn weighted_distances()
    ensures within { Stands (codes "digraph 2 0 0\nweighted_distance_leq 0 0 1 1 7\nweighted_distance_lt 0 0 1 2 7") (record {
      vars = 2;
      graphs = (0, record { nodes = 2; edges = [] }) ∷ [];
      atoms = record { number = 1; graph = 0; var = 1; predicate = kind.Distance 0 1 (pos 7) }
          ∷ record { number = 2; graph = 0; var = 2; predicate = kind.Distance 0 1 (pos 6) } ∷ [];
      clauses = [];
    }) }
{}

/// Predicates without a cycle: two fields, and one form alone.
pub fn predicates_without_cycles()
    ensures word { first_fault (codes "digraph 1 0 0\nacyclic_leq 0 1") ≡ Some (2, fault.UnknownWord) }
    ensures no_number { first_fault (codes "digraph 1 0 0\nacyclic x 1") ≡ Some (2, fault.NotNumber) }
    ensures identity_large { first_fault (codes "acyclic 4294967296 1") ≡ Some (1, fault.TooLarge) }
    ensures within_a_clause { first_fault (codes "digraph 1 0 0\n1\nacyclic 0 1") ≡ Some (3, fault.OpenClause) }
    ensures greatest { first_fault (codes "digraph 1 0 4294967295\nacyclic 4294967295 1000000") ≡ None }
    ensures twice { Prints (codes "digraph 2 1 0\nacyclic 0 1\nedge 0 0 1 1\nacyclic 0 1")
        (codes "p gnf 1 0\ndigraph int 2 1 0\nedge 0 0 1 1 1\nacyclic 0 1\nacyclic 0 1\n") }
{}

/// The name of each fault.
pub fn names_of_faults()
    ensures unknown_word { fault_name fault.UnknownWord ≡ codes "UnknownWord" }
    ensures not_number { fault_name fault.NotNumber ≡ codes "NotNumber" }
    ensures too_large { fault_name fault.TooLarge ≡ codes "TooLarge" }
    ensures field_count { fault_name fault.FieldCount ≡ codes "FieldCount" }
    ensures unknown_graph { fault_name fault.UnknownGraph ≡ codes "UnknownGraph" }
    ensures duplicate_graph { fault_name fault.DuplicateGraph ≡ codes "DuplicateGraph" }
    ensures node_out_of_range { fault_name fault.NodeOutOfRange ≡ codes "NodeOutOfRange" }
    ensures bad_variable { fault_name fault.BadVariable ≡ codes "BadVariable" }
    ensures weight_word { fault_name fault.WeightWord ≡ codes "WeightWord" }
    ensures second_header { fault_name fault.SecondHeader ≡ codes "SecondHeader" }
    ensures open_clause { fault_name fault.OpenClause ≡ codes "OpenClause" }
    ensures unfinished_clause { fault_name fault.UnfinishedClause ≡ codes "UnfinishedClause" }
    ensures same_ends { fault_name fault.SameEnds ≡ codes "SameEnds" }
    ensures too_many { fault_name fault.TooMany ≡ codes "TooMany" }
{}

/// A field that is refused is named by its place, also behind two others.
pub fn places_of_fields()
    ensures third_too_large { fields_of (5 ∷ 9 ∷ 7 ∷ []) (codes "5" ∷ codes "9" ∷ codes "8" ∷ []) ≡ Err (field.TooLarge 2) }
    ensures third_no_number { fields_of (5 ∷ 9 ∷ 7 ∷ []) (codes "5" ∷ codes "9" ∷ codes "-" ∷ []) ≡ Err (field.NotNumber 2) }
{}
