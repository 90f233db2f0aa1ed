//! Worked rows: problems that go up to their limits, and what of an input no other row reads.

ghost use Rattle.std.specs.Prelude.{◌≡◌, ◌<◌, ◌≤◌, [], ◌∷◌, ℕ, All, codes, false, length, negsuc, pos, slice_index_or, Err};
ghost use Rattle.mono_base.specs.declared.limits.TheConstants.{MAX_ATOMS, MAX_CLAUSES, MAX_EDGES, MAX_GRAPHS, MAX_LITERALS, MAX_NODES, MAX_VARS};
ghost use Rattle.mono_graph.specs.Worked.{edge_of, lone, single};
ghost use Rattle.mono_problem.specs.declared.atom.Atom.{Atom};
ghost use Rattle.mono_problem.specs.declared.atom.Predicate.TheVariants as kind;
ghost use Rattle.mono_problem.specs.Instance.{Instance, edges_total, literals_total, nodes_total};
ghost use Rattle.mono_problem.specs.WellFormed.{AreNamed, IsAtomAt, IsDeclared, IsInstance, IsLitWithin, IsOver, count_numbered};
ghost use Rattle.mono_gnf.specs.declared.refusal.GnfRefusal.TheVariants as refusal;
ghost use Rattle.mono_gnf.specs.Lines.{literal_count};
ghost use Rattle.mono_gnf.specs.Printed.{is_beyond};
ghost use Rattle.mono_gnf.specs.Stands.{Reads};

/// A problem may have as many variables, graphs, nodes, edges, predicates, clauses and literals as the limits say.
pub fn problems_at_the_limits()
    ensures all { (p : Instance) → p.vars ≡ MAX_VARS → length p.graphs ≡ MAX_GRAPHS → nodes_total p ≡ MAX_NODES → edges_total p ≡ MAX_EDGES
        → length p.atoms ≡ MAX_ATOMS → length p.clauses ≡ MAX_CLAUSES → literals_total p ≡ MAX_LITERALS
        → AreNamed p.graphs → All (IsDeclared p.vars (edges_total p)) p.graphs
        → ((n : ℕ) → 0 < n → n ≤ edges_total p → count_numbered n p.graphs ≡ 1)
        → ((k : ℕ) (d : Atom) → k < length p.atoms → IsAtomAt p k (slice_index_or p.atoms k d))
        → All (All (IsLitWithin p.vars)) p.clauses → IsInstance p }
{}

/// A graph may have the greatest identity, and an edge of it the last variable and the last number.
pub fn graphs_at_the_limits()
    ensures all { IsDeclared 4 3 (4294967295, single (edge_of 3 0 1 4 7)) }
{}

/// A predicate that names no node and no bound is over a graph of one node.
pub fn predicates_without_nodes()
    ensures acyclic { IsOver lone kind.Acyclic }
{}

/// The zeros that end clauses aren't literals.
pub fn literals_that_count()
    ensures two { literal_count (pos 1 ∷ pos 0 ∷ negsuc 1 ∷ pos 0 ∷ []) ≡ 2 }
    ensures none { literal_count (pos 0 ∷ pos 0 ∷ []) ≡ 0 }
{}

/// A flow of less than nothing, which no problem asks for, isn't beyond the greatest bound.
pub fn bounds_beyond_the_greatest()
    ensures below { is_beyond (negsuc 0) ≡ false }
{}

/// Memory may be wanting whatever the text is.
pub fn readers_without_memory()
    ensures problem { Reads (codes "-1 0") (Err refusal.Memory) }
    ensures fault { Reads (codes "1") (Err refusal.Memory) }
{}
