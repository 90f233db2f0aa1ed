//! Worked rows: the kinds of predicates, and which of four atoms share a theory. The first two are on walks within a weight and a
//! number of edges, and the third on any walk, all over the first graph; the fourth is on any walk in the second.

ghost use Rattle.std.specs.Prelude.{◌≡◌, [], ◌∷◌, map, pos};
ghost use Rattle.mono_problem.specs.declared.atom.Predicate.TheVariants as kind;
ghost use Rattle.mono_kinds.specs.Sharing.{AreByGraphAndKind, kind_index};
ghost use Rattle.mono_kinds.specs.Worked.{four_atoms, owners};

/// Bounds on weights and on numbers of edges are one kind, and each other kind of predicates is one of its own.
pub fn kinds_of_predicates()
    ensures { map kind_index (kind.Reach 0 1 ∷ kind.Steps 0 1 (pos 3) ∷ kind.Distance 0 1 (pos 7) ∷ kind.Flow 0 1 (pos 2) ∷ kind.Tree (pos 5) ∷ kind.Acyclic ∷ [])
        ≡ 0 ∷ 1 ∷ 1 ∷ 2 ∷ 3 ∷ 4 ∷ [] }
{}

/// Atoms over one graph and of one kind share a theory, and no others do.
pub fn theories_by_graph_and_kind()
    ensures shared { AreByGraphAndKind four_atoms (owners ((1 ∷ 2 ∷ []) ∷ (3 ∷ []) ∷ (4 ∷ []) ∷ [])) }
    ensures in_another_order { AreByGraphAndKind four_atoms (owners ((4 ∷ []) ∷ (2 ∷ 1 ∷ []) ∷ (3 ∷ []) ∷ [])) }
    ensures one_for_each_atom { AreByGraphAndKind four_atoms (owners ((1 ∷ []) ∷ (2 ∷ []) ∷ (3 ∷ []) ∷ (4 ∷ []) ∷ [])) → ⊥ }
    ensures one_for_each_graph { AreByGraphAndKind four_atoms (owners ((1 ∷ 2 ∷ 3 ∷ []) ∷ (4 ∷ []) ∷ [])) → ⊥ }
    ensures one_for_each_kind { AreByGraphAndKind four_atoms (owners ((1 ∷ 2 ∷ []) ∷ (3 ∷ 4 ∷ []) ∷ [])) → ⊥ }
    ensures one_for_all { AreByGraphAndKind four_atoms (owners ((1 ∷ 2 ∷ 3 ∷ 4 ∷ []) ∷ [])) → ⊥ }
    ensures one_without_atoms { AreByGraphAndKind four_atoms (owners ((1 ∷ 2 ∷ []) ∷ [] ∷ (3 ∷ []) ∷ (4 ∷ []) ∷ [])) → ⊥ }
{}
