//! What holds of bounds and of the lemmas of theories, by their definitions.

ghost use Rattle.std.specs.Prelude.{◌≡◌, ◌<◌, ◌++◌, ◌∷◌, [], ℕ, ℤ, Bool, false, List, map, length, IsTrue};
ghost use Rattle.mono_base.specs.Literal.{is_lit, var_of};
ghost use Rattle.mono_base.specs.Partial.{has_var};
ghost use Rattle.mono_graph.specs.Digraph.{Digraph};
ghost use Rattle.mono_problem.specs.declared.atom.Predicate.{Predicate};
ghost use Rattle.mono_problem.specs.Instance.{Instance, graph_at};
ghost use Rattle.mono_problem.specs.Quiet.{under, over};
ghost use Rattle.mono_problem.specs.Read.{atom_numbered};
ghost use Rattle.mono_problem.specs.WellFormed.{IsInstance};
ghost use Rattle.mono_steps.specs.declared.lemma.Lemma.{Lemma};
ghost use Rattle.mono_steps.specs.Witnesses.{justifies};
ghost use Rattle.mono_bounds.specs.Bound.{Bound, IsBoundUnder, assigned, unassigned, edge_vars};
ghost use Rattle.mono_theory.specs.Frames.{AreNumbersOf};
ghost use Rattle.mono_theory.specs.Theories.{IsLemmaOf, IsLemmaFor};

/// The kept bounds are those of the literals assigned and not undone: each literal of a new variable that is assigned joins
/// them, and the last one that is undone leaves them. Over the variables of a graph's edges they are its two bounds.
pub fn bounds_are_those_of_the_list()
    ensures assigned { (b : Bound) (vs : List ℕ) (t : List ℤ) (l : ℤ) → IsTrue (is_lit l) → IsBoundUnder b vs t → IsBoundUnder (assigned b l) vs (t ++ l ∷ []) }
    ensures undone { (b : Bound) (vs : List ℕ) (t : List ℤ) (l : ℤ) → IsTrue (is_lit l) → has_var t (var_of l) ≡ false → IsBoundUnder b vs (t ++ l ∷ [])
        → IsBoundUnder (unassigned b l) vs t }
    ensures under { (b : Bound) (g : Digraph) (t : List ℤ) → IsBoundUnder b (edge_vars g) t → b.under ≡ under g t }
    ensures over { (b : Bound) (g : Digraph) (t : List ℤ) → IsBoundUnder b (edge_vars g) t → b.over ≡ over g t }
{}

/// Where a theory's graph and atoms are those of a problem, each lemma that it finds or explains is justified there.
pub fn lemmas_of_theories_are_justified()
    ensures found { (covers : Predicate → Bool) (p : Instance) (k : ℕ) (ns : List ℕ) (t : List ℤ) (m : Lemma) → IsInstance p → k < length p.graphs
        → AreNumbersOf covers p k ns → IsLemmaFor (graph_at p k) (map (atom_numbered p) ns) t m → IsTrue (justifies p m) }
    ensures explained { (covers : Predicate → Bool) (p : Instance) (k : ℕ) (ns : List ℕ) (t : List ℤ) (n : ℕ) (l : ℤ) (m : Lemma) → IsInstance p
        → k < length p.graphs → AreNumbersOf covers p k ns → IsLemmaOf (graph_at p k) (map (atom_numbered p) ns) t n l m → IsTrue (justifies p m) }
{}
