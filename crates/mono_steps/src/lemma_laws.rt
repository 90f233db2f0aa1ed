//! What lemmas show.

ghost use Rattle.std.specs.Prelude.{◌≡◌, ℕ, Bool, false, List, length, IsTrue, Some};
ghost use Rattle.mono_base.specs.Literal.{clause_true};
ghost use Rattle.mono_graph.specs.Digraph.{Digraph, IsGraph, IsSubpart};
ghost use Rattle.mono_problem.specs.declared.atom.Atom.{Atom};
ghost use Rattle.mono_problem.specs.declared.atom.Predicate.{Predicate};
ghost use Rattle.mono_problem.specs.Instance.{Instance, graph_at, numbered};
ghost use Rattle.mono_problem.specs.WellFormed.{IsInstance, IsOver};
ghost use Rattle.mono_problem.specs.Holds.{Holds, Agrees};
ghost use Rattle.mono_steps.specs.declared.lemma.Lemma.{Lemma};
ghost use Rattle.mono_steps.specs.declared.lemma.Witness.{Witness};
ghost use Rattle.mono_steps.specs.ChainSteps.{names_vars};
ghost use Rattle.mono_steps.specs.Witnesses.{is_positive, rests_on_present, serves, passes, easiest_part, is_shown, justifies};

/// A `Path`, `Flow`, `Tree` or `Order` that passes over a part shows that the predicate holds there. A witness of another word
/// that passes shows that it fails there.
pub fn passing_witnesses_decide()
    ensures holds { (g : Digraph) (P : List Bool) (q : Predicate) (w : Witness) → IsTrue (is_positive w) → IsTrue (passes g P q w) → Holds g P q }
    ensures fails { (g : Digraph) (P : List Bool) (q : Predicate) (w : Witness) → IsGraph g → IsOver g q → length P ≡ length g.edges
        → is_positive w ≡ false → IsTrue (passes g P q w) → ¬ Holds g P q }
{}

/// What a `Path`, `Flow`, `Tree` or `Cycle` passes over, it passes over each larger part of. A witness of another word passes over
/// each smaller part. So over two parts with the same edges a witness passes or fails alike.
pub fn witnesses_are_monotonic()
    ensures larger { (g : Digraph) (P Q : List Bool) (q : Predicate) (w : Witness) → IsSubpart P Q → IsTrue (rests_on_present w)
        → IsTrue (passes g P q w) → IsTrue (passes g Q q w) }
    ensures smaller { (g : Digraph) (P Q : List Bool) (q : Predicate) (w : Witness) → IsSubpart P Q → rests_on_present w ≡ false
        → IsTrue (passes g Q q w) → IsTrue (passes g P q w) }
    ensures same { (g : Digraph) (P Q : List Bool) (q : Predicate) (w : Witness) → IsSubpart P Q → IsSubpart Q P → passes g P q w ≡ passes g Q q w }
{}

/// A witness passes only where its word serves the predicate.
pub fn passing_witnesses_serve()
    ensures { (g : Digraph) (P : List Bool) (q : Predicate) (w : Witness) → IsTrue (passes g P q w) → IsTrue (serves w q) }
{}

/// A witness that fails over the easiest part for its word passes over no part.
pub fn easiest_part_decides_failure()
    ensures { (g : Digraph) (P : List Bool) (q : Predicate) (w : Witness) → length P ≡ length g.edges → passes g (easiest_part g w) q w ≡ false
        → passes g P q w ≡ false }
{}

/// A lemma that a graph and a predicate alone show is justified in each problem that has the predicate, over that graph,
/// and the variables of the lemma's clause.
pub fn shown_lemmas_are_justified()
    ensures { (p : Instance) (x : Atom) (l : Lemma) → numbered p.atoms l.atom ≡ Some x → IsTrue (names_vars p l.clause)
        → IsTrue (is_shown (graph_at p x.graph) x l) → IsTrue (justifies p l) }
{}

/// The clause of a justified lemma is true in each assignment that agrees with the graphs.
pub fn lemmas_are_true()
    ensures { (p : Instance) (a : ℕ → Bool) (l : Lemma) → IsInstance p → Agrees p a → IsTrue (justifies p l) → IsTrue (clause_true a l.clause) }
{}
