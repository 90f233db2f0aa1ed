//! What holds of problems by their definitions.
//!
//! A predicate that rises never fails because more edges are present (Bayless et al. 2015), and one that falls never because
//! fewer are. So a list of literals that gives some variables their values decides a predicate from both sides: one that
//! rises holds whatever the other variables are where it holds with the edges that are surely present, and fails where it
//! fails with those that are possibly present. For one that falls the sides change places.

ghost use Rattle.std.specs.Prelude.{◌≡◌, ℕ, ◌<◌, ◌≤◌, Bool, false, ◌↔◌, ℤ, pos, List, IsTrue, All};
ghost use Rattle.mono_base.specs.declared.limits.TheConstants.{MAX_VARS};
ghost use Rattle.mono_base.specs.Literal.{lit_true, IsLitWithin};
ghost use Rattle.mono_base.specs.Partial.{Extends, is_open_in};
ghost use Rattle.mono_graph.specs.Digraph.{Digraph, IsGraph, IsSubpart, enabled};
ghost use Rattle.mono_problem.specs.declared.atom.Atom.{Atom};
ghost use Rattle.mono_problem.specs.declared.atom.Predicate.{Predicate};
ghost use Rattle.mono_problem.specs.Assuming.{assuming, HasRoom};
ghost use Rattle.mono_problem.specs.Holds.{Holds, Satisfies, falls};
ghost use Rattle.mono_problem.specs.Instance.{Instance};
ghost use Rattle.mono_problem.specs.Quiet.{under, over, part_to_fail, Forces, HasForcedTrue, IsNearlyQuiet, TheoryQuiet};
ghost use Rattle.mono_problem.specs.WellFormed.{IsInstance};

/// Predicates are monotonic: one that rises holds in each larger part where it holds in a part, and one that falls in each smaller part.
pub fn predicates_are_monotonic()
    ensures rising { (g : Digraph) (P Q : List Bool) → IsSubpart P Q → (q : Predicate) → falls q ≡ false → Holds g P q → Holds g Q q }
    ensures falling { (g : Digraph) (P Q : List Bool) → IsSubpart P Q → (q : Predicate) → IsTrue (falls q) → Holds g Q q → Holds g P q }
{}

/// Where an assignment extends a list of literals, each surely present edge is enabled, and each enabled edge is possibly
/// present.
pub fn bounds_enclose_the_enabled_edges()
    ensures surely { (g : Digraph) (t : List ℤ) (a : ℕ → Bool) → IsGraph g → Extends a t → IsSubpart (under g t) (enabled a g) }
    ensures possibly { (g : Digraph) (t : List ℤ) (a : ℕ → Bool) → IsGraph g → Extends a t → IsSubpart (enabled a g) (over g t) }
{}

/// Where moreover the variable of every edge has a value in the list, both are the enabled edges.
pub fn bounds_meet_where_all_edges_are_decided()
    ensures surely { (g : Digraph) (t : List ℤ) (a : ℕ → Bool) → IsGraph g → Extends a t → All (λ e. is_open_in t (pos e.var) ≡ false) g.edges
        → under g t ≡ enabled a g }
    ensures possibly { (g : Digraph) (t : List ℤ) (a : ℕ → Bool) → IsGraph g → Extends a t → All (λ e. is_open_in t (pos e.var) ≡ false) g.edges
        → over g t ≡ enabled a g }
{}

/// A literal that an atom forces under a list is true in each assignment that extends the list and agrees with the atom.
pub fn forced_literals_are_true()
    ensures { (g : Digraph) (x : Atom) (t : List ℤ) (l : ℤ) (a : ℕ → Bool) → IsGraph g → 0 < x.var → Extends a t
        → (IsTrue (a x.var) ↔ Holds g (enabled a g) x.predicate) → Forces g x t l → IsTrue (lit_true a l) }
{}

/// Where no atom forces anything beyond the list, each forced literal is true in it. The other way round too, except that
/// of a predicate whose variable isn't false this shows no more than that it doesn't fail with the possibly present edges.
/// For predicates that hold where they don't fail, both are one.
pub fn quiet_atoms_force_nothing_more()
    ensures forced { (g : Digraph) (atoms : List Atom) (t : List ℤ) → TheoryQuiet g atoms t → All (HasForcedTrue g t) atoms }
    ensures nearly { (g : Digraph) (atoms : List Atom) (t : List ℤ) → All (HasForcedTrue g t) atoms ↔ All (IsNearlyQuiet g t) atoms }
    ensures quiet { (g : Digraph) (atoms : List Atom) (t : List ℤ)
        → All (λ x. ¬ ¬ Holds g (part_to_fail x.predicate g t) x.predicate → Holds g (part_to_fail x.predicate g t) x.predicate) atoms
        → All (HasForcedTrue g t) atoms → TheoryQuiet g atoms t }
{}

/// Where the variables of all edges and of the atoms have values in a list, and no atom forces anything beyond it, the
/// atoms agree with each assignment that extends the list.
pub fn quiet_atoms_agree()
    ensures { (g : Digraph) (atoms : List Atom) (t : List ℤ) (a : ℕ → Bool) → IsGraph g → Extends a t
        → All (λ e. is_open_in t (pos e.var) ≡ false) g.edges → All (λ x. (0 < x.var) × (is_open_in t (pos x.var) ≡ false)) atoms
        → TheoryQuiet g atoms t → All (λ x. IsTrue (a x.var) ↔ Holds g (enabled a g) x.predicate) atoms }
{}

/// Whether a problem is satisfied depends on the values of its variables alone.
pub fn values_of_variables_decide()
    ensures { (p : Instance) (a b : ℕ → Bool) → IsInstance p → ((v : ℕ) → v ≤ p.vars → a v ≡ b v) → Satisfies p a → Satisfies p b }
{}

/// A problem under assumptions is a problem.
pub fn problems_under_assumptions_are_problems()
    ensures { (p : Instance) (lits : List ℤ) → IsInstance p → All (IsLitWithin MAX_VARS) lits → HasRoom p lits → IsInstance (assuming p lits) }
{}
