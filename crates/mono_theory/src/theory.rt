//! What a theory is to a search: atoms over one graph that see a list of literals (Bayless et al. 2015).
//!
//! The literals stand in the order in which they came. Edges whose variable is true in the list are surely present, those
//! whose variable isn't false are possibly present. An atom forces its variable where its predicate holds with the former, or
//! its negation where it fails with the latter. For a predicate that falls as edges come these two change places.

ghost use Rattle.std.specs.Prelude.{◌≡◌, ◌≤◌, [], ◌∷◌, ◌++◌, length, take, IfOk, IfSome, IsTrue};

use mono_base::Lit;
use mono_steps::Lemma;
use std::alloc::AllocError;

/// What a theory finds.
#[derive(Drop)]
pub enum Finding {
    /// Each literal that an atom forces is true.
    Quiet,
    /// A clause of which no literal is true and at most one is open.
    Lemma(Lemma),
}

/// What a theory forces.
#[derive(Clone, Copy, Debug, PartialEq, Eq)]
pub enum Force {
    /// Nothing but literals that are true.
    Quiet,
    /// The atom of this number forces the literal, which isn't true.
    Literal { atom: u32, lit: Lit },
}

/// A lemma that is unit: one literal of its clause is open, and all others are false.
#[derive(Drop)]
pub struct UnitLemma {
    /// The literal that is open.
    pub lit: Lit,
    pub lemma: Lemma,
}

/// Atoms over one graph that see a list of literals over different variables, each of which concerns them.
///
/// No call changes the graph or the atoms. A call that finds no memory leaves the list, and may be made again.
pub trait Theory: Drop {
    ghost use Rattle.std.specs.Prelude.{ℤ, List};
    ghost use Rattle.mono_base.specs.Literal.{var_of};
    ghost use Rattle.mono_base.specs.Partial.{is_open_in};
    ghost use Rattle.mono_graph.specs.Digraph.{Digraph};
    ghost use Rattle.mono_problem.specs.declared.atom.Atom.{Atom};
    ghost use Rattle.mono_theory.specs.Theories.{concerns_of, owns_of, ForcesBy, IsLemmaOf, IsUnitLemma, ForceIs, FindingIs};
    ghost use Rattle.mono_theory.specs.Variables.{AreVarsOf};

    /// The graph.
    ghost graph: { Self → Digraph };
    /// The atoms over it.
    ghost atoms: { Self → List Atom };
    /// The literals seen.
    ghost seen: { Self → List ℤ };

    /// Whether the variable is one of the graph's edges or of the atoms.
    fn concerns(&self, var: u32) -> bool
        ensures { result ≡ concerns_of (graph self.now) (atoms self.now) var };

    /// The variables of the graph's edges and of the atoms, rising, each once, where they are at hand. Else whoever wants them
    /// asks `concerns` of each variable.
    fn variables(&self) -> Option<&[u32]>
        ensures { IfSome result (λ vars. AreVarsOf (graph self.now) (atoms self.now) vars.now) }
    {
        None
    }

    /// Whether the variable would better be decided true. The answer is free: nothing rests on it but how long a search takes.
    fn prefers(&self, var: u32) -> bool {
        let _ = var;
        false
    }

    /// The variable of an edge that would better be decided true next, if there is one. The answer is free: nothing rests on it
    /// but how long a search takes.
    fn wanted(&self) -> Option<u32> {
        None
    }

    /// How many literals were seen.
    fn seen(&self) -> usize
        ensures { result ≡ length (seen self.now) };

    /// Whether the atom of this number is one of the theory's.
    fn owns(&self, atom: u32) -> bool
        ensures { result ≡ owns_of (atoms self.now) atom };

    /// The literal is seen, behind the others. Its variable concerns the theory, and the list says nothing of it yet. It
    /// takes no memory.
    fn assign(&mut self, lit: Lit)
        requires concerned { IsTrue (concerns_of (graph self.old) (atoms self.old) (var_of lit)) }
        requires fresh { IsTrue (is_open_in (seen self.old) lit) }
        ensures graph { graph self.new ≡ graph self.old }
        ensures atoms { atoms self.new ≡ atoms self.old }
        ensures seen { seen self.new ≡ seen self.old ++ lit ∷ [] };

    /// The list is cut to its first `kept` literals. It takes no memory.
    fn undo_to(&mut self, kept: usize)
        requires { kept ≤ length (seen self.old) }
        ensures graph { graph self.new ≡ graph self.old }
        ensures atoms { atoms self.new ≡ atoms self.old }
        ensures seen { seen self.new ≡ take kept (seen self.old) };

    /// A literal that an atom forces and that isn't true, if there is one.
    fn force(&mut self) -> Result<Force, AllocError>
        ensures graph { graph self.new ≡ graph self.old }
        ensures atoms { atoms self.new ≡ atoms self.old }
        ensures seen { seen self.new ≡ seen self.old }
        ensures answer { IfOk result (ForceIs (graph self.old) (atoms self.old) (seen self.old)) };

    /// A lemma of one of the atoms that is unit under the literals seen, if one is at hand: in good time, before its open literal
    /// makes an atom force what is false. No promise is made that one is found.
    fn unit_lemma(&mut self) -> Result<Option<UnitLemma>, AllocError>
        ensures graph { graph self.new ≡ graph self.old }
        ensures atoms { atoms self.new ≡ atoms self.old }
        ensures seen { seen self.new ≡ seen self.old }
        ensures lemma { IfOk result (λ found. IfSome found (λ u. IsUnitLemma (graph self.old) (atoms self.old) (seen self.old) u.lit u.lemma)) }
    {
        Ok(None)
    }

    /// The lemma of a literal that the atom forces by the first `kept` literals seen: it has that literal, and under those
    /// literals its others are false.
    fn explain(&mut self, atom: u32, lit: Lit, kept: usize) -> Result<Lemma, AllocError>
        requires within { kept ≤ length (seen self.old) }
        requires forces { ForcesBy (graph self.old) (atoms self.old) (take kept (seen self.old)) atom lit }
        ensures graph { graph self.new ≡ graph self.old }
        ensures atoms { atoms self.new ≡ atoms self.old }
        ensures seen { seen self.new ≡ seen self.old }
        ensures lemma { IfOk result (IsLemmaOf (graph self.old) (atoms self.old) (take kept (seen self.old)) atom lit) };

    /// The lemma of a literal that an atom forces and that isn't true, if there is one.
    fn propagate(&mut self) -> Result<Finding, AllocError>
        ensures graph { graph self.new ≡ graph self.old }
        ensures atoms { atoms self.new ≡ atoms self.old }
        ensures seen { seen self.new ≡ seen self.old }
        ensures finding { IfOk result (FindingIs (graph self.old) (atoms self.old) (seen self.old)) };
}
