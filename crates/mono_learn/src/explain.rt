//! Who makes the lemmas of late reasons.

ghost use Rattle.std.specs.Prelude.{◌≡◌, ◌≤◌, ℕ, ℤ, List, length, take, IfOk};
ghost use Rattle.mono_problem.specs.Instance.{Instance};
ghost use Rattle.mono_learn.specs.Explain.{AtomForces, IsExplanation};

use mono_base::Lit;
use mono_steps::Lemma;
use std::alloc::AllocError;

/// Who makes the lemma of a literal that an atom forced.
///
/// A literal that a theory forces goes on the trail without a lemma, with the atom and how many literals the atom's
/// theory had seen. Its lemma is made only where a conflict reaches the literal.
pub trait Explainer {
    /// The problem whose atoms are explained.
    ghost problem: { Self → Instance };
    /// For each atom of the problem, by its number, the literals that its theory has seen.
    ghost shown: { Self → ℕ → List ℤ };

    /// The lemma of a literal that the atom forces by the first `kept` literals of its list: it has that literal, and its
    /// others are false under those. Both meanings stay, also after want of memory.
    fn explain(&mut self, atom: u32, lit: Lit, kept: u32) -> Result<Lemma, AllocError>
        requires within { kept ≤ length (shown self.old atom) }
        requires forces { AtomForces (problem self.old) (take kept (shown self.old atom)) atom lit }
        ensures same { self.new ≡ self.old }
        ensures lemma { IfOk result (IsExplanation (problem self.old) (take kept (shown self.old atom)) atom lit) };
}
