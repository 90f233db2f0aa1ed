//! A theory and the literals that it has seen.

ghost use Rattle.std.specs.Prelude.{◌≡◌, length, IfOk};
ghost use Rattle.mono_base.specs.Literal.{has_lit};
ghost use Rattle.mono_base.specs.Partial.{is_open_in};
ghost use Rattle.mono_theory.specs.Theories.{cut_to, ForceIs, ForcesBy};

use mono_base::Lit;
use mono_steps::Lemma;
use mono_theory::{Finding, Force, Theory};
use std::alloc::{AllocError, Global};
use std::marker::Model;

/// A theory and the literals that it has seen.
#[derive(Drop)]
pub struct Trial<T: Theory> {
    theory: T,
    seen: Vec<Lit>,
}

impl<T: Theory> Model for Trial<T> {
    ghost use Rattle.std.specs.Prelude.{◌≡◌};
    ghost use Rattle.mono_theory.specs.Theories.{Facts};

    ghost Value = { Facts };

    ghost view = { λ s. record { graph = T.graph s.theory; atoms = T.atoms s.theory; seen = T.seen s.theory } };

    ghost invariant = { λ s. T.seen s.theory ≡ s.seen.items };
}

/// Whether the literal is in the list.
fn contains(seen: &[Lit], lit: Lit) -> bool
    ensures { result ≡ has_lit seen.now lit }
{
    seen.iter().any(|other| lit == *other)
}

/// Whether the list says nothing of the literal.
fn is_open(seen: &[Lit], lit: Lit) -> bool
    ensures { result ≡ is_open_in seen.now lit }
{
    !contains(seen, lit) && !contains(seen, lit.negated())
}

impl<T: Theory> Trial<T> {
    /// The theory, which has seen nothing from now on.
    pub fn new(alloc: Global, mut theory: T) -> Trial<T> {
        theory.undo_to(0);
        Trial {
            theory,
            seen: Vec::new(alloc),
        }
    }

    /// The theory.
    pub fn theory(&self) -> &T {
        &self.theory
    }

    /// The literals that it has seen.
    pub fn seen(&self) -> &[Lit] {
        self.seen.as_slice()
    }

    /// Shows the theory the literal, where it is one that it may see next.
    pub fn see(&mut self, lit: Lit) -> Result<(), AllocError>
        ensures { cut_to (length self.old.seen) self.new ≡ self.old }
    {
        if !self.theory.concerns(lit.var()) || !is_open(self.seen.as_slice(), lit) {
            return Ok(());
        }
        self.seen.push(lit)?;
        self.theory.assign(lit);
        Ok(())
    }

    /// Shows it the literal, if there is one.
    pub fn see_any(&mut self, lit: Option<Lit>) -> Result<(), AllocError>
        ensures { cut_to (length self.old.seen) self.new ≡ self.old }
    {
        match lit {
            Some(lit) => self.see(lit),
            None => Ok(()),
        }
    }

    /// Goes back to the first of the literals, at most this many.
    pub fn undo(&mut self, kept: usize) {
        let kept = kept.min(self.seen.len());
        self.seen.truncate(kept);
        self.theory.undo_to(kept);
    }

    /// Asks what is forced.
    pub fn force(&mut self) -> Result<Force, AllocError>
        ensures same { self.new ≡ self.old }
        ensures answer { IfOk result (ForceIs self.old.graph self.old.atoms self.old.seen) }
    {
        let forced = self.theory.force()?;
        Ok(forced)
    }

    /// Asks for the lemma of what is forced.
    pub fn propagate(&mut self) -> Result<Finding, AllocError> {
        let finding = self.theory.propagate()?;
        Ok(finding)
    }

    /// The lemma of the literal that the atom forces, asked for once it, and another one if there is one, were seen too.
    pub fn late_lemma(
        &mut self,
        atom: u32,
        lit: Lit,
        other: Option<Lit>,
    ) -> Result<Lemma, AllocError>
        requires { ForcesBy self.old.graph self.old.atoms self.old.seen atom lit }
    {
        let kept = self.seen.len();
        self.see(lit)?;
        self.see_any(other)?;
        let lemma = self.theory.explain(atom, lit, kept)?;
        Ok(lemma)
    }
}
