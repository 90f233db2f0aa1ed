//! A problem and the theories that own its atoms.
//!
//! Each theory is handed the literals of the trail whose variables concern it, in order and each once. Contracts see a
//! theory as a plain record of its graph, its atoms and the literals that it has seen, so a call changes the whole list of
//! theories by one `map`. Together they explain the literals that were forced without a lemma.

ghost use Rattle.std.specs.Prelude.{◌≡◌, ◌+◌, ◌<◌, ◌≤◌, length, All, IfOk, IfSome, OnSome, IsTrue};
ghost use Rattle.mono_base.specs.Literal.{IsLitWithin};
ghost use Rattle.mono_base.specs.Partial.{is_partial};
ghost use Rattle.mono_theory.specs.Owners.{facts_of};
ghost use Rattle.mono_trail.specs.Moves.{IsVar};
ghost use Rattle.mono_search.specs.TheoryLists.{seen_of, AnyGives, IsShort, IsAnswer};
ghost use Rattle.mono_theory.specs.Owners.{OwnsEach};
ghost use Rattle.mono_search.specs.Theories.{HaveSeen, having_seen};

use crate::asking::{any_prefers, any_unit_lemma, any_wanted, force_any};
use crate::concerns::concern_table;
use crate::explaining::{explain_by_owner, no_owners};
use crate::handing::hand_to;
use crate::undoing::{no_counts, undo_each_to};
use mono_base::{Buckets, Lit, Worklist};
use mono_learn::Explainer;
use mono_problem::Problem;
use mono_steps::Lemma;
use mono_theory::{Theory, UnitLemma};
use std::alloc::{AllocError, Global};
use std::marker::Model;

/// A literal that an atom forces, and how many literals its theory has seen.
#[derive(Clone, Copy, Debug, PartialEq, Eq)]
pub struct Forced {
    pub atom: u32,
    pub lit: Lit,
    pub kept: u32,
}

/// One more than a number that is below another one.
fn one_more(number: usize, above: usize) -> usize
    requires { number < above }
    ensures { result ≡ number + 1 }
{
    number + 1
}

/// A problem and its theories.
pub struct Theories<'p, T: Theory> {
    problem: &'p Problem,
    theories: Vec<T>,
    /// The places of the theories that each variable concerns.
    concerned: Buckets<usize>,
    /// By number of an atom, the place of the theory that owns it, where that theory has forced it before.
    owners: Vec<Option<usize>>,
    /// By place of a theory, 0: room to count the literals that are taken back from it.
    counts: Vec<usize>,
    /// The theories that are to be asked what they force, by their places: all that aren't known to be quiet. A theory joins
    /// when it is handed a literal and when literals are taken back from it, and leaves when it has nothing to force.
    worklist: Worklist,
    /// So many literals of the trail were handed on.
    handed: usize,
    /// How many of their lemmas were given to the clauses.
    given: usize,
}

impl<'p, T: Theory> Drop for Theories<'p, T> {
    fn drop(self) {
        let Theories {
            problem: _,
            theories: _,
            concerned: _,
            owners: _,
            counts: _,
            worklist: _,
            handed: _,
            given: _,
        } = self;
    }
}

impl<'p, T: Theory> Model for Theories<'p, T> {
    ghost use Rattle.mono_theory.specs.Owners.{facts_of};
    ghost use Rattle.mono_search.specs.Theories.{TheoriesView, AreTheoryTables};
    ghost use Rattle.std.specs.Prelude.{length};

    ghost Value = { TheoriesView };

    ghost view = { λ b. record { problem = b.problem.now; facts = facts_of T.graph T.atoms T.seen b.theories.items; handed = b.handed; given = b.given } };

    ghost invariant = { λ b. AreTheoryTables b.problem.now (facts_of T.graph T.atoms T.seen b.theories.items)
        b.concerned b.owners.items b.counts.items b.worklist.listed };
}

impl<'p, T: Theory> Theories<'p, T> {
    /// No literal was handed on.
    pub fn new(
        alloc: Global,
        problem: &'p Problem,
        theories: Vec<T>,
    ) -> Result<Theories<'p, T>, AllocError>
        requires owns { OwnsEach problem.now (facts_of T.graph T.atoms T.seen theories.items) }
        ensures { IfOk result (λ b. b ≡ record { problem = problem.now; facts = facts_of T.graph T.atoms T.seen theories.items; handed = 0; given = 0 }) }
    {
        let concerned = concern_table(alloc, problem.vars(), theories.as_slice())?;
        let owners = no_owners(alloc, problem.atom_count())?;
        let counts = no_counts(alloc, theories.len())?;
        let worklist = Worklist::full(alloc, theories.len())?;
        Ok(Theories {
            problem,
            theories,
            concerned,
            owners,
            counts,
            worklist,
            handed: 0,
            given: 0,
        })
    }

    /// The problem.
    pub fn problem(&self) -> &'p Problem
        ensures problem { result.now ≡ self.now.problem }
        ensures owns { OwnsEach self.now.problem self.now.facts }
    {
        self.problem
    }

    /// How many literals were handed on.
    pub fn handed(&self) -> usize
        ensures { result ≡ self.now.handed }
    {
        self.handed
    }

    /// Each theory is handed what concerns it of the literals that were not handed on yet.
    pub fn hand_on(&mut self, lits: &[Lit])
        requires shown { HaveSeen self.old lits.now }
        requires partial { IsTrue (is_partial lits.now) }
        requires within { All (IsLitWithin self.old.problem.vars) lits.now }
        ensures { self.new ≡ having_seen self.old lits.now (length lits.now) }
    {
        while self.handed < lits.len() {
            let lit = lits[self.handed];
            hand_to(
                &mut self.theories,
                &mut self.worklist,
                self.concerned.list(lit.var()),
                lit,
            );
            self.handed += 1;
        }
    }

    /// Each theory goes back to what concerns it of the first `kept` literals. It costs the literals that are taken back and the
    /// theories that they concern, and nothing for the others.
    pub fn undo_to(&mut self, lits: &[Lit], kept: usize)
        requires shown { HaveSeen self.old lits.now }
        requires fewer { kept ≤ self.old.handed }
        requires within { All (IsLitWithin self.old.problem.vars) lits.now }
        ensures { self.new ≡ having_seen self.old lits.now kept }
    {
        undo_each_to(
            &mut self.theories,
            &mut self.counts,
            &mut self.worklist,
            &self.concerned,
            &lits[..self.handed],
            kept,
        );
        self.handed = kept;
    }

    /// Whether a theory that the variable concerns prefers it to be true. The answer is free where there are theories.
    pub fn prefers(&self, var: u32) -> bool
        requires { IsVar self.now.problem.vars var }
        ensures { IsTrue result → 0 < length self.now.facts }
    {
        any_prefers(self.theories.as_slice(), self.concerned.list(var), var)
    }

    /// The variable of an edge that a theory would have decided true next, if there is one: the first theory's, or the last one's.
    /// The answer is free where there are theories.
    pub fn wanted(&self, last_first: bool) -> Option<u32>
        ensures { OnSome result (0 < length self.now.facts) }
    {
        any_wanted(self.theories.as_slice(), last_first)
    }

    /// A lemma that a theory has at hand and that is unit under the literals that it has seen.
    pub fn unit_lemma(&mut self) -> Result<Option<UnitLemma>, AllocError>
        ensures same { self.new ≡ self.old }
        ensures lemma { IfOk result (λ r. IfSome r (AnyGives self.old.facts)) }
    {
        any_unit_lemma(&mut self.theories)
    }

    /// One lemma more was given to the clauses, which are so many now.
    pub fn count_given(&mut self, clauses: usize)
        requires { self.old.given < clauses }
        ensures { self.new ≡ record self.old { given = self.old.given + 1 } }
    {
        self.given = one_more(self.given, clauses);
    }

    /// How many lemmas were given to the clauses.
    pub fn given(&self) -> usize
        ensures { result ≡ self.now.given }
    {
        self.given
    }

    /// A literal that an atom forces, if there is one. Only theories that aren't known to be quiet are asked.
    pub fn force(&mut self) -> Result<Option<Forced>, AllocError>
        requires { All IsShort self.old.facts }
        ensures same { self.new ≡ self.old }
        ensures answer { IfOk result (IsAnswer self.old.facts) }
    {
        force_any(&mut self.theories, &mut self.worklist, &mut self.owners)
    }
}

impl<'p, T: Theory> Explainer for Theories<'p, T> {
    ghost problem = { λ b. b.problem };

    ghost shown = { λ b n. seen_of b.facts n };

    fn explain(&mut self, atom: u32, lit: Lit, kept: u32) -> Result<Lemma, AllocError> {
        self.problem.known();
        explain_by_owner(
            &mut self.theories,
            self.owners.as_slice(),
            atom,
            lit,
            kept as usize,
        )
    }
}
