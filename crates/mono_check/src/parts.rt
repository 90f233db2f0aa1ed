//! The parts of a problem's graphs that an assignment enables, and whether its predicates hold in them.
//!
//! A part is made when a predicate of its graph is first to be decided, and stays. All graphs together have no more nodes and
//! edges than one may have, so all parts take no more room than that of one greatest graph.

ghost use Rattle.std.specs.Prelude.{◌≡◌, ◌<◌, ◌≤◌, ◌↔◌, ℕ, Bool, All, IsTrue, IfOk, IfSome, OnOk, length};
ghost use Rattle.mono_base.specs.Literal.{value_in};
ghost use Rattle.mono_problem.specs.Instance.{Instance, graph_at};
ghost use Rattle.mono_problem.specs.WellFormed.{IsOver};
ghost use Rattle.mono_problem.specs.Holds.{HoldsAtom};
ghost use Rattle.mono_problem.specs.Read.{atom_numbered};
ghost use Rattle.mono_check.specs.Atoms.{IsJudged};
ghost use Rattle.mono_check.specs.Enabled.{AreEnabled, IsEnabled, IsPartAt};
ghost use Rattle.mono_check.specs.Questions.{IsQuestion, AreAlike, AreTruths, question_at};

use crate::enabled::EnabledPart;
use crate::question::{WalkQuestion, keep_answers, targets_of};
use mono_graph::value_of;
use mono_problem::{Atom, Problem};
use std::alloc::{AllocError, Global};

/// The parts of a problem's graphs by the graphs' places.
#[derive(Drop)]
pub(crate) struct EnabledParts {
    parts: Vec<Option<EnabledPart>>,
}

impl EnabledParts {
    /// No part yet.
    pub(crate) fn new(alloc: Global, problem: &Problem) -> Result<EnabledParts, AllocError>
        ensures { IfOk result (λ parts. (a : ℕ → Bool) → AreEnabled problem.now a parts.parts.items) }
    {
        let mut parts = Vec::new(alloc);
        for _place in 0..problem.graph_count() {
            parts.push(None)?;
        }
        Ok(EnabledParts { parts })
    }

    /// The part of the graph at a place, where variable x has the value `model[x - 1]`. It isn't among the parts until it is
    /// put back.
    fn take(
        &mut self,
        alloc: Global,
        problem: &Problem,
        model: &[bool],
        place: u32,
    ) -> Result<EnabledPart, AllocError>
        requires model { length model.now ≡ problem.now.vars }
        requires place { place < length problem.now.graphs }
        requires parts { AreEnabled problem.now (value_in model.now) self.old.parts.items }
        ensures part { IfOk result (IsPartAt problem.now (value_in model.now) place) }
        ensures parts { AreEnabled problem.now (value_in model.now) self.new.parts.items }
    {
        match self.parts[place as usize].take() {
            Some(part) => Ok(part),
            None => EnabledPart::new(alloc, problem, model, place),
        }
    }

    /// Puts a part back.
    fn put(&mut self, part: EnabledPart)
        requires { part.graph < length self.old.parts.items }
        ensures { (p : Instance) (a : ℕ → Bool) → IsEnabled p a part → AreEnabled p a self.old.parts.items → AreEnabled p a self.new.parts.items }
    {
        let place = part.graph as usize;
        self.parts[place] = Some(part);
    }

    /// Decides predicates on walks that one search answers, and keeps what was found by their places.
    ///
    /// One that is alone is left until its turn comes, since one before it may be wrong.
    pub(crate) fn decide(
        &mut self,
        alloc: Global,
        problem: &Problem,
        model: &[bool],
        questions: &[WalkQuestion],
        truths: &mut Vec<Option<bool>>,
    ) -> Result<(), AllocError>
        requires model { length model.now ≡ problem.now.vars }
        requires some { 0 < length questions.now }
        requires questions { All (IsQuestion problem.now) questions.now }
        requires alike { All (AreAlike (question_at questions.now 0)) questions.now }
        requires parts { AreEnabled problem.now (value_in model.now) self.old.parts.items }
        requires truths { AreTruths problem.now (value_in model.now) truths.old.items }
        ensures parts { OnOk result (AreEnabled problem.now (value_in model.now) self.new.parts.items) }
        ensures truths { OnOk result (AreTruths problem.now (value_in model.now) truths.new.items) }
    {
        if questions.len() < 2 {
            return Ok(());
        }
        problem.known();
        let first = questions[0];
        let graph = problem.graph(first.graph);
        let targets = targets_of(alloc, questions)?;
        let mut part = self.take(alloc, problem, model, first.graph)?;
        let answers = part.which_are_reached(graph, first.from, first.measure, &targets)?;
        self.put(part);
        keep_answers(truths, questions, &answers);
        Ok(())
    }

    /// Whether the predicate of an atom holds, if that isn't known yet.
    fn truth(
        &mut self,
        alloc: Global,
        problem: &Problem,
        model: &[bool],
        atom: Atom,
        known: Option<bool>,
    ) -> Result<bool, AllocError>
        requires model { length model.now ≡ problem.now.vars }
        requires graph { atom.graph < length problem.now.graphs }
        requires over { IsOver (graph_at problem.now atom.graph) atom.predicate }
        requires parts { AreEnabled problem.now (value_in model.now) self.old.parts.items }
        requires known { IfSome known (λ b. IsTrue b ↔ HoldsAtom problem.now (value_in model.now) atom) }
        ensures holds { IfOk result (λ holds. IsTrue holds ↔ HoldsAtom problem.now (value_in model.now) atom) }
        ensures parts { OnOk result (AreEnabled problem.now (value_in model.now) self.new.parts.items) }
    {
        if let Some(holds) = known {
            return Ok(holds);
        }
        problem.known();
        let mut part = self.take(alloc, problem, model, atom.graph)?;
        let holds = part.holds(alloc, problem.graph(atom.graph), atom.predicate)?;
        self.put(part);
        Ok(holds)
    }

    /// Whether the variable of the predicate of this number is true exactly where the predicate holds.
    pub(crate) fn is_right(
        &mut self,
        alloc: Global,
        problem: &Problem,
        model: &[bool],
        number: u32,
        known: Option<bool>,
    ) -> Result<bool, AllocError>
        requires model { length model.now ≡ problem.now.vars }
        requires low { 0 < number }
        requires high { number ≤ length problem.now.atoms }
        requires parts { AreEnabled problem.now (value_in model.now) self.old.parts.items }
        requires known { IfSome known (λ b. IsTrue b ↔ HoldsAtom problem.now (value_in model.now) (atom_numbered problem.now number)) }
        ensures right { IfOk result (IsJudged problem.now (value_in model.now) (atom_numbered problem.now number)) }
        ensures parts { OnOk result (AreEnabled problem.now (value_in model.now) self.new.parts.items) }
    {
        problem.known();
        let atom = problem.atom(number);
        let holds = self.truth(alloc, problem, model, atom, known)?;
        if value_of(model, atom.var) {
            Ok(holds)
        } else {
            Ok(!holds)
        }
    }
}
