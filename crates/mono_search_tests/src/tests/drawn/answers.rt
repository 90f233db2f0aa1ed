//! Whether answers of a theory agree with what searches find anew.

ghost use Rattle.std.specs.Prelude.{◌<◌, IfSome, length};
ghost use Rattle.mono_problem.specs.Instance.{graph_at};
ghost use Rattle.mono_problem.specs.WellFormed.{IsOver};

use super::anew::{holds, says};
use super::kept::Kept;
use mono_base::Lit;
use mono_problem::{Atom, Predicate, Problem};
use mono_steps::{Lemma, StepChecker};
use std::alloc::{AllocError, Global};

/// The atom of the number, if it is over the first graph.
fn atom_of(problem: &Problem, number: u32) -> Option<Atom>
    ensures { IfSome result (λ x. (0 < length problem.now.graphs) × IsOver (graph_at problem.now 0) x.predicate) }
{
    problem.known();
    if number == 0 || number > problem.atom_count() {
        return None;
    }
    let atom = problem.atom(number);
    if atom.graph != 0 {
        return None;
    }
    Some(atom)
}

/// Whether the predicate may fail once more edges are present.
fn falls(predicate: Predicate) -> bool {
    matches!(predicate, Predicate::Acyclic)
}

/// Whether what is kept of the atom agrees with searches and, after an answer of Quiet, the literals say what it forces.
pub fn agrees(
    alloc: Global,
    problem: &Problem,
    lits: &[Lit],
    number: u32,
    kept: Option<Kept>,
    quiet: bool,
) -> Result<bool, AllocError> {
    let Some(atom) = atom_of(problem, number) else {
        return Ok(false);
    };
    let graph = problem.graph(0);
    let surely = holds(alloc, graph, lits, false, atom.predicate)?;
    let possibly = holds(alloc, graph, lits, true, atom.predicate)?;
    let (always, ever) = if falls(atom.predicate) {
        (possibly, surely)
    } else {
        (surely, possibly)
    };
    let owes = (always && !says(lits, atom.var, true)) || !(ever || says(lits, atom.var, false));
    let right = match kept {
        Some(kept) => kept.is_right(surely, possibly, quiet),
        None => true,
    };
    Ok(right && !(quiet && owes))
}

/// Whether the atom forces the literal, by a search, and the literals don't say it.
pub fn is_forced(
    alloc: Global,
    problem: &Problem,
    lits: &[Lit],
    number: u32,
    lit: Lit,
) -> Result<bool, AllocError> {
    let Some(atom) = atom_of(problem, number) else {
        return Ok(false);
    };
    let value = lit.is_positive();
    let possibly = value == falls(atom.predicate);
    let found = holds(alloc, problem.graph(0), lits, possibly, atom.predicate)?;
    Ok(found == value && lit.var() == atom.var && !says(lits, lit.var(), value))
}

/// Whether the checker finds no fault in the lemma.
pub fn is_justified(alloc: Global, problem: &Problem, lemma: &Lemma) -> Result<bool, AllocError> {
    let mut checker = StepChecker::new(alloc, problem)?;
    let fault = checker.lemma_fault(problem, lemma)?;
    Ok(fault.is_none())
}

/// Whether the clause has the literal, and its others are false.
pub fn explains(lits: &[Lit], clause: &[Lit], lit: Lit) -> bool {
    let follows = clause
        .iter()
        .all(|l| *l == lit || says(lits, l.var(), !l.is_positive()));
    follows && clause.contains(&lit)
}

/// Whether no literal of the clause is true, and at most one is open.
pub fn is_unit_or_false(lits: &[Lit], clause: &[Lit]) -> bool {
    let mut open: Option<Lit> = None;
    for lit in clause {
        if says(lits, lit.var(), lit.is_positive()) {
            return false;
        }
        if says(lits, lit.var(), !lit.is_positive()) {
            continue;
        }
        if open.is_some_and(|other| other != *lit) {
            return false;
        }
        open = Some(*lit);
    }
    true
}
