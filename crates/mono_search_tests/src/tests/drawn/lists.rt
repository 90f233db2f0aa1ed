//! Lists of calls.

use super::answers::{agrees, explains, is_forced, is_justified, is_unit_or_false};
use super::kept::kept_of;
use super::trial::Trial;
use mono_base::Lit;
use mono_kinds::AnyTheory;
use mono_problem::Problem;
use mono_steps::Lemma;
use mono_theory::{Finding, Force, Theory};
use rand_core::utils::NextWord;
use rand_pcg::Lcg64Xsh32;
use std::alloc::{AllocError, Global};

/// So many calls make a list.
const CALLS: usize = 40;

/// No literal is drawn of a greater variable.
const GREATEST_VAR: u32 = 48;

/// What is found of an answer.
#[derive(Clone, Copy)]
struct Judged {
    /// Whether it agrees with searches.
    right: bool,
    /// Whether it is Quiet.
    quiet: bool,
}

/// An answer of Quiet.
const QUIET: Judged = Judged {
    right: true,
    quiet: true,
};

/// A literal.
fn drawn_literal(words: &mut Lcg64Xsh32) -> Option<Lit> {
    let var = (words.next_word() % GREATEST_VAR + 1) as i32;
    let value = words.next_word() % 2 == 0;
    Lit::new(if value { var } else { -var })
}

/// Whether the atom forces the literal, and the lemma of it rests on the literals seen before.
fn is_late_lemma(
    alloc: Global,
    problem: &Problem,
    before: &[Lit],
    lemma: &Lemma,
    atom: u32,
    lit: Lit,
) -> Result<bool, AllocError> {
    Ok(
        is_forced(alloc, problem, before, atom, lit)?
            && is_justified(alloc, problem, lemma)?
            && lemma.atom == atom
            && explains(before, lemma.clause.lits(), lit),
    )
}

/// Asks what is forced, and for its lemma once that and a drawn literal were seen too.
fn force<T: Theory>(
    alloc: Global,
    problem: &Problem,
    trial: &mut Trial<T>,
    words: &mut Lcg64Xsh32,
) -> Result<Judged, AllocError> {
    let Force::Literal { atom, lit } = trial.force()? else {
        return Ok(QUIET);
    };
    let before = Vec::from_slice(alloc, trial.seen())?;
    let lemma = trial.late_lemma(atom, lit, drawn_literal(words))?;
    Ok(Judged {
        right: is_late_lemma(alloc, problem, before.as_slice(), &lemma, atom, lit)?,
        quiet: false,
    })
}

/// Asks for the lemma of what is forced.
fn propagate<T: Theory>(
    alloc: Global,
    problem: &Problem,
    trial: &mut Trial<T>,
) -> Result<Judged, AllocError> {
    let Finding::Lemma(lemma) = trial.propagate()? else {
        return Ok(QUIET);
    };
    let right = is_justified(alloc, problem, &lemma)?
        && trial.theory().owns(lemma.atom)
        && is_unit_or_false(trial.seen(), lemma.clause.lits());
    Ok(Judged {
        right,
        quiet: false,
    })
}

/// Makes a drawn call.
fn call<T: Theory>(
    alloc: Global,
    problem: &Problem,
    trial: &mut Trial<T>,
    words: &mut Lcg64Xsh32,
) -> Result<Judged, AllocError> {
    let kind = words.next_word() % 8;
    if kind == 0 {
        return propagate(alloc, problem, trial);
    }
    if kind == 1 {
        return force(alloc, problem, trial, words);
    }
    if kind == 2 {
        trial.undo((words.next_word() % 16) as usize);
    } else {
        trial.see_any(drawn_literal(words))?;
    }
    Ok(Judged {
        right: true,
        quiet: false,
    })
}

/// Whether what the theory keeps agrees with searches, and it owes nothing after an answer of Quiet.
fn is_right(
    alloc: Global,
    problem: &Problem,
    trial: &Trial<AnyTheory>,
    quiet: bool,
) -> Result<bool, AllocError> {
    let theory = trial.theory();
    for number in 1..=problem.atom_count() {
        let kept = kept_of(theory, number);
        if theory.owns(number) && !agrees(alloc, problem, trial.seen(), number, kept, quiet)? {
            return Ok(false);
        }
    }
    Ok(true)
}

/// Whether each answer to a drawn list of calls, and what is kept behind it, agrees with searches.
pub fn list_agrees(
    alloc: Global,
    problem: &Problem,
    theory: AnyTheory,
    words: &mut Lcg64Xsh32,
) -> Result<bool, AllocError> {
    let mut trial = Trial::new(alloc, theory);
    for _call in 0..CALLS {
        let judged = call(alloc, problem, &mut trial, words)?;
        if !judged.right || !is_right(alloc, problem, &trial, judged.quiet)? {
            return Ok(false);
        }
    }
    Ok(true)
}
