//! Conflicts at level 0.

ghost use Rattle.std.specs.Prelude.{◌≡◌, ℕ, ◌+◌, ◌<◌, ◌≤◌, ◌∷◌, [], List, ℤ, length, OnOk, OnErr, IfOk, IsTrue};
ghost use Rattle.mono_trail.specs.TrailView.{IsSoundTrail};
ghost use Rattle.mono_steps.specs.Steps.{clauses_after, are_justified};
ghost use Rattle.mono_steps.specs.Journals.{AddsLemmas};
ghost use Rattle.mono_steps.specs.New.{IsExactEnd};
ghost use Rattle.mono_learn.specs.Reasons.{HasReasons, IsFalseClause};
ghost use Rattle.mono_learn.specs.Settled.{Settles, AreAskedFor};
ghost use Rattle.mono_learn.specs.Learned.{Refutes};
ghost use Rattle.mono_learn.specs.Asked.{AsksFor, AddsChains, PushesChain};

use crate::Explainer;
use crate::analysis::Analysis;
use crate::pushing::push_end;
use crate::resolvent::Resolvent;
use mono_problem::Problem;
use mono_steps::{Clause, Journal};
use mono_trail::Trail;
use std::alloc::{AllocError, Global};

/// The chain from a false clause to the empty one.
fn empty_chain<E: Explainer>(
    alloc: Global,
    problem: &Problem,
    trail: &mut Trail,
    journal: &mut Journal,
    by: &mut E,
    conflict: u64,
) -> Result<Vec<u64>, AllocError>
    requires sound { IsSoundTrail trail.old }
    requires level { trail.old.level ≡ 0 }
    requires problem { E.problem by.old ≡ problem.now }
    requires reasons { HasReasons problem.now (clauses_after problem.now journal.old) (E.shown by.old) trail.old }
    requires conflict { IsFalseClause (clauses_after problem.now journal.old) trail.old.lits conflict }
    ensures by { by.new ≡ by.old }
    ensures asks { AsksFor problem.now trail.old journal.old trail.new journal.new }
    ensures reasons { HasReasons problem.now (clauses_after problem.now journal.new) (E.shown by.old) trail.new }
    ensures exact { IfOk result (λ used. IsExactEnd (clauses_after problem.now journal.new) (record { clause = []; used = used.items })) }
{
    if journal.clause(problem, conflict).is_empty() {
        let mut used = Vec::new(alloc);
        used.push(conflict)?;
        return Ok(used);
    }
    let mut analysis = Analysis::new(alloc, trail, 0)?;
    analysis.begin(problem, trail, journal, conflict)?;
    analysis.resolve_all(problem, trail, journal, by)?;
    let Analysis {
        resolvent,
        used,
        ..
    } = analysis;
    let Resolvent { seen, .. } = resolvent;
    trail.give_back(seen);
    Ok(used)
}

/// The chain joins the journal.
fn push_empty(
    alloc: Global,
    problem: &Problem,
    journal: &mut Journal,
    used: Vec<u64>,
) -> Result<u64, AllocError>
    requires { IsExactEnd (clauses_after problem.now journal.old) (record { clause = []; used = used.items }) }
    ensures pushes { IfOk result (λ n. PushesChain problem.now journal.old journal.new [] n) }
    ensures keeps { IsTrue (are_justified problem.now journal.old) → IsTrue (are_justified problem.now journal.new) }
    ensures grows { AddsChains journal.old journal.new }
    ensures err { OnErr result (journal.new ≡ journal.old) }
{
    let clause = Clause::from_lits(alloc, &[])?;
    let number = push_end(problem, journal, clause, used)?;
    Ok(number)
}

/// The number of the empty clause, with its chain in the journal, from a conflict at level 0. The false clause may be the
/// empty one itself.
///
/// Lemmas that are asked for join the journal first, and their literals' reasons are settled. After want of memory the
/// journal's steps are justified, and the trail differs in settled reasons alone.
pub fn refute<E: Explainer>(
    alloc: Global,
    problem: &Problem,
    trail: &mut Trail,
    journal: &mut Journal,
    by: &mut E,
    conflict: u64,
) -> Result<u64, AllocError>
    requires vars { trail.old.vars ≡ problem.now.vars }
    requires problem { E.problem by.old ≡ problem.now }
    requires level { trail.old.level ≡ 0 }
    requires reasons { HasReasons problem.now (clauses_after problem.now journal.old) (E.shown by.old) trail.old }
    requires conflict { IsFalseClause (clauses_after problem.now journal.old) trail.old.lits conflict }
    ensures refutes { IfOk result (Refutes problem.now journal.old journal.new) }
    ensures err { OnErr result (AddsLemmas journal.old journal.new) }
    ensures keeps { IsTrue (are_justified problem.now journal.old) → IsTrue (are_justified problem.now journal.new) }
    ensures settles { Settles (clauses_after problem.now journal.new) trail.old trail.new }
    ensures asked { AreAskedFor problem.now trail.old trail.new journal.old journal.new }
    ensures reasons { HasReasons problem.now (clauses_after problem.now journal.new) (E.shown by.old) trail.new }
    ensures by { by.new ≡ by.old }
{
    trail.known();
    let used = empty_chain(alloc, problem, trail, journal, by, conflict)?;
    push_empty(alloc, problem, journal, used)
}
