//! The reasons of literals, late ones made.

ghost use Rattle.std.specs.Prelude.{◌≡◌, ◌≢◌, ℕ, ◌<◌, ◌≤◌, length, IfOk};
ghost use Rattle.mono_steps.specs.Steps.{clauses_after};
ghost use Rattle.mono_trail.specs.declared.reason.Reason.TheVariants.{Decided, Clause, Late};
ghost use Rattle.mono_trail.specs.Places.{reason_at};
ghost use Rattle.mono_trail.specs.TrailView.{IsSoundTrail};
ghost use Rattle.mono_learn.specs.Reasons.{WasUnit, HasReasons};
ghost use Rattle.mono_learn.specs.Asked.{AsksFor};

use crate::{Explainer, places};
use mono_problem::Problem;
use mono_steps::Journal;
use mono_trail::{Reason, Trail};
use std::alloc::AllocError;

/// Makes the lemma of a late reason, and gives its number.
fn late_reason<E: Explainer>(
    problem: &Problem,
    trail: &mut Trail,
    journal: &mut Journal,
    by: &mut E,
    place: usize,
    atom: u32,
    kept: u32,
) -> Result<u64, AllocError>
    requires sound { IsSoundTrail trail.old }
    requires problem { E.problem by.old ≡ problem.now }
    requires reasons { HasReasons problem.now (clauses_after problem.now journal.old) (E.shown by.old) trail.old }
    requires place { place < length trail.old.lits }
    requires late { reason_at trail.old.marks place ≡ Late atom kept }
    ensures by { by.new ≡ by.old }
    ensures asks { AsksFor problem.now trail.old journal.old trail.new journal.new }
    ensures sound { IsSoundTrail trail.new }
    ensures reasons { HasReasons problem.now (clauses_after problem.now journal.new) (E.shown by.old) trail.new }
    ensures is { IfOk result (λ n. WasUnit (clauses_after problem.now journal.new) trail.new.lits place n) }
    ensures why { IfOk result (λ n. reason_at trail.new.marks place ≡ Clause n) }
{
    let lit = places::literal(trail, place);
    let lemma = by.explain(atom, lit, kept)?;
    let number = journal.push_lemma(problem, lemma)?;
    trail.settle(lit.var(), number);
    trail.known();
    Ok(number)
}

/// The number of the clause that is the reason of the literal at a place. Where the reason is late, its lemma is made.
pub fn reason_of<E: Explainer>(
    problem: &Problem,
    trail: &mut Trail,
    journal: &mut Journal,
    by: &mut E,
    place: usize,
) -> Result<u64, AllocError>
    requires sound { IsSoundTrail trail.old }
    requires problem { E.problem by.old ≡ problem.now }
    requires reasons { HasReasons problem.now (clauses_after problem.now journal.old) (E.shown by.old) trail.old }
    requires place { place < length trail.old.lits }
    requires implied { reason_at trail.old.marks place ≢ Decided }
    ensures by { by.new ≡ by.old }
    ensures asks { AsksFor problem.now trail.old journal.old trail.new journal.new }
    ensures sound { IsSoundTrail trail.new }
    ensures reasons { HasReasons problem.now (clauses_after problem.now journal.new) (E.shown by.old) trail.new }
    ensures is { IfOk result (λ n. WasUnit (clauses_after problem.now journal.new) trail.new.lits place n) }
    ensures why { IfOk result (λ n. reason_at trail.new.marks place ≡ Clause n) }
{
    match places::reason(trail, place) {
        Reason::Decided => unreachable!(),
        Reason::Clause(number) => Ok(number),
        Reason::Late { atom, kept } => {
            late_reason(problem, trail, journal, by, place, atom, kept)
        }
    }
}
