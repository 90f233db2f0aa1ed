//! The forms `best` and `ask` behind their FILE.

ghost use Rattle.std.specs.Prelude.{◌≡◌, IfOk, IfSome, None};
ghost use Rattle.mono_problem.specs.WellFormed.{IsInstance};
ghost use Rattle.mono_best.specs.Asking.{HasBoundedAtom, HasRoomToAsk, predicate_of};
ghost use Rattle.mono_best.specs.Bounds.{IsBoundOf};
ghost use Rattle.mono_gnf.specs.Printed.{printed as printed_form};
ghost use Rattle.mono_forms.specs.declared.ending.Ending.TheVariants.{Printed};
ghost use Rattle.mono_words.specs.declared.command.TheConstants.{DEFAULT_BUDGET};
ghost use Rattle.mono_forms.specs.BestTexts.{refusal_text};
ghost use Rattle.mono_forms.specs.Runs.{IsAsked, IsBounded, IsUnasked};
ghost use Rattle.mono_forms.specs.Solved.{IsBounding};

use crate::ending::Ending;
use mono_base::Row;
use mono_best::{BestOutcome, ask, best, has_bounded_atom, has_room_to_ask, is_bound_of};
use mono_gnf::print_gnf;
use mono_kinds::all_theories;
use mono_problem::Problem;
use mono_words::command::DEFAULT_BUDGET;
use std::alloc::{AllocError, Global};

/// Why a bound can't be asked for.
#[derive(Clone, Copy, Debug, PartialEq, Eq)]
pub enum AskRefusal {
    /// The input has no predicate of that number on steps, a distance, a flow or a tree.
    BadAtom,
    /// Its bound can't be this one.
    BadBound,
    /// A limit leaves no room for one more variable, predicate or clause of one literal.
    TooMany,
}

impl AskRefusal {
    /// The line that is written.
    pub(crate) fn text(self) -> &'static [u8]
        ensures { result.now ≡ refusal_text self }
    {
        match self {
            AskRefusal::BadAtom => b"refused 0 BadAtom\n",
            AskRefusal::BadBound => b"refused 0 BadBound\n",
            AskRefusal::TooMany => b"refused 0 TooMany\n",
        }
    }
}

/// `best`, for the problem of FILE and the number of a predicate.
pub(crate) fn best_ending(alloc: Global, problem: &Problem, atom: u32) -> Result<Ending, AllocError>
    requires { IsInstance problem.now }
    ensures { IfOk result (IsBounded problem.now atom) }
{
    if !has_bounded_atom(problem, atom) {
        return Ok(Ending::Unasked(AskRefusal::BadAtom));
    }
    if !has_room_to_ask(problem) {
        return Ok(Ending::Unasked(AskRefusal::TooMany));
    }
    let outcome = best_of(alloc, problem, atom)?;
    Ok(Ending::Bounded(outcome))
}

/// What is found of the bound of a predicate, with the budget of `solve`.
fn best_of(alloc: Global, problem: &Problem, atom: u32) -> Result<BestOutcome, AllocError>
    requires problem { IsInstance problem.now }
    requires atom { HasBoundedAtom problem.now atom }
    requires room { HasRoomToAsk problem.now }
    ensures { IfOk result (IsBounding problem.now DEFAULT_BUDGET atom) }
{
    let make = |p: &Problem| all_theories(alloc, p);
    best(alloc, problem, &make, atom, DEFAULT_BUDGET)
}

/// `ask`, for the problem of FILE, the number of a predicate and a bound.
pub(crate) fn ask_ending(
    alloc: Global,
    problem: &Problem,
    atom: u32,
    bound: i64,
) -> Result<Ending, AllocError>
    ensures { IfOk result (IsAsked problem.now atom bound) }
{
    if let Some(refusal) = ask_refusal(problem, atom, bound) {
        return Ok(Ending::Unasked(refusal));
    }
    let asked = ask(problem, atom, bound)?;
    printed(alloc, &asked)
}

/// A problem, printed.
pub(crate) fn printed(alloc: Global, problem: &Problem) -> Result<Ending, AllocError>
    ensures { IfOk result (λ ending. ending ≡ Printed (printed_form problem.now)) }
{
    let text = print_gnf(alloc, problem)?;
    Ok(Ending::Printed(Row::from_vec(text)))
}

/// Why the bound can't be asked for: the first reason that applies.
fn ask_refusal(problem: &Problem, atom: u32, bound: i64) -> Option<AskRefusal>
    ensures some { IfSome result (IsUnasked problem.now atom (IsBoundOf (predicate_of problem.now atom) bound)) }
    ensures none { result ≡ None → HasBoundedAtom problem.now atom × IsBoundOf (predicate_of problem.now atom) bound × HasRoomToAsk problem.now }
{
    if !has_bounded_atom(problem, atom) {
        return Some(AskRefusal::BadAtom);
    }
    if !is_bound_of(problem, atom, bound) {
        return Some(AskRefusal::BadBound);
    }
    if !has_room_to_ask(problem) {
        return Some(AskRefusal::TooMany);
    }
    None
}
