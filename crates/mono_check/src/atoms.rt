//! Predicates whose variables have the wrong value.
//!
//! Predicates on walks of one graph from one node are decided by one search, wherever they stand among the others. So
//! what is done first doesn't depend on the order of the predicates, and what is answered does.

ghost use Rattle.std.specs.Prelude.{◌≡◌, IfOk, OnOk, length};
ghost use Rattle.mono_base.specs.Literal.{value_in};
ghost use Rattle.mono_check.specs.Atoms.{IsWrongAtom};
ghost use Rattle.mono_check.specs.Enabled.{AreEnabled};
ghost use Rattle.mono_check.specs.Questions.{AreTruths};

use crate::parts::EnabledParts;
use crate::question::{alike_count, questions_in_order};
use mono_problem::Problem;
use std::alloc::{AllocError, Global};

/// What is known of the predicates by their places: the truth of those on walks of which one search answers several.
fn truths_of_walks(
    alloc: Global,
    problem: &Problem,
    model: &[bool],
    parts: &mut EnabledParts,
) -> Result<Vec<Option<bool>>, AllocError>
    requires model { length model.now ≡ problem.now.vars }
    requires parts { AreEnabled problem.now (value_in model.now) parts.old.parts.items }
    ensures truths { IfOk result (λ truths. AreTruths problem.now (value_in model.now) truths.items) }
    ensures parts { OnOk result (AreEnabled problem.now (value_in model.now) parts.new.parts.items) }
{
    let mut truths = vec![in alloc; None; problem.atom_count() as usize]?;
    let questions = questions_in_order(alloc, problem)?;
    let mut rest = questions.as_slice();
    while !rest.is_empty() {
        let (alike, others) = rest.split_at(alike_count(rest));
        parts.decide(alloc, problem, model, alike, &mut truths)?;
        rest = others;
    }
    Ok(truths)
}

/// The number of the first predicate whose variable has the wrong value, in the order of the predicates.
///
/// It borrows the parts, so that they are dropped at one place only.
fn first_wrong(
    alloc: Global,
    problem: &Problem,
    model: &[bool],
    parts: &mut EnabledParts,
) -> Result<Option<u32>, AllocError>
    requires model { length model.now ≡ problem.now.vars }
    requires parts { AreEnabled problem.now (value_in model.now) parts.old.parts.items }
    ensures { IfOk result (IsWrongAtom problem.now (value_in model.now)) }
{
    let count = problem.atom_count();
    let truths = truths_of_walks(alloc, problem, model, parts)?;
    for place in 0..count {
        if !parts.is_right(alloc, problem, model, place + 1, truths[place as usize])? {
            return Ok(Some(place + 1));
        }
    }
    Ok(None)
}

/// The number of the first predicate whose variable is true where the predicate fails or false where it holds: `None`
/// exactly where each predicate's variable is true exactly where its predicate holds. Variable x has the value
/// `model[x - 1]`, and an edge is present where its variable is true.
pub fn first_wrong_atom(
    alloc: Global,
    problem: &Problem,
    model: &[bool],
) -> Result<Option<u32>, AllocError>
    requires { length model.now ≡ problem.now.vars }
    ensures { IfOk result (IsWrongAtom problem.now (value_in model.now)) }
{
    let mut parts = EnabledParts::new(alloc, problem)?;
    first_wrong(alloc, problem, model, &mut parts)
}
