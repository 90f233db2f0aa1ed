//! The printer of answers in a version.
//!
//! In version 2 the numbers of a chain are counted backwards as they are printed, so that the steps stay as they are held.

ghost use Rattle.std.specs.Prelude.{◌≡◌, ◌+◌, ◌<◌, ◌++◌, ◌∷◌, ◌^◌, IfOk, OnOk, IsTrue, decimal, map, flat_map};
ghost use Rattle.mono_text.specs.Text.{spaced};
ghost use Rattle.mono_answer.specs.Behind.{behind};
ghost use Rattle.mono_answer.specs.Printed.{status_line, step_line, answer_lines, answer_text_as};
ghost use Rattle.mono_answer.specs.Versions.{turned_numbers, turned, turned_steps, turned_answer, answer_names_earlier};
ghost use Rattle.mono_steps.specs.declared.step.Step.TheVariants as step;
ghost use Rattle.mono_answer.specs.declared.version.Version.TheVariants as version;

use crate::print::{push_lemma, push_lits, push_model, push_number, push_status};
use crate::{Answer, Kind, Version, print_answer};
use mono_steps::{Chain, Step};
use std::alloc::{AllocError, Global};

/// A space and each number, counted backwards from `own`.
fn push_turned_numbers(out: &mut Vec<u8>, numbers: &[u64], own: u64) -> Result<(), AllocError>
    ensures { OnOk result (out.new.items ≡ out.old.items ++ behind (map decimal (turned_numbers own numbers.now))) }
{
    for number in numbers {
        push_number(out, own.saturating_sub(*number))?;
    }
    Ok(())
}

/// The line of the chain that is step number `own`.
fn push_turned_chain(out: &mut Vec<u8>, chain: &Chain, own: u64) -> Result<(), AllocError>
    ensures { OnOk result (out.new.items ≡ out.old.items ++ spaced (step_line (turned own (step.Chain chain.now)))) }
{
    out.extend_from_slice(b"chain")?;
    push_lits(out, chain.clause.lits())?;
    push_turned_numbers(out, chain.used.as_slice(), own)?;
    out.push(b'\n')?;
    Ok(())
}

/// The line of step number `own`.
fn push_turned_step(out: &mut Vec<u8>, step: &Step, own: u64) -> Result<(), AllocError>
    ensures { OnOk result (out.new.items ≡ out.old.items ++ spaced (step_line (turned own step.now))) }
{
    match step {
        Step::Lemma(lemma) => push_lemma(out, lemma),
        Step::Chain(chain) => push_turned_chain(out, chain, own),
    }
}

/// The lines of all steps behind so many clauses.
fn push_turned_steps(out: &mut Vec<u8>, steps: &[Step], clauses: u32) -> Result<(), AllocError>
    ensures { OnOk result (out.new.items ≡ out.old.items ++ flat_map spaced (map step_line (turned_steps (clauses + 1) steps.now))) }
{
    for place in 0..steps.len() {
        push_turned_step(out, &steps[place], u64::from(clauses) + 1 + place as u64)?;
    }
    Ok(())
}

fn push_turned_claim(
    out: &mut Vec<u8>,
    kind: Kind,
    steps: &[Step],
    clauses: u32,
) -> Result<(), AllocError>
    ensures { OnOk result (out.new.items ≡ out.old.items ++ flat_map spaced (status_line kind ∷ map step_line (turned_steps (clauses + 1) steps.now))) }
{
    push_status(out, kind)?;
    push_turned_steps(out, steps, clauses)?;
    Ok(())
}

fn push_turned_answer(out: &mut Vec<u8>, answer: &Answer, clauses: u32) -> Result<(), AllocError>
    ensures { OnOk result (out.new.items ≡ out.old.items ++ flat_map spaced (answer_lines (turned_answer clauses answer.now))) }
{
    match answer {
        Answer::Model(values) => push_model(out, values.as_slice()),
        Answer::Refutation(steps) => {
            push_turned_claim(out, Kind::Refutation, steps.as_slice(), clauses)
        }
        Answer::Progress(steps) => {
            push_turned_claim(out, Kind::Progress, steps.as_slice(), clauses)
        }
    }
}

/// The text of an answer in version 2.
fn print_turned(alloc: Global, answer: &Answer, clauses: u32) -> Result<Vec<u8>, AllocError>
    ensures { IfOk result (λ text. text.items ≡ answer_text_as answer.now version.Two clauses) }
{
    let mut out = Vec::new(alloc);
    out.extend_from_slice(b"version 2\n")?;
    push_turned_answer(&mut out, answer, clauses)?;
    Ok(out)
}

/// The text of an answer in a version, for a problem of so many clauses. Literals and lists stand in the order in which they
/// are held.
///
/// Each chain names numbers from 1 to the number before its own step's; the steps are numbered on from the clauses.
pub fn print_answer_as(
    alloc: Global,
    answer: &Answer,
    version: Version,
    clauses: u32,
) -> Result<Vec<u8>, AllocError>
    requires { IsTrue (answer_names_earlier clauses answer.now) }
    ensures { IfOk result (λ text. text.items ≡ answer_text_as answer.now version clauses) }
{
    match version {
        Version::One => print_answer(alloc, answer),
        Version::Two => print_turned(alloc, answer, clauses),
    }
}
