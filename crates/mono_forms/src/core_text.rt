//! What `core` writes: the core, the need of each of its assumptions, and the refutation.
//!
//! The lines before the refutation begin with `c`, so that `check-with` skips them.

ghost use Rattle.std.specs.Prelude.{◌≡◌, ◌++◌, map, flat_map, IfOk, OnOk};
ghost use Rattle.std.specs.Fmt.{signed_decimal};
ghost use Rattle.mono_answer.specs.Printed.{step_line, answer_lines};
ghost use Rattle.mono_answer.specs.declared.answer.Answer.TheVariants as answer;
ghost use Rattle.mono_core.specs.declared.outcome.Need.TheVariants as need;
ghost use Rattle.mono_core.specs.declared.outcome.CoreOutcome.TheVariants as outcome;
ghost use Rattle.mono_forms.specs.CoreTexts.{core_line, need_text, needs_text, note, outcome_text};

use mono_answer::{Kind, push_claim, push_literals, push_lits, push_model, push_status, push_step};
use mono_base::Lit;
use mono_core::{CoreOutcome, Need};
use mono_steps::Step;
use mono_text::push_signed;
use std::alloc::{AllocError, Global};

/// The text of what was found.
pub(crate) fn print_outcome(alloc: Global, outcome: &CoreOutcome) -> Result<Vec<u8>, AllocError>
    ensures { IfOk result (λ text. text.items ≡ outcome_text outcome.now) }
{
    let mut out = Vec::new(alloc);
    push_outcome(&mut out, outcome)?;
    Ok(out)
}

/// The text of what was found, behind what is there.
fn push_outcome(out: &mut Vec<u8>, outcome: &CoreOutcome) -> Result<(), AllocError>
    ensures { OnOk result (out.new.items ≡ out.old.items ++ outcome_text outcome.now) }
{
    match outcome {
        CoreOutcome::Model(values) => push_model(out, values.as_slice()),
        CoreOutcome::Core { lits, steps, needs } => {
            push_whole(out, lits.as_slice(), needs.as_slice(), steps.as_slice())
        }
        CoreOutcome::Unknown(steps) => push_claim(out, Kind::Progress, steps.as_slice()),
    }
}

/// The core with its needs, and the refutation.
fn push_whole(
    out: &mut Vec<u8>,
    lits: &[Lit],
    needs: &[Need],
    steps: &[Step],
) -> Result<(), AllocError>
    ensures { OnOk result (out.new.items ≡ out.old.items ++ outcome_text (outcome.Core lits.now steps.now needs.now)) }
{
    push_core(out, lits, needs)?;
    push_claim(out, Kind::Refutation, steps)?;
    Ok(())
}

/// The line of the core, and the lines of the needs.
fn push_core(out: &mut Vec<u8>, lits: &[Lit], needs: &[Need]) -> Result<(), AllocError>
    ensures { OnOk result (out.new.items ≡ out.old.items ++ (core_line lits.now ++ needs_text lits.now needs.now)) }
{
    out.extend_from_slice(b"c core")?;
    push_lits(out, lits)?;
    out.push(b'\n')?;
    push_needs(out, lits, needs)?;
    Ok(())
}

/// The lines of the needs, one for each literal.
fn push_needs(out: &mut Vec<u8>, lits: &[Lit], needs: &[Need]) -> Result<(), AllocError>
    ensures { OnOk result (out.new.items ≡ out.old.items ++ needs_text lits.now needs.now) }
{
    for place in 0..lits.len().min(needs.len()) {
        push_need(out, lits[place], &needs[place])?;
    }
    Ok(())
}

/// The lines of one need.
fn push_need(out: &mut Vec<u8>, lit: Lit, need: &Need) -> Result<(), AllocError>
    ensures { OnOk result (out.new.items ≡ out.old.items ++ need_text lit need.now) }
{
    match need {
        Need::Model(values) => push_model_need(out, lit, values.as_slice()),
        Need::Tried { tried, steps } => {
            push_tried_need(out, lit, tried.as_slice(), steps.as_slice())
        }
    }
}

/// The number of a literal.
fn push_literal(out: &mut Vec<u8>, lit: Lit) -> Result<(), AllocError>
    ensures { OnOk result (out.new.items ≡ out.old.items ++ signed_decimal lit) }
{
    push_signed(out, i64::from(lit.number()))?;
    Ok(())
}

/// The line of a model.
fn push_model_need(out: &mut Vec<u8>, lit: Lit, values: &[bool]) -> Result<(), AllocError>
    ensures { OnOk result (out.new.items ≡ out.old.items ++ need_text lit (need.Model values.now)) }
{
    out.extend_from_slice(b"c needed ")?;
    push_literal(out, lit)?;
    push_literals(out, values)?;
    out.push(b'\n')?;
    Ok(())
}

/// The line of what was tried, and the lines of the progress that was made.
fn push_tried_need(
    out: &mut Vec<u8>,
    lit: Lit,
    tried: &[Lit],
    steps: &[Step],
) -> Result<(), AllocError>
    ensures { OnOk result (out.new.items ≡ out.old.items ++ need_text lit (need.Tried tried.now steps.now)) }
{
    out.extend_from_slice(b"c open ")?;
    push_literal(out, lit)?;
    push_lits(out, tried)?;
    out.push(b'\n')?;
    push_progress(out, steps)?;
    Ok(())
}

/// The lines of progress, each behind `c` and a space.
fn push_progress(out: &mut Vec<u8>, steps: &[Step]) -> Result<(), AllocError>
    ensures { OnOk result (out.new.items ≡ out.old.items ++ flat_map note (answer_lines (answer.Progress steps.now))) }
{
    out.extend_from_slice(b"c ")?;
    push_status(out, Kind::Progress)?;
    push_steps(out, steps)?;
    Ok(())
}

/// The lines of the steps.
fn push_steps(out: &mut Vec<u8>, steps: &[Step]) -> Result<(), AllocError>
    ensures { OnOk result (out.new.items ≡ out.old.items ++ flat_map note (map step_line steps.now)) }
{
    for step in steps {
        push_noted_step(out, step)?;
    }
    Ok(())
}

/// The line of a step.
fn push_noted_step(out: &mut Vec<u8>, step: &Step) -> Result<(), AllocError>
    ensures { OnOk result (out.new.items ≡ out.old.items ++ note (step_line step.now)) }
{
    out.extend_from_slice(b"c ")?;
    push_step(out, step)?;
    Ok(())
}
