//! What `best` writes: the best bound, the values that meet it, and the refutation of the bound that asks for one more.
//!
//! The lines before the answer begin with `c`, so that `check` skips them.

ghost use Rattle.std.specs.Prelude.{◌≡◌, ◌++◌, ◌∷◌, [], IfOk, OnOk};
ghost use Rattle.std.specs.Fmt.{signed_decimal};
ghost use Rattle.mono_best.specs.declared.outcome.BestOutcome.TheVariants as outcome;
ghost use Rattle.mono_forms.specs.CoreTexts.{note};
ghost use Rattle.mono_forms.specs.BestTexts.{best_text, values_note};

use mono_answer::{Kind, push_claim, push_literals, push_model};
use mono_best::BestOutcome;
use mono_steps::Step;
use mono_text::push_signed;
use std::alloc::{AllocError, Global};

/// The text of what was found.
pub(crate) fn print_best(alloc: Global, outcome: &BestOutcome) -> Result<Vec<u8>, AllocError>
    ensures { IfOk result (λ text. text.items ≡ best_text outcome.now) }
{
    let mut out = Vec::new(alloc);
    push_outcome(&mut out, outcome)?;
    Ok(out)
}

/// The text of what was found, behind what is there.
fn push_outcome(out: &mut Vec<u8>, outcome: &BestOutcome) -> Result<(), AllocError>
    ensures { OnOk result (out.new.items ≡ out.old.items ++ best_text outcome.now) }
{
    match outcome {
        BestOutcome::Best {
            bound,
            model,
            steps,
        } => push_best(out, *bound, model.as_slice(), steps.as_slice()),
        BestOutcome::Never(steps) => push_never(out, steps.as_slice()),
        BestOutcome::Beyond(model) => push_beyond(out, model.as_slice()),
        BestOutcome::Unknown { bound, steps } => push_open(out, *bound, steps.as_slice()),
    }
}

/// The best bound, the values that meet it, and the refutation of the bound that asks for one more.
fn push_best(
    out: &mut Vec<u8>,
    bound: i64,
    model: &[bool],
    steps: &[Step],
) -> Result<(), AllocError>
    ensures { OnOk result (out.new.items ≡ out.old.items ++ best_text (outcome.Best bound model.now steps.now)) }
{
    push_bound(out, b"best", bound)?;
    push_values(out, model)?;
    push_claim(out, Kind::Refutation, steps)?;
    Ok(())
}

/// That no bound is met, and the refutation of the weakest one.
fn push_never(out: &mut Vec<u8>, steps: &[Step]) -> Result<(), AllocError>
    ensures { OnOk result (out.new.items ≡ out.old.items ++ best_text (outcome.Never steps.now)) }
{
    out.extend_from_slice(b"c never\n")?;
    push_claim(out, Kind::Refutation, steps)?;
    Ok(())
}

/// That a flow is beyond every bound, and the values by which it is.
fn push_beyond(out: &mut Vec<u8>, model: &[bool]) -> Result<(), AllocError>
    ensures { OnOk result (out.new.items ≡ out.old.items ++ best_text (outcome.Beyond model.now)) }
{
    out.extend_from_slice(b"c beyond\n")?;
    push_model(out, model)?;
    Ok(())
}

/// The bound on which the budget was spent, and the progress that was made.
fn push_open(out: &mut Vec<u8>, bound: i64, steps: &[Step]) -> Result<(), AllocError>
    ensures { OnOk result (out.new.items ≡ out.old.items ++ best_text (outcome.Unknown bound steps.now)) }
{
    push_bound(out, b"open", bound)?;
    push_claim(out, Kind::Progress, steps)?;
    Ok(())
}

/// The line of a word and a bound.
fn push_bound(out: &mut Vec<u8>, word: &[u8], bound: i64) -> Result<(), AllocError>
    ensures { OnOk result (out.new.items ≡ out.old.items ++ note (word.now ∷ signed_decimal bound ∷ [])) }
{
    out.extend_from_slice(b"c ")?;
    out.extend_from_slice(word)?;
    out.push(b' ')?;
    push_signed(out, bound)?;
    out.push(b'\n')?;
    Ok(())
}

/// The line of the values.
fn push_values(out: &mut Vec<u8>, values: &[bool]) -> Result<(), AllocError>
    ensures { OnOk result (out.new.items ≡ out.old.items ++ values_note values.now) }
{
    out.extend_from_slice(b"c v")?;
    push_literals(out, values)?;
    out.push(b'\n')?;
    Ok(())
}
