//! The printer of answers.
//!
//! Each kind of line has a function that appends one such line: its first tokens, then each further number behind a
//! space, then a line feed.

ghost use Rattle.std.specs.Prelude.{◌≡◌, ◌+◌, ◌<◌, ◌++◌, ◌∷◌, ◌^◌, [], IfOk, OnOk, OnErr, decimal, map, flat_map};
ghost use Rattle.std.specs.Fmt.{signed_decimal};
ghost use Rattle.std.specs.Io.{StartsWith};
ghost use Rattle.mono_text.specs.Text.{spaced};
ghost use Rattle.mono_answer.specs.Printed.{numbers_text, with_zero, literal_of, literals_from, labels_text, amounts_text};
ghost use Rattle.mono_answer.specs.Printed.{witness_text, status_line, values_line, step_line, answer_text};
ghost use Rattle.mono_steps.specs.declared.step.Step.TheVariants as step;
ghost use Rattle.mono_answer.specs.declared.answer.Answer.TheVariants as whole;
ghost use Rattle.mono_answer.specs.Behind.{behind};

use crate::word::word_for;
use crate::{Answer, Kind};
use mono_base::Lit;
use mono_graph::{Amount, Label};
use mono_steps::{Chain, Lemma, Step, Witness};
use mono_text::{push_natural, push_signed};
use std::alloc::{AllocError, Global};

/// A space and the number.
pub(crate) fn push_number(out: &mut Vec<u8>, number: u64) -> Result<(), AllocError>
    ensures ok { OnOk result (out.new.items ≡ out.old.items ++ behind (decimal number ∷ [])) }
    ensures err { OnErr result (StartsWith out.new.items out.old.items) }
{
    out.push(b' ')?;
    push_natural(out, number)?;
    Ok(())
}

/// A space and the literal.
fn push_lit(out: &mut Vec<u8>, lit: Lit) -> Result<(), AllocError>
    ensures ok { OnOk result (out.new.items ≡ out.old.items ++ behind (signed_decimal lit ∷ [])) }
    ensures err { OnErr result (StartsWith out.new.items out.old.items) }
{
    out.push(b' ')?;
    push_signed(out, i64::from(lit.number()))?;
    Ok(())
}

/// Appends a space and each literal, and the ending 0. Where memory is wanting, what was there stays, and more
/// may stand behind it.
pub fn push_lits(out: &mut Vec<u8>, lits: &[Lit]) -> Result<(), AllocError>
    ensures ok { OnOk result (out.new.items ≡ out.old.items ++ behind (numbers_text (with_zero lits.now))) }
    ensures err { OnErr result (StartsWith out.new.items out.old.items) }
{
    for lit in lits {
        push_lit(out, *lit)?;
    }
    out.extend_from_slice(b" 0")?;
    Ok(())
}

fn push_names(out: &mut Vec<u8>, names: &[u32]) -> Result<(), AllocError>
    ensures ok { OnOk result (out.new.items ≡ out.old.items ++ behind (map decimal names.now)) }
    ensures err { OnErr result (StartsWith out.new.items out.old.items) }
{
    for name in names {
        push_number(out, u64::from(*name))?;
    }
    Ok(())
}

fn push_clause_numbers(out: &mut Vec<u8>, numbers: &[u64]) -> Result<(), AllocError>
    ensures ok { OnOk result (out.new.items ≡ out.old.items ++ behind (map decimal numbers.now)) }
    ensures err { OnErr result (StartsWith out.new.items out.old.items) }
{
    for number in numbers {
        push_number(out, *number)?;
    }
    Ok(())
}

/// A space and the name, and a space and the value that goes with it.
fn push_pair(out: &mut Vec<u8>, name: u32, value: u64) -> Result<(), AllocError>
    ensures ok { OnOk result (out.new.items ≡ out.old.items ++ behind (decimal name ∷ decimal value ∷ [])) }
    ensures err { OnErr result (StartsWith out.new.items out.old.items) }
{
    push_number(out, u64::from(name))?;
    push_number(out, value)?;
    Ok(())
}

fn push_labels(out: &mut Vec<u8>, labels: &[Label]) -> Result<(), AllocError>
    ensures ok { OnOk result (out.new.items ≡ out.old.items ++ behind (labels_text labels.now)) }
    ensures err { OnErr result (StartsWith out.new.items out.old.items) }
{
    for label in labels {
        push_pair(out, label.node, label.value)?;
    }
    Ok(())
}

fn push_amounts(out: &mut Vec<u8>, amounts: &[Amount]) -> Result<(), AllocError>
    ensures ok { OnOk result (out.new.items ≡ out.old.items ++ behind (amounts_text amounts.now)) }
    ensures err { OnErr result (StartsWith out.new.items out.old.items) }
{
    for amount in amounts {
        push_pair(out, amount.edge, amount.amount)?;
    }
    Ok(())
}

fn push_witness(out: &mut Vec<u8>, witness: &Witness) -> Result<(), AllocError>
    ensures ok { OnOk result (out.new.items ≡ out.old.items ++ behind (witness_text witness.now)) }
    ensures err { OnErr result (StartsWith out.new.items out.old.items) }
{
    match witness {
        Witness::Path(edges) => push_names(out, edges.as_slice()),
        Witness::Cut(nodes) => push_names(out, nodes.as_slice()),
        Witness::Label(labels) => push_labels(out, labels.as_slice()),
        Witness::Flow(amounts) => push_amounts(out, amounts.as_slice()),
        Witness::FlowCut(nodes) => push_names(out, nodes.as_slice()),
        Witness::Tree(edges) => push_names(out, edges.as_slice()),
        Witness::Split(nodes) => push_names(out, nodes.as_slice()),
        Witness::Least(edges) => push_names(out, edges.as_slice()),
        Witness::Cycle(edges) => push_names(out, edges.as_slice()),
        Witness::Order(nodes) => push_names(out, nodes.as_slice()),
    }
}

/// The line of a lemma.
pub(crate) fn push_lemma(out: &mut Vec<u8>, lemma: &Lemma) -> Result<(), AllocError>
    ensures ok { OnOk result (out.new.items ≡ out.old.items ++ spaced (step_line (step.Lemma lemma.now))) }
    ensures err { OnErr result (StartsWith out.new.items out.old.items) }
{
    out.extend_from_slice(word_for(&lemma.witness).text())?;
    push_number(out, u64::from(lemma.atom))?;
    push_lits(out, lemma.clause.lits())?;
    push_witness(out, &lemma.witness)?;
    out.push(b'\n')?;
    Ok(())
}

/// The line of a chain.
fn push_chain(out: &mut Vec<u8>, chain: &Chain) -> Result<(), AllocError>
    ensures ok { OnOk result (out.new.items ≡ out.old.items ++ spaced (step_line (step.Chain chain.now))) }
    ensures err { OnErr result (StartsWith out.new.items out.old.items) }
{
    out.extend_from_slice(b"chain")?;
    push_lits(out, chain.clause.lits())?;
    push_clause_numbers(out, chain.used.as_slice())?;
    out.push(b'\n')?;
    Ok(())
}

/// Appends the line of a step. Where memory is wanting, what was there stays, and more may stand behind it.
pub fn push_step(out: &mut Vec<u8>, step: &Step) -> Result<(), AllocError>
    ensures ok { OnOk result (out.new.items ≡ out.old.items ++ spaced (step_line step.now)) }
    ensures err { OnErr result (StartsWith out.new.items out.old.items) }
{
    match step {
        Step::Lemma(lemma) => push_lemma(out, lemma),
        Step::Chain(chain) => push_chain(out, chain),
    }
}

fn push_steps(out: &mut Vec<u8>, steps: &[Step]) -> Result<(), AllocError>
    ensures ok { OnOk result (out.new.items ≡ out.old.items ++ flat_map spaced (map step_line steps.now)) }
    ensures err { OnErr result (StartsWith out.new.items out.old.items) }
{
    for step in steps {
        push_step(out, step)?;
    }
    Ok(())
}

/// Appends the status line. Where memory is wanting, what was there stays, and more may stand behind it.
pub fn push_status(out: &mut Vec<u8>, kind: Kind) -> Result<(), AllocError>
    ensures ok { OnOk result (out.new.items ≡ out.old.items ++ spaced (status_line kind)) }
    ensures err { OnErr result (StartsWith out.new.items out.old.items) }
{
    out.extend_from_slice(b"s ")?;
    out.extend_from_slice(kind.text())?;
    out.push(b'\n')?;
    Ok(())
}

/// A space and the literal of the variable at a place, from 0, that is true where it has the value.
fn push_literal(out: &mut Vec<u8>, place: usize, value: bool) -> Result<(), AllocError>
    requires { place + 1 < 2 ^ 63 }
    ensures ok { OnOk result (out.new.items ≡ out.old.items ++ behind (signed_decimal (literal_of (place + 1) value) ∷ [])) }
    ensures err { OnErr result (StartsWith out.new.items out.old.items) }
{
    if value {
        return push_number(out, place as u64 + 1);
    }
    out.extend_from_slice(b" -")?;
    push_natural(out, place as u64 + 1)?;
    Ok(())
}

/// Appends a space and each literal that the values make true, from variable 1 on, and the ending 0. Where memory is
/// wanting, what was there stays, and more may stand behind it.
pub fn push_literals(out: &mut Vec<u8>, values: &[bool]) -> Result<(), AllocError>
    ensures ok { OnOk result (out.new.items ≡ out.old.items ++ behind (numbers_text (with_zero (literals_from 1 values.now)))) }
    ensures err { OnErr result (StartsWith out.new.items out.old.items) }
{
    for place in 0..values.len() {
        push_literal(out, place, values[place])?;
    }
    out.extend_from_slice(b" 0")?;
    Ok(())
}

/// The line of all values, from variable 1 on.
fn push_values(out: &mut Vec<u8>, values: &[bool]) -> Result<(), AllocError>
    ensures ok { OnOk result (out.new.items ≡ out.old.items ++ spaced (values_line values.now)) }
    ensures err { OnErr result (StartsWith out.new.items out.old.items) }
{
    out.push(b'v')?;
    push_literals(out, values)?;
    out.push(b'\n')?;
    Ok(())
}

/// Appends the text of a model. Where memory is wanting, what was there stays, and more may stand behind it.
pub fn push_model(out: &mut Vec<u8>, values: &[bool]) -> Result<(), AllocError>
    ensures ok { OnOk result (out.new.items ≡ out.old.items ++ answer_text (whole.Model values.now)) }
    ensures err { OnErr result (StartsWith out.new.items out.old.items) }
{
    push_status(out, Kind::Model)?;
    push_values(out, values)?;
    Ok(())
}

/// Appends the status line, and the lines of the steps. Where memory is wanting, what was there stays, and more
/// may stand behind it.
pub fn push_claim(out: &mut Vec<u8>, kind: Kind, steps: &[Step]) -> Result<(), AllocError>
    ensures ok { OnOk result (out.new.items ≡ out.old.items ++ flat_map spaced (status_line kind ∷ map step_line steps.now)) }
    ensures err { OnErr result (StartsWith out.new.items out.old.items) }
{
    push_status(out, kind)?;
    push_steps(out, steps)?;
    Ok(())
}

fn push_answer(out: &mut Vec<u8>, answer: &Answer) -> Result<(), AllocError>
    ensures { OnOk result (out.new.items ≡ out.old.items ++ answer_text answer.now) }
{
    match answer {
        Answer::Model(values) => push_model(out, values.as_slice()),
        Answer::Refutation(steps) => push_claim(out, Kind::Refutation, steps.as_slice()),
        Answer::Progress(steps) => push_claim(out, Kind::Progress, steps.as_slice()),
    }
}

/// The text of an answer: the status line, and then one line with the values of all variables in their order and a 0, or
/// the steps, one a line, with literals and lists in the order in which they are held.
pub fn print_answer(alloc: Global, answer: &Answer) -> Result<Vec<u8>, AllocError>
    ensures { IfOk result (λ text. text.items ≡ answer_text answer.now) }
{
    let mut out = Vec::new(alloc);
    push_answer(&mut out, answer)?;
    Ok(out)
}
