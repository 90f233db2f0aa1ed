//! Lists of numbers in a line, read from tokens.
//!
//! Each is read into room that is handed in, by one pass over the bytes. Where the answer is `false`, a token isn't a
//! number of its kind or is beyond its limit, or the list doesn't end as it has to.

ghost use Rattle.std.specs.Prelude.{◌≡◌, ◌≤◌, nat_abs, Some, None, IfOk, IfSome, if◌then◌else◌};
ghost use Rattle.std.specs.Result.{result_ok};
ghost use Rattle.mono_answer.specs.Items.{values_of, literals_of, names_of, clause_numbers_of, labels_of, amounts_of};

use mono_base::Lit;
use mono_base::limits::{MAX_VARS, MAX_WITNESS_VALUE};
use mono_graph::{Amount, Label};
use mono_text::{NumberRefusal, Tokens};
use std::alloc::AllocError;

/// The greatest magnitude of a literal.
const MAX_LITERAL: u64 = MAX_VARS as u64;

/// The greatest number of a predicate, a node or an edge.
pub(crate) const MAX_NAME: u64 = u32::MAX as u64;

fn literal_or_zero(read: Result<i64, NumberRefusal>) -> Option<i32>
    requires { IfOk read (λ z. nat_abs z ≤ MAX_VARS) }
    ensures value { result ≡ result_ok read }
    ensures within { IfSome result (λ z. nat_abs z ≤ MAX_VARS) }
{
    match read {
        Ok(number) => Some(number as i32),
        Err(_) => None,
    }
}

/// The numbers to the end of the line.
#[inline(always)]
pub(crate) fn read_values(
    values: &mut Vec<i32>,
    tokens: &mut Tokens<'_>,
) -> Result<bool, AllocError>
    ensures { IfOk result (λ read. values_of tokens.old ≡ (if read then Some values.new.items else None)) }
{
    values.clear();
    while let Some(read) = tokens.next_signed(MAX_LITERAL) {
        match literal_or_zero(read) {
            None => return Ok(false),
            Some(value) => values.push(value)?,
        }
    }
    Ok(true)
}

/// The literals up to the first 0, behind which it leaves the tokens.
#[inline(always)]
pub(crate) fn read_literals(
    lits: &mut Vec<Lit>,
    tokens: &mut Tokens<'_>,
) -> Result<bool, AllocError>
    ensures { IfOk result (λ read. literals_of tokens.old ≡ (if read then Some (lits.new.items, tokens.new) else None)) }
{
    lits.clear();
    while let Some(read) = tokens.next_signed(MAX_LITERAL) {
        match literal_or_zero(read) {
            None => return Ok(false),
            Some(number) => match Lit::new(number) {
                Some(lit) => lits.push(lit)?,
                None => return Ok(true),
            },
        }
    }
    Ok(false)
}

/// The numbers of nodes or edges to the end of the line.
#[inline(always)]
pub(crate) fn read_names(names: &mut Vec<u32>, tokens: &mut Tokens<'_>) -> Result<bool, AllocError>
    ensures { IfOk result (λ read. names_of tokens.old ≡ (if read then Some names.new.items else None)) }
{
    names.clear();
    while let Some(read) = tokens.next_natural(MAX_NAME) {
        match read {
            Err(_) => return Ok(false),
            Ok(name) => names.push(name as u32)?,
        }
    }
    Ok(true)
}

/// The numbers of clauses to the end of the line.
#[inline(always)]
pub(crate) fn read_clause_numbers(
    numbers: &mut Vec<u64>,
    tokens: &mut Tokens<'_>,
) -> Result<bool, AllocError>
    ensures { IfOk result (λ read. clause_numbers_of tokens.old ≡ (if read then Some numbers.new.items else None)) }
{
    numbers.clear();
    while let Some(read) = tokens.next_natural(u64::MAX) {
        match read {
            Err(_) => return Ok(false),
            Ok(number) => numbers.push(number)?,
        }
    }
    Ok(true)
}

/// The pairs of a node and its label to the end of the line.
#[inline(always)]
pub(crate) fn read_labels(
    labels: &mut Vec<Label>,
    tokens: &mut Tokens<'_>,
) -> Result<bool, AllocError>
    ensures { IfOk result (λ read. labels_of tokens.old ≡ (if read then Some labels.new.items else None)) }
{
    labels.clear();
    while let Some(read) = tokens.next_natural(MAX_NAME) {
        let Ok(node) = read else {
            return Ok(false);
        };
        let Some(Ok(value)) = tokens.next_natural(MAX_WITNESS_VALUE) else {
            return Ok(false);
        };
        labels.push(Label {
            node: node as u32,
            value,
        })?;
    }
    Ok(true)
}

/// The pairs of an edge's number and its amount to the end of the line.
#[inline(always)]
pub(crate) fn read_amounts(
    amounts: &mut Vec<Amount>,
    tokens: &mut Tokens<'_>,
) -> Result<bool, AllocError>
    ensures { IfOk result (λ read. amounts_of tokens.old ≡ (if read then Some amounts.new.items else None)) }
{
    amounts.clear();
    while let Some(read) = tokens.next_natural(MAX_NAME) {
        let Ok(edge) = read else {
            return Ok(false);
        };
        let Some(Ok(amount)) = tokens.next_natural(MAX_WITNESS_VALUE) else {
            return Ok(false);
        };
        amounts.push(Amount {
            edge: edge as u32,
            amount,
        })?;
    }
    Ok(true)
}
