//! What each variable switches or stands for.
//!
//! The uses of all variables stand in one list, sorted by variable, so those of one variable are a slice of it. A binary
//! search finds where it begins, and it ends where another variable comes: whoever asks for the uses of a variable goes
//! over them anyway, and most variables have one.

ghost use Rattle.std.specs.Prelude.{◌≡◌, ◌≤◌, ◌==◌, ℕ, IfOk, length, map, filter};
ghost use Rattle.std.specs.List.Sorted.{IsNonDecreasingBy};
ghost use Rattle.mono_problem.specs.Uses.{chosen, picked, IsRangeOf};

use std::alloc::{AllocError, Global};
use std::marker::Model;

/// What a variable switches or stands for.
#[derive(Clone, Copy, Debug, PartialEq, Eq)]
pub enum Use {
    /// The edge at a place of the graph at a place.
    Edge { graph: u32, place: u32 },
    /// The predicate of that number.
    Atom { number: u32 },
}

/// A use, with its variable.
#[derive(Clone, Copy)]
pub(crate) struct VarUse {
    pub(crate) var: u32,
    pub(crate) at: Use,
}

/// The uses of all variables.
#[derive(Drop)]
pub(crate) struct UseTable {
    vars: Vec<u32>,
    uses: Vec<Use>,
}

impl Model for UseTable {
    ghost use Rattle.std.specs.Prelude.{◌≡◌, List, ℕ, length};
    ghost use Rattle.std.specs.List.Sorted.{IsNonDecreasingBy};
    ghost use Rattle.mono_problem.specs.declared.uses.Use.{Use};

    ghost Value = { List ℕ × List Use };

    ghost view = { λ t. (t.vars.items, t.uses.items) };

    ghost invariant = { λ t. (length t.vars.items ≡ length t.uses.items) × IsNonDecreasingBy (λ v. v) t.vars.items };
}

/// Sorted by variable. The uses of one variable keep their order.
fn sorted_by_var(mut all: Vec<VarUse>) -> Result<Vec<VarUse>, AllocError>
    ensures sorted { IfOk result (λ us. IsNonDecreasingBy (λ u. u.var) us.items) }
    ensures stable { IfOk result (λ us. (x : ℕ) → filter (λ u. u.var == x) us.items ≡ filter (λ u. u.var == x) all.items) }
{
    all.sort_by_key(|used| used.var)?;
    Ok(all)
}

fn vars_of(alloc: Global, all: &[VarUse]) -> Result<Vec<u32>, AllocError>
    ensures { IfOk result (λ vars. vars.items ≡ map (λ u. u.var) all.now) }
{
    all.iter().map(|used| used.var).collect(alloc)
}

fn ats_of(alloc: Global, all: &[VarUse]) -> Result<Vec<Use>, AllocError>
    ensures { IfOk result (λ uses. uses.items ≡ map (λ u. u.at) all.now) }
{
    all.iter().map(|used| used.at).collect(alloc)
}

/// Where the places of a variable begin and end.
fn range_of(vars: &[u32], var: u32) -> (usize, usize)
    requires { IsNonDecreasingBy (λ v. v) vars.now }
    ensures range { IsRangeOf vars.now var result.0 result.1 }
    ensures rises { result.0 ≤ result.1 }
    ensures within { result.1 ≤ length vars.now }
{
    let start = vars.partition_point(|held| *held < var);
    let mut end = start;
    while end < vars.len() && vars[end] == var {
        end += 1;
    }
    (start, end)
}

fn uses_at<'a>(vars: &[u32], uses: &'a [Use], var: u32) -> &'a [Use]
    requires sorted { IsNonDecreasingBy (λ v. v) vars.now }
    requires same { length vars.now ≡ length uses.now }
    ensures { result.now ≡ chosen var vars.now uses.now }
{
    let (start, end) = range_of(vars, var);
    &uses[start..end]
}

impl UseTable {
    /// The table of these uses. Those of one variable keep their order.
    pub(crate) fn new(alloc: Global, all: Vec<VarUse>) -> Result<UseTable, AllocError>
        ensures { IfOk result (λ t. (x : ℕ) → chosen x t.0 t.1 ≡ picked x all.items) }
    {
        let all = sorted_by_var(all)?;
        let vars = vars_of(alloc, all.as_slice())?;
        let uses = ats_of(alloc, all.as_slice())?;
        Ok(UseTable { vars, uses })
    }

    /// The uses of a variable, in order.
    pub(crate) fn of(&self, var: u32) -> &[Use]
        ensures { result.now ≡ chosen var self.now.0 self.now.1 }
    {
        uses_at(self.vars.as_slice(), self.uses.as_slice(), var)
    }
}
