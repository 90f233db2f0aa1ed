//! Which theories each variable concerns: a table that is made once, so that a literal costs only the theories that it
//! concerns. A theory that lists its variables costs what its graph and its atoms have, and one that doesn't is asked of
//! each variable.

ghost use Rattle.std.specs.Prelude.{◌≡◌, ◌+◌, ◌≤◌, length, IfOk, OnOk};
ghost use Rattle.std.specs.List.Sorted.{IsStrictlyIncreasing};
ghost use Rattle.mono_base.specs.declared.limits.TheConstants.{MAX_VARS};
ghost use Rattle.mono_theory.specs.Owners.{fact_of, facts_of};
ghost use Rattle.mono_search.specs.TheoryLists.{IsConcernTable, AddsTheory, AddsPlace};

use mono_base::Buckets;
use mono_theory::Theory;
use std::alloc::{AllocError, Global};

/// The places of the theories that each variable from 1 to `vars` concerns.
pub(crate) fn concern_table<T: Theory>(
    alloc: Global,
    vars: u32,
    theories: &[T],
) -> Result<Buckets<usize>, AllocError>
    requires { vars ≤ MAX_VARS }
    ensures { IfOk result (IsConcernTable vars (facts_of T.graph T.atoms T.seen theories.now)) }
{
    let mut table = Buckets::new(alloc, vars + 1)?;
    for place in 0..theories.len() {
        add_theory(&mut table, vars, &theories[place], place)?;
    }
    Ok(table)
}

/// The theory at a place joins the lists of the variables that concern it.
fn add_theory<T: Theory>(
    table: &mut Buckets<usize>,
    vars: u32,
    theory: &T,
    place: usize,
) -> Result<(), AllocError>
    requires few { vars ≤ MAX_VARS }
    requires keys { length table.old ≡ vars + 1 }
    ensures { OnOk result (AddsTheory vars (fact_of T.graph T.atoms T.seen theory.now) place table.old table.new) }
{
    let Some(listed) = theory.variables() else {
        return add_where_concerned(table, vars, theory, place);
    };
    add_place(table, vars, listed, place)?;
    Ok(())
}

/// The place joins the lists of the variables of which the theory, asked of each, says that they concern it.
fn add_where_concerned<T: Theory>(
    table: &mut Buckets<usize>,
    vars: u32,
    theory: &T,
    place: usize,
) -> Result<(), AllocError>
    requires few { vars ≤ MAX_VARS }
    requires keys { length table.old ≡ vars + 1 }
    ensures { OnOk result (AddsTheory vars (fact_of T.graph T.atoms T.seen theory.now) place table.old table.new) }
{
    for before in 0..vars {
        if theory.concerns(before + 1) {
            table.push(before + 1, place)?;
        }
    }
    Ok(())
}

/// The place joins the lists of these variables, where they are no greater than `vars`.
fn add_place(
    table: &mut Buckets<usize>,
    vars: u32,
    listed: &[u32],
    place: usize,
) -> Result<(), AllocError>
    requires few { vars ≤ MAX_VARS }
    requires keys { length table.old ≡ vars + 1 }
    requires rising { IsStrictlyIncreasing listed.now }
    ensures { OnOk result (AddsPlace vars listed.now place table.old table.new) }
{
    for var in listed {
        if *var <= vars {
            table.push(*var, place)?;
        }
    }
    Ok(())
}
