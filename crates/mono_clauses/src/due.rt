//! Clauses that are due: those that watch nothing, because they lack two different literals that are true or open.
//!
//! A propagation looks at each of them. One that is true now may come to be watched all the same: by its true literal and
//! one that did not fall at a lower level, so that a backjump that opens the first opens the second. Where there is no
//! such literal, the clause is due again, as after a backjump it may be unit or false with no literal given: unless its
//! literal is true at level 0, and so for good.

ghost use Rattle.std.specs.Bool.{OnTrue, OnFalse};
ghost use Rattle.std.specs.Prelude.{◌≡◌, ◌<◌, ◌*◌, None, IfSome, IfNone, length, slice_index_or, vec_len};
ghost use Rattle.mono_base.specs.Literal.{IsLitWithin};
ghost use Rattle.mono_base.specs.Partial.{value_by};
ghost use Rattle.mono_base.specs.declared.value.Value.TheVariants.{Yes};
ghost use Rattle.mono_clauses.specs.ClauseValues.{AllVars};
ghost use Rattle.mono_clauses.specs.Lists.{Stands};
ghost use Rattle.mono_clauses.specs.Store.{clause_at, watch_at};
ghost use Rattle.mono_clauses.specs.Visits.{FellAt, IsLate, IsFollowing, Tried, Watched, Failed, DueVisited, DueKept, WatchedDropped};

use crate::clauses::Clauses;
use crate::scan::{another_unfalse, first_unfalse};
use crate::watches::Watches;
use mono_base::{Lit, Value};
use mono_trail::{Reason, Trail};

/// Watches two different literals of a clause that are not false, if there are such.
pub fn try_watch(clauses: &Clauses, watches: &mut Watches, trail: &Trail, place: usize) -> bool
    requires following { IsFollowing clauses.now.list watches.old trail.now }
    requires vars { clauses.now.vars ≡ watches.old.vars }
    requires in_range { place < length clauses.now.list }
    requires idle { watch_at watches.old.watched (2 * place) ≡ None }
    ensures yes { OnTrue result (Watched clauses.now.list watches.old watches.new trail.now place) }
    ensures no { OnFalse result (watches.new ≡ watches.old) }
{
    trail.known();
    watches.known();
    let clause = clauses.literals(place);
    let Some(first) = first_unfalse(clause, trail) else {
        return false;
    };
    let Some(second) = another_unfalse(clause, trail, first) else {
        return false;
    };
    watches.attach_both(place, first, second);
    true
}

/// Looks at a clause that may be due: watches two of its literals that are not false, or implies its one open literal. The
/// answer is its number where it is false.
fn try_due(clauses: &Clauses, watches: &mut Watches, trail: &mut Trail, place: usize) -> Option<u64>
    requires following { IsFollowing clauses.now.list watches.old trail.old }
    requires vars { clauses.now.vars ≡ watches.old.vars }
    requires in_range { place < length clauses.now.list }
    ensures none { IfNone result (Tried clauses.now.list watches.old watches.new trail.old trail.new place) }
    ensures some { IfSome result (Failed clauses.now.list watches.old watches.new trail.old trail.new) }
{
    trail.known();
    watches.known();
    if let Some(_) = watches.watch_of(2 * place) {
        return None;
    }
    let clause = clauses.literals(place);
    let Some(first) = first_unfalse(clause, trail) else {
        return Some(clauses.number(place));
    };
    if let Some(second) = another_unfalse(clause, trail, first) {
        watches.attach_both(place, first, second);
        return None;
    }
    match trail.value(first) {
        Value::Yes => {
            watch_late(clauses, watches, trail, place, first);
            return None;
        }
        Value::No => unreachable!(),
        Value::Unset => {
            trail.imply(first, Reason::Clause(clauses.number(place)));
            trail.known();
            watch_late(clauses, watches, trail, place, first);
            return None;
        }
    }
}

/// Whether the negation of the literal stands on the trail, at that level or a higher one.
fn fell(trail: &Trail, lit: Lit, level: u32) -> bool
    requires { IsLitWithin trail.now.vars lit }
    ensures { OnTrue result (FellAt trail.now level lit) }
{
    trail.known();
    match trail.level_of(lit.var()) {
        Some(own) => own >= level,
        None => false,
    }
}

/// A literal of the clause other than `skip` that fell at that level or later.
fn late(clause: &[Lit], trail: &Trail, skip: Lit, level: u32) -> Option<Lit>
    requires { AllVars trail.now.vars clause.now }
    ensures { IfSome result (IsLate trail.now clause.now skip level) }
{
    for lit in clause {
        if lit.number() != skip.number() && fell(trail, *lit, level) {
            return Some(*lit);
        }
    }
    None
}

/// Watches a true literal of a clause that is due beside one that fell no earlier, if there is one, or alone if it is true
/// at level 0.
fn watch_late(clauses: &Clauses, watches: &mut Watches, trail: &Trail, place: usize, first: Lit)
    requires following { IsFollowing clauses.now.list watches.old trail.now }
    requires vars { clauses.now.vars ≡ watches.old.vars }
    requires in_range { place < length clauses.now.list }
    requires idle { watch_at watches.old.watched (2 * place) ≡ None }
    requires has { Stands (clause_at clauses.now.list place).lits first }
    requires holds { value_by trail.now.lits first ≡ Yes }
    ensures { Tried clauses.now.list watches.old watches.new trail.now trail.now place }
{
    trail.known();
    watches.known();
    let clause = clauses.literals(place);
    let Some(level) = trail.level_of(first.var()) else {
        return;
    };
    let Some(second) = late(clause, trail, first, level) else {
        if level > 0 {
            return;
        }
        watches.attach_both(place, first, first);
        return;
    };
    watches.attach_both(place, first, second);
}

/// Looks at each clause that may be due. Those that are watched now leave the list.
pub fn visit_due(
    clauses: &Clauses,
    watches: &mut Watches,
    trail: &mut Trail,
    due: &mut Vec<usize>,
) -> Option<u64>
    requires following { IsFollowing clauses.now.list watches.old trail.old }
    requires vars { clauses.now.vars ≡ watches.old.vars }
    requires due { DueKept clauses.now.list watches.old due.old.items }
    ensures none { IfNone result (DueVisited clauses.now.list watches.old watches.new trail.old trail.new due.new.items) }
    ensures some { IfSome result (Failed clauses.now.list watches.old watches.new trail.old trail.new) }
    ensures due { DueKept clauses.now.list watches.new due.new.items }
{
    let mut next = 0;
    'due: while next < due.len() {
        let place = due[next];
        if let Some(number) = try_due(clauses, watches, trail, place) {
            return Some(number);
        }
        next = drop_watched(clauses, watches, due, next, place);
    }
    None
}

/// The clause at the index leaves the list if it is watched. The answer is the next index to look at.
fn drop_watched(
    clauses: &Clauses,
    watches: &Watches,
    due: &mut Vec<usize>,
    next: usize,
    place: usize,
) -> usize
    requires within { next < vec_len due.old }
    requires place { slice_index_or due.old.items next 0 ≡ place }
    requires due { DueKept clauses.now.list watches.now due.old.items }
    requires count { 2 * length clauses.now.list ≡ length watches.now.watched }
    ensures { WatchedDropped clauses.now.list watches.now due.old.items due.new.items next result }
{
    watches.known();
    if let Some(_) = watches.watch_of(2 * place) {
        let _ = due.swap_remove(next);
        return next;
    }
    next + 1
}
