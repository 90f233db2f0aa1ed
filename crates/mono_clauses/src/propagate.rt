//! Clauses one of whose watched literals became false.

ghost use Rattle.std.specs.Prelude.{◌≡◌, ◌+◌, ◌*◌, ◌%◌, ◌-◌, Some, None, IfSome, IfNone};
ghost use Rattle.mono_base.specs.Literal.{IsLitWithin};
ghost use Rattle.mono_clauses.specs.Lists.{first_of};
ghost use Rattle.mono_clauses.specs.Store.{other};
ghost use Rattle.mono_clauses.specs.Visits.{IsVisiting, IsFollowing, IsDue, Looked, FoundFalse, Visited, Failed, Followed};

use crate::clauses::Clauses;
use crate::scan::next_watch;
use crate::watches::Watches;
use mono_base::{Lit, Value};
use mono_trail::{Reason, Trail};

/// The other watcher of the clause.
fn other_watcher(watcher: usize) -> usize
    ensures { result ≡ other watcher }
{
    watcher - watcher % 2 + (1 - watcher % 2)
}

/// Looks at the first watcher ahead, which watches a literal that became false. The answer is the number of its clause
/// where that is false.
fn visit_clause(
    clauses: &mut Clauses,
    watches: &mut Watches,
    trail: &mut Trail,
    lit: Lit,
    watcher: usize,
) -> Option<u64>
    requires visiting { IsVisiting clauses.old.list watches.old trail.old lit }
    requires vars { clauses.old.vars ≡ watches.old.vars }
    requires first { first_of watches.old.ahead ≡ Some watcher }
    ensures none { IfNone result (Looked clauses.old.list watches.old watches.new trail.old trail.new lit) }
    ensures some { IfSome result (FoundFalse clauses.old.list watches.old watches.new trail.old trail.new) }
    ensures same { clauses.new ≡ clauses.old }
{
    trail.known();
    clauses.known();
    let mate = watches.watch(other_watcher(watcher));
    if let Value::Yes = trail.value(mate) {
        watches.keep();
        return None;
    }
    if let Some(next) = next_watch(clauses, trail, watcher / 2, mate, lit) {
        clauses.set_cached(watcher / 2, lit);
        watches.shift(next);
        return None;
    }
    match trail.value(mate) {
        Value::Yes => {
            watches.keep();
            return None;
        }
        Value::No => return Some(clauses.number(watcher / 2)),
        Value::Unset => {
            trail.imply(mate, Reason::Clause(clauses.number(watcher / 2)));
            trail.known();
            watches.keep();
            return None;
        }
    }
}

/// Looks at the watchers of a literal that became false.
fn visit_watchers(
    clauses: &mut Clauses,
    watches: &mut Watches,
    trail: &mut Trail,
    lit: Lit,
) -> Option<u64>
    requires due { IsDue clauses.old.list watches.old trail.old lit }
    requires vars { clauses.old.vars ≡ watches.old.vars }
    requires in_range { IsLitWithin watches.old.vars lit }
    ensures none { IfNone result (Visited clauses.old.list watches.old watches.new trail.old trail.new) }
    ensures some { IfSome result (Failed clauses.old.list watches.old watches.new trail.old trail.new) }
    ensures same { clauses.new ≡ clauses.old }
{
    watches.start_visits(lit);
    'watchers: while let Some(watcher) = watches.first() {
        if let Some(number) = visit_clause(clauses, watches, trail, lit, watcher) {
            watches.close();
            return Some(number);
        }
    }
    None
}

/// Has the trail give its literals, and looks at the watchers of each one's negation.
pub fn follow(clauses: &mut Clauses, watches: &mut Watches, trail: &mut Trail) -> Option<u64>
    requires following { IsFollowing clauses.old.list watches.old trail.old }
    requires vars { clauses.old.vars ≡ watches.old.vars }
    ensures none { IfNone result (Followed clauses.old.list watches.old watches.new trail.old trail.new) }
    ensures some { IfSome result (Failed clauses.old.list watches.old watches.new trail.old trail.new) }
    ensures same { clauses.new ≡ clauses.old }
{
    'queue: while let Some(lit) = trail.next_due() {
        trail.known();
        if let Some(number) = visit_watchers(clauses, watches, trail, lit.negated()) {
            return Some(number);
        }
    }
    None
}
