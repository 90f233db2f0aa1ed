//! Tables of examples that were worked by hand.

ghost use Rattle.std.specs.Prelude.{◌≡◌, ◌≤◌};
ghost use Rattle.mono_base.specs.Literal.{var_of};

use super::{assert_same, assert_same_at};
use mono_base::{Lit, LitSet, Name, Row, numbers_below};
use std::process::Abort;
use std::test::Fail;

/// A step with a set of literals.
#[derive(Clone, Copy)]
enum Step {
    Insert(i32),
    Remove(i32),
    Clear,
}

/// The literal of a number from 1 to 3 or of its negative.
fn small(rt: &impl Abort, number: i32) -> Lit
    ensures { var_of result ≤ 3 }
{
    let lit = Lit::new(number).expect(rt, "a literal");
    assert!(rt; lit.var() <= 3);
    lit
}

/// Asserts that the set has these members and no other literal.
fn assert_members(rt: &impl Abort, set: &LitSet, members: &[i32])
    requires { set.now.vars ≡ 3 }
{
    assert_same(rt, set.members().len(), members.len());
    for number in [-3, -2, -1, 1, 2, 3] {
        let is_member = set.has(small(rt, number));
        assert_same_at(rt, &number, is_member, members.contains(&number));
    }
}

#[test]
fn numbers_that_are_literals(rt: HostRuntime) {
    for (number, is_literal) in [
        (0, false),
        (1, true),
        (-1, true),
        (1_000_000, true),
        (-1_000_000, true),
        (1_000_001, false),
        (-1_000_001, false),
        (i32::MAX, false),
        (i32::MIN, false),
    ] {
        assert_same_at(&rt, &number, Lit::new(number).is_some(), is_literal);
    }
}

#[test]
fn parts_of_literals(rt: HostRuntime) {
    for (number, var, is_positive, opposite) in [
        (1, 1, true, -1),
        (-1, 1, false, 1),
        (12, 12, true, -12),
        (1_000_000, 1_000_000, true, -1_000_000),
        (-1_000_000, 1_000_000, false, 1_000_000),
    ] {
        let lit = Lit::new(number).expect(&rt, "a literal");
        assert_same(&rt, lit.number(), number);
        assert_same_at(&rt, &number, lit.var(), var);
        assert_same_at(&rt, &number, lit.is_positive(), is_positive);
        assert_same_at(&rt, &number, lit.negated().number(), opposite);
    }
}

#[test]
fn rows_keep_their_items(rt: HostRuntime) -> Result<(), Fail> {
    let row = Row::from_vec(vec![in rt.alloc(); 3u32, 1, 3]?);
    assert_same(&rt, row.as_slice(), [3, 1, 3].as_slice());
    let items = row.into_vec();
    assert_same(&rt, items.as_slice(), [3, 1, 3].as_slice());
    Ok(())
}

#[test]
fn numbers_stand_in_their_own_order(rt: HostRuntime) -> Result<(), Fail> {
    let numbers = [0, 1, 2, 3];
    for count in 0..numbers.len() {
        let below = numbers_below(rt.alloc(), count as u32)?;
        assert_same(&rt, below.as_slice(), &numbers[..count]);
    }
    Ok(())
}

#[test]
fn names_keep_their_text(rt: HostRuntime) -> Result<(), Fail> {
    for text in ["", "p cnf 3 2", "größer"] {
        let name = Name::from_string(String::from_str(rt.alloc(), text)?);
        assert_same(&rt, name.as_str(), text);
    }
    Ok(())
}

#[test]
fn sets_have_what_was_put_in(rt: HostRuntime) -> Result<(), Fail> {
    let mut set = LitSet::new(rt.alloc(), 3)?;
    assert_members(&rt, &set, [].as_slice());
    for (step, members) in [
        (Step::Insert(2), [2].as_slice()),
        (Step::Insert(2), [2].as_slice()),
        (Step::Insert(-2), [2, -2].as_slice()),
        (Step::Insert(3), [2, -2, 3].as_slice()),
        (Step::Remove(1), [2, -2, 3].as_slice()),
        (Step::Remove(2), [-2, 3].as_slice()),
        (Step::Remove(2), [-2, 3].as_slice()),
        (Step::Remove(-2), [3].as_slice()),
        (Step::Insert(2), [3, 2].as_slice()),
        (Step::Clear, [].as_slice()),
        (Step::Remove(3), [].as_slice()),
        (Step::Insert(-1), [-1].as_slice()),
        (Step::Insert(-3), [-1, -3].as_slice()),
        (Step::Remove(-3), [-1].as_slice()),
        (Step::Remove(-1), [].as_slice()),
    ] {
        match step {
            Step::Insert(number) => set.insert(small(&rt, number)),
            Step::Remove(number) => set.remove(small(&rt, number)),
            Step::Clear => set.clear(),
        }
        assert_members(&rt, &set, members);
    }
    Ok(())
}

#[test]
fn sets_at_the_limits(rt: HostRuntime) -> Result<(), Fail> {
    let mut none = LitSet::new(rt.alloc(), 0)?;
    none.clear();
    assert!(rt; none.members().is_empty());
    let mut all = LitSet::new(rt.alloc(), 1_000_000)?;
    let last = Lit::new(1_000_000).expect(&rt, "a literal");
    all.insert(last.negated());
    assert!(rt; all.has(last.negated()));
    assert!(rt; !all.has(last));
    all.insert(last);
    assert_same(&rt, all.members().len(), 2);
    Ok(())
}
