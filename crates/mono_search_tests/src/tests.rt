//! Calls of theories, of searches and of teams, and what they come to.

use std::fmt::Debug;
use std::process::Abort;

mod drawn;
mod handing;
mod search;
mod teams;

/// Both values are equal. In a function of its own, the assertion is proved once.
fn assert_same<T: PartialEq + Debug + Drop>(rt: &impl Abort, got: T, want: T) {
    assert_eq!(rt; got, want);
}
