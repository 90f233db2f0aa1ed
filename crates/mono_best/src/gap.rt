//! What a leap has found, and between which bounds it goes on. Bounds are told by their numbers.

ghost use Rattle.std.specs.Prelude.{◌≡◌, ◌<◌, ◌≤◌, ◌+◌, Some, None, IsTrue};

use mono_base::Row;
use mono_base::limits::MAX_BOUND;

/// How many searches of a leap may spend their budget: where one does, those before and behind it most often do too.
const PATIENCE: u32 = 3;

/// A model, and the number of the bound that it meets.
#[derive(Drop)]
pub(crate) struct Found {
    pub(crate) model: Row<bool>,
    pub(crate) number: u64,
}

/// The bounds between which a leap goes on, and its last model.
#[derive(Drop)]
pub(crate) struct Gap {
    pub(crate) found: Option<Found>,
    /// Behind this number questions go on: it is asked for once the leap has ended.
    pub(crate) low: u64,
    /// Before this number they do: no search found a model with its bound, or no edges give it.
    pub(crate) high: u64,
    pub(crate) step: u64,
    /// Whether questions go down from `high`, until there is a model, and not up from `low`.
    pub(crate) falls: bool,
    /// How many more searches may spend their budget.
    pub(crate) patience: u32,
}

/// The step, where it is from 1 to the most.
fn within(step: u64, most: u64) -> u64
    requires { 1 ≤ most }
    ensures low { 1 ≤ result }
    ensures high { result ≤ most }
{
    if step == 0 {
        return 1;
    }
    if most < step {
        return most;
    }
    step
}

/// A step of twice the length, as long as there are longer ones.
fn doubled(step: u64) -> u64 {
    if step < MAX_BOUND {
        return 2 * step;
    }
    step
}

impl Gap {
    /// The gap between two numbers, before the first question.
    pub(crate) fn new(low: u64, high: u64) -> Gap
        ensures found { result.found ≡ None }
        ensures low { result.low ≡ low }
        ensures high { result.high ≡ high }
    {
        Gap {
            found: None,
            low,
            high,
            step: 1,
            falls: true,
            patience: PATIENCE,
        }
    }

    /// Whether there is a bound between the two, and it is worth a question.
    pub(crate) fn is_open(&self) -> bool
        ensures { IsTrue result → self.now.low + 1 < self.now.high }
    {
        0 < self.patience && self.low < self.high && 1 < self.high - self.low
    }

    /// The number that is asked for next. Upwards it is at most half way.
    pub(crate) fn asked(&self) -> u64
        requires { self.now.low + 1 < self.now.high }
        ensures low { self.now.low < result }
        ensures high { result < self.now.high }
    {
        let room = self.high - self.low;
        if self.falls {
            self.high - within(self.step / 2, room - 1)
        } else {
            self.low + within(self.step, room / 2)
        }
    }
}

/// What is left of the gap behind this model.
pub(crate) fn risen(gap: Gap, found: Found) -> Gap
    requires { found.number ≤ MAX_BOUND + 1 }
    ensures found { result.found ≡ Some found }
    ensures low { result.low ≡ found.number + 1 }
    ensures high { result.high ≡ gap.high }
{
    let low = found.number + 1;
    Gap {
        found: Some(found),
        low,
        high: gap.high,
        step: doubled(gap.step),
        falls: false,
        patience: gap.patience,
    }
}

/// What is left of it before a number whose bound no search met. Where the search was spent, there is less patience.
pub(crate) fn lowered(gap: Gap, asked: u64, spent: bool) -> Gap
    ensures found { result.found ≡ gap.found }
    ensures low { result.low ≡ gap.low }
    ensures high { result.high ≡ asked }
{
    let patience = if spent {
        gap.patience.saturating_sub(1)
    } else {
        gap.patience
    };
    let step = if gap.falls {
        doubled(gap.step)
    } else {
        gap.step
    };
    Gap {
        found: gap.found,
        low: gap.low,
        high: asked,
        step,
        falls: gap.falls,
        patience,
    }
}
