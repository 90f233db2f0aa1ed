//! Which calls of an object in memory are to fail, by their numbers from 1.
ghost use Rattle.std.specs.Prelude.{◌≡◌, [], ◌∷◌, ◌++◌, IsTrue, IsFalse, OnOk, OnErr};
ghost use Rattle.mono_io.specs.Faults.{counted};
ghost use Rattle.mono_io.specs.FaultPlan.{next_is_listed, is_over};

use crate::Failed;
use std::alloc::{AllocError, Global};
use std::marker::Model;

#[derive(Drop)]
pub(crate) struct FaultPlan {
    calls: u64,
    listed: Vec<u64>,
    faults: u64,
}

impl Model for FaultPlan {
    ghost use Rattle.mono_io.specs.FaultPlan.{Plan};

    ghost Value = { Plan };

    ghost view = { λ plan. record { calls = plan.calls; listed = plan.listed.items; faults = plan.faults } };
}

impl FaultPlan {
    pub(crate) fn new(alloc: Global) -> Self
        ensures { result ≡ record { calls = 0; listed = []; faults = 0 } }
    {
        FaultPlan {
            calls: 0,
            listed: Vec::new(alloc),
            faults: 0,
        }
    }

    pub(crate) fn fail_at(&mut self, call: u64) -> Result<(), AllocError>
        ensures ok { OnOk result (self.new ≡ record self.old { listed = self.old.listed ++ call ∷ [] }) }
        ensures err { OnErr result (self.new ≡ self.old) }
    {
        self.listed.push(call)?;
        Ok(())
    }

    /// Counts a call, and says whether it is to fail.
    pub(crate) fn count_call(&mut self) -> bool
        ensures listed { result ≡ next_is_listed self.old }
        ensures counted { self.new ≡ record self.old { calls = counted self.old.calls } }
        ensures over { IsTrue (is_over self.old) → IsFalse result }
        ensures steady { IsTrue (is_over self.old) → IsTrue (is_over self.new) }
    {
        match self.calls.checked_add(1) {
            Some(call) => {
                self.calls = call;
                self.listed.contains(&call)
            }
            None => false,
        }
    }

    /// Counts a fault.
    pub(crate) fn fault(&mut self) -> Failed
        ensures { self.new ≡ record self.old { faults = counted self.old.faults } }
    {
        self.faults = self.faults.saturating_add(1);
        Failed
    }
}
