//! The order of decision: variables by activity (Moskewicz et al., 2001; Een and Sorensson, 2003).
//!
//! The variables that wait stand in a binary heap, the most active first. Activities are whole numbers: a bump adds the
//! present increment, and a decay makes the increment greater instead of making every activity less. Before a number
//! would pass its range, all of them are scaled down, which keeps their order. A variable that is held back comes last,
//! and no bump changes that.

ghost use Rattle.std.specs.Prelude.{◌≡◌, ◌≤◌, ◌-◌, ◌<◌, length, true, IfOk, IfSome, IfNone, slice_set, pos, int_lt};
ghost use Rattle.mono_base.specs.Literal.{var_of, value_in, IsLitWithin};
ghost use Rattle.mono_base.specs.Partial.{is_open_in};
ghost use Rattle.mono_trail.specs.Moves.{IsVar};

use crate::heap::Heap;
use crate::trail::Trail;
use mono_base::Lit;
use mono_base::limits::MAX_VARS;
use std::alloc::{AllocError, Global};
use std::marker::Model;

/// The order in which variables are decided, and of each variable the sign that was saved last.
///
/// Contracts see which variables stand in the order, and the signs. The activities decide which variable comes first,
/// and no contract tells them. No call but `new` takes memory.
#[derive(Drop)]
pub struct Order {
    heap: Heap,
    phases: Vec<bool>,
}

impl Model for Order {
    ghost use Rattle.std.specs.Prelude.{◌≡◌, length};
    ghost use Rattle.mono_trail.specs.Order.{OrderView};

    ghost Value = { OrderView };

    ghost view = { λ o. record { waits = o.heap; phases = o.phases.items } };

    ghost invariant = { λ o. length o.phases.items ≡ length o.heap };
}

impl Order {
    ghost use Rattle.mono_trail.specs.Order.{all_wait, AllOpenWait, Leaves, AllLeave, NoneOpen};

    /// The order in which each variable from 1 to `vars` stands, with the sign false. There are at most 1,000,000 of them.
    pub fn new(alloc: Global, vars: u32) -> Result<Order, AllocError>
        requires { vars ≤ MAX_VARS }
        ensures { IfOk result (λ o. o ≡ all_wait vars) }
    {
        let heap = Heap::new(alloc, vars)?;
        let phases = vec![in alloc; false; vars as usize]?;
        Ok(Order { heap, phases })
    }

    /// An open variable, which leaves the order, and so do the assigned ones before it. `None` exactly where no variable
    /// is open: then all have left.
    ///
    /// Each open variable has to stand in the order.
    pub fn pick(&mut self, trail: &Trail) -> Option<u32>
        requires vars { trail.now.vars ≡ length self.old.waits }
        requires wait { AllOpenWait self.old trail.now.lits }
        ensures some { IfSome result (λ v. Leaves self.old self.new trail.now.lits v) }
        ensures none { IfNone result (NoneOpen trail.now.vars trail.now.lits × AllLeave self.old self.new) }
    {
        while let Some(var) = self.heap.pop() {
            if is_open(trail, var) {
                return Some(var);
            }
        }
        None
    }

    /// The variable stands in the order, whether it stood there before or not.
    pub fn give_back(&mut self, var: u32)
        requires { IsVar (length self.old.waits) var }
        ensures { self.new ≡ record self.old { waits = slice_set self.old.waits (var - 1) true } }
    {
        self.heap.insert(var);
    }

    /// The variable becomes more active, and so comes earlier, unless it is held back.
    pub fn bump(&mut self, var: u32)
        requires { IsVar (length self.old.waits) var }
        ensures { self.new ≡ self.old }
    {
        self.heap.bump(var);
    }

    /// The variable comes behind all that aren't held back, whatever is bumped.
    pub fn hold_back(&mut self, var: u32)
        requires { IsVar (length self.old.waits) var }
        ensures { self.new ≡ self.old }
    {
        self.heap.hold_back(var);
    }

    /// Earlier bumps count for less from now on: for 16 parts of 17.
    pub fn decay(&mut self)
        ensures { self.new ≡ self.old }
    {
        self.heap.decay();
    }

    /// The sign that was saved last for the variable, at first false.
    pub fn phase(&self, var: u32) -> bool
        requires { IsVar (length self.now.waits) var }
        ensures { result ≡ value_in self.now.phases var }
    {
        self.phases[var as usize - 1]
    }

    /// Saves the literal's sign for its variable.
    pub fn save(&mut self, lit: Lit)
        requires { IsLitWithin (length self.old.waits) lit }
        ensures { self.new ≡ record self.old { phases = slice_set self.old.phases (var_of lit - 1) (int_lt (pos 0) lit) } }
    {
        self.phases[lit.var() as usize - 1] = lit.is_positive();
    }
}

/// Whether the variable has no value.
fn is_open(trail: &Trail, var: u32) -> bool
    requires { IsVar trail.now.vars var }
    ensures { result ≡ is_open_in trail.now.lits (pos var) }
{
    trail.place_of(var).is_none()
}
