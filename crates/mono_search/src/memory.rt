//! What a search remembers of signs, and how it turns them at restarts.
//!
//! The signs of the longest quiet trail are remembered and saved when the search begins anew, since what was nearly a model
//! is a good place to go on from. And where the stretch up to the next restart is a short one, it is a *probe*: it follows
//! another leaning, and the main signs are put back behind it. So one bad leaning costs a few short stretches, and one that
//! is right where the search's own is wrong gets its turn.
//!
//! No answer rests on any of this. Signs are turned only of variables that had values after they were preferred.

ghost use Rattle.std.specs.Prelude.{◌≡◌, ◌≤◌, ℕ, false, length};
ghost use Rattle.mono_base.specs.Literal.{value_in};
ghost use Rattle.mono_base.specs.declared.limits.TheConstants.{MAX_VARS};
ghost use Rattle.mono_trail.specs.Moves.{IsVar};

use mono_base::Lit;
use mono_problem::Problem;
use mono_trail::{Order, Trail};
use std::alloc::{AllocError, Global};

/// With a stretch of so many units another trail may become the longest that is remembered: what was nearly a model may be
/// far from any.
const LONG: u64 = 4;

/// What decisions follow up to the next restart.
#[derive(Clone, Copy, Debug, PartialEq, Eq)]
enum Leaning {
    /// The search's own signs.
    Main,
    /// A probe: false signs, and true where a theory prefers that.
    Witnesses,
    /// A probe: true signs.
    Present,
    /// A probe: false signs, whatever theories prefer.
    Absent,
    /// A probe: the signs of the longest quiet trail.
    Longest,
}

/// What a search remembers of signs, by variable, variable 1 first.
pub(crate) struct Memory {
    /// The sign on the longest quiet trail, where the variable stood there.
    longest: Vec<Option<bool>>,
    /// How many literals that trail had.
    len: usize,
    /// The main signs, while a probe is under way.
    main: Vec<bool>,
    leaning: Leaning,
    /// How many probes there were.
    probes: u32,
    /// Whether theories may prefer something.
    has_theories: bool,
}

impl Drop for Memory {
    fn drop(self) {
        let Memory {
            longest: _,
            len: _,
            main: _,
            leaning: _,
            probes: _,
            has_theories: _,
        } = self;
    }
}

impl Memory {
    /// Nothing is remembered.
    pub(crate) fn new(alloc: Global, problem: &Problem) -> Result<Memory, AllocError> {
        let vars = problem.vars() as usize;
        let longest = vec![in alloc; None; vars]?;
        let main = vec![in alloc; false; vars]?;
        Ok(Memory {
            longest,
            len: 0,
            main,
            leaning: Leaning::Main,
            probes: 0,
            has_theories: problem.atom_count() > 0,
        })
    }

    /// The literals below the present level were quiet: their signs are remembered where none so many were before.
    pub(crate) fn remember(&mut self, trail: &Trail) {
        let quiet = trail.count_to(trail.level().saturating_sub(1));
        if quiet > self.len {
            forget(&mut self.longest);
            note(&mut self.longest, &trail.lits()[..quiet]);
            self.len = quiet;
        }
    }

    /// The literals' signs are preferred: no restart turns them before their variables get values.
    pub(crate) fn prefer(&mut self, lits: &[Lit]) {
        for lit in lits {
            let index = lit.var() as usize - 1;
            if let Some(sign) = self.main.get_mut(index) {
                *sign = lit.is_positive();
            }
            if let Some(known) = self.longest.get_mut(index) {
                *known = None;
            }
        }
    }

    /// Where the search begins anew, the signs for the stretch up to the next restart, of which `term` is Luby's: a probe where
    /// it is short.
    pub(crate) fn turn(&mut self, order: &mut Order, trail: &Trail, anew: bool, term: u64)
        requires { length order.old.waits ≡ trail.now.vars }
        ensures waits { order.new.waits ≡ order.old.waits }
        ensures as_before { anew ≡ false → order.new ≡ order.old }
    {
        trail.known();
        if anew {
            self.begin(order, trail.vars(), term);
        }
    }

    /// The signs for the stretch that begins.
    fn begin(&mut self, order: &mut Order, vars: u32, term: u64)
        requires vars { length order.old.waits ≡ vars }
        requires few { vars ≤ MAX_VARS }
        ensures { order.new.waits ≡ order.old.waits }
    {
        self.end_probe(order, vars);
        keep(&mut self.main, order, vars);
        self.choose(term == 1);
        save_known(order, self.longest.as_slice(), self.leaning, vars);
        if term >= LONG {
            self.len = 0;
        }
    }

    /// Behind a probe the main signs are put back.
    fn end_probe(&mut self, order: &mut Order, vars: u32)
        requires vars { length order.old.waits ≡ vars }
        requires few { vars ≤ MAX_VARS }
        ensures { order.new.waits ≡ order.old.waits }
    {
        if self.leaning != Leaning::Main {
            put_back(order, self.main.as_slice(), vars);
        }
    }

    /// The leaning of a stretch, which is a probe where it is short: one after the other.
    fn choose(&mut self, is_short: bool) {
        if !is_short {
            self.leaning = Leaning::Main;
            return;
        }
        self.leaning = probe(self.probes, self.has_theories);
        self.probes = self.probes.wrapping_add(1);
    }

    /// Whether the edges that theories want are decided first, and then whether those of the last theory come first.
    pub(crate) fn leads(&self) -> Option<bool> {
        match self.leaning {
            Leaning::Witnesses => Some(false),
            Leaning::Absent => Some(true),
            Leaning::Main | Leaning::Present | Leaning::Longest => None,
        }
    }

    /// Whether decisions follow what theories prefer, where the main ones do.
    pub(crate) fn follows(&self, main: bool) -> bool {
        match self.leaning {
            Leaning::Witnesses => true,
            Leaning::Absent => false,
            Leaning::Main | Leaning::Present | Leaning::Longest => main,
        }
    }
}

impl Leaning {
    /// The sign by which a variable is decided first, from that on the longest quiet trail.
    fn sign(self, longest: bool) -> bool {
        match self {
            Leaning::Main | Leaning::Longest => longest,
            Leaning::Witnesses | Leaning::Absent => false,
            Leaning::Present => true,
        }
    }
}

/// The leaning of a probe, from how many there were before.
fn probe(number: u32, has_theories: bool) -> Leaning {
    match (number % 4, has_theories) {
        (0, true) => Leaning::Witnesses,
        (2, true) => Leaning::Absent,
        (0 | 2, false) | (1, true) => Leaning::Present,
        _ => Leaning::Longest,
    }
}

/// No sign is known.
fn forget(longest: &mut [Option<bool>]) {
    for known in longest {
        *known = None;
    }
}

/// The signs of these literals are known.
fn note(longest: &mut Vec<Option<bool>>, lits: &[Lit]) {
    for lit in lits {
        if let Some(known) = longest.get_mut(lit.var() as usize - 1) {
            *known = Some(lit.is_positive());
        }
    }
}

/// The signs by which variables are decided now are the main ones.
fn keep(main: &mut Vec<bool>, order: &Order, vars: u32)
    requires { length order.now.waits ≡ vars }
{
    let count = main.len().min(vars as usize);
    for place in 0..count {
        main[place] = order.phase(place as u32 + 1);
    }
}

/// The main signs are saved again.
fn put_back(order: &mut Order, main: &[bool], vars: u32)
    requires vars { length order.old.waits ≡ vars }
    requires few { vars ≤ MAX_VARS }
    ensures waits { order.new.waits ≡ order.old.waits }
    ensures back { length order.old.phases ≡ vars → (v : ℕ) → IsVar vars v → v ≤ length main.now → value_in order.new.phases v ≡ value_in main.now v }
{
    let count = main.len().min(vars as usize);
    for place in 0..count {
        order.save(Lit::of(place as u32 + 1, main[place]));
    }
}

/// Of each variable whose sign on the longest quiet trail is known, that sign is saved, or what the leaning makes of it.
fn save_known(order: &mut Order, longest: &[Option<bool>], leaning: Leaning, vars: u32)
    requires vars { length order.old.waits ≡ vars }
    requires few { vars ≤ MAX_VARS }
    ensures { order.new.waits ≡ order.old.waits }
{
    let count = longest.len().min(vars as usize);
    for place in 0..count {
        if let Some(sign) = longest[place] {
            order.save(Lit::of(place as u32 + 1, leaning.sign(sign)));
        }
    }
}
