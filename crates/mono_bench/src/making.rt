//! Clauses, drawn by a linear congruential generator.

ghost use Rattle.std.specs.Prelude.{◌≡◌, ◌<◌, ◌≤◌};

use mono_base::Lit;
use std::alloc::AllocError;

/// How many clauses of which lengths there are, and how they are decided on.
#[derive(Clone, Copy)]
pub struct Kind {
    pub vars: u32,
    /// Clauses of three literals, of two, and of 8 to 39.
    pub threes: u32,
    pub twos: u32,
    pub longs: u32,
    /// Whether each clause has a literal that the hidden assignment makes true.
    pub planted: bool,
    /// One of so many decisions goes against the hidden assignment; 0 for none.
    pub flips: u32,
}

/// The kinds: random clauses; a hidden model; some long clauses and wrong decisions; many of both; long watch lists; and a
/// small one.
pub fn kind_of(number: u64) -> Kind
    ensures few { result.vars ≤ 50000 }
    ensures some { 1 ≤ result.vars }
{
    let (vars, threes, twos, longs, planted, flips) = match number {
        0 => (50_000, 200_000, 100_000, 0, false, 0),
        1 => (50_000, 200_000, 50_000, 0, true, 0),
        2 => (50_000, 150_000, 50_000, 20_000, true, 10),
        3 => (5000, 15_000, 5000, 60_000, true, 10),
        4 => (2000, 8000, 2000, 200_000, true, 0),
        _ => (100, 300, 100, 50, true, 0),
    };
    Kind {
        vars,
        threes,
        twos,
        longs,
        planted,
        flips,
    }
}

/// A linear congruential generator.
#[derive(Drop)]
pub struct Draw {
    pub state: u64,
}

impl Draw {
    /// A number below the bound.
    pub fn below(&mut self, bound: u32) -> u32
        requires { 1 ≤ bound }
        ensures { result < bound }
    {
        self.state = self
            .state
            .wrapping_mul(6364136223846793005)
            .wrapping_add(1442695040888963407);
        let high = self.state >> 33;
        (high % bound as u64) as u32
    }
}

/// The sign of a variable under the hidden assignment.
pub fn hidden(var: u32) -> bool {
    (var.wrapping_mul(2654435761) >> 9) & 1 == 1
}

/// How long the clause at a place is, but for variables that are drawn twice.
fn length_of(kind: &Kind, place: u32, draw: &mut Draw) -> u32 {
    if place < kind.threes {
        return 3;
    }
    if place - kind.threes < kind.twos {
        return 2;
    }
    8 + draw.below(32)
}

/// Makes the clause at a place in the buffer.
pub fn make(
    kind: &Kind,
    place: u32,
    draw: &mut Draw,
    clause: &mut Vec<Lit>,
) -> Result<(), AllocError>
    requires few { kind.now.vars ≤ 50000 }
    requires some { 1 ≤ kind.now.vars }
{
    clause.clear();
    let length = length_of(kind, place, draw);
    let mut is_true = false;
    for _ in 0..length {
        let var = draw.below(kind.vars) + 1;
        let negative = draw.below(2) == 1;
        if has_var(clause, var) {
            continue;
        }
        let number = if negative { -(var as i32) } else { var as i32 };
        if let Some(lit) = Lit::new(number) {
            clause.push(lit)?;
        }
        is_true = is_true | (hidden(var) != negative);
    }
    if kind.planted && !is_true && !clause.is_empty() {
        clause[0] = clause[0].negated();
    }
    Ok(())
}

fn has_var(clause: &Vec<Lit>, var: u32) -> bool {
    for lit in clause.as_slice() {
        if lit.var() == var {
            return true;
        }
    }
    false
}
