//! Numbers drawn from a seed (xorshift, Marsaglia 2003).

ghost use Rattle.std.specs.Prelude.{◌<◌};

/// The numbers that follow from a seed.
#[derive(Drop)]
pub struct Draws {
    state: u64,
}

impl Draws {
    /// The numbers of a seed.
    pub fn new(seed: u64) -> Draws {
        Draws {
            state: seed ^ 0x9e37_79b9_7f4a_7c15,
        }
    }

    /// The next number, below a bound.
    pub fn below(&mut self, bound: u32) -> u32
        requires { 0 < bound }
        ensures { result < bound }
    {
        self.state ^= self.state << 13;
        self.state ^= self.state >> 7;
        self.state ^= self.state << 17;
        (self.state % u64::from(bound)) as u32
    }
}
