//! Luby's sequence of restarts (Luby, Sinclair and Zuckerman, 1993).

ghost use Rattle.std.specs.Prelude.{◌≡◌, ◌≤◌, ◌<◌, ◌^◌, suc, ℕ};
ghost use Rattle.mono_trail.specs.Luby.{Luby};

/// The k-th term of the sequence 1, 1, 2, 1, 1, 2, 4, 1, 1, 2, 1, 1, 2, 4, 8 and so on, from the first.
pub fn luby(k: u64) -> u64
    requires { 1 ≤ k }
    ensures { Luby k result }
{
    let power = highest_power(k);
    if k - power == power - 1 {
        return power;
    }
    luby(k - power + 1)
}

/// The greatest power of two that is at most this number.
fn highest_power(k: u64) -> u64
    requires { 1 ≤ k }
    ensures { (i : ℕ) × (result ≡ 2 ^ i) × (result ≤ k) × (k < 2 ^ suc i) }
{
    1 << (63 - k.leading_zeros())
}
