//! Numbers that are drawn from a seed.

ghost use Rattle.std.specs.Prelude.{◌≤◌};

/// A linear congruential generator.
#[derive(Clone, Copy)]
pub struct Random {
    state: u64,
}

impl Random {
    /// One that starts at a seed.
    pub fn new(seed: u64) -> Random {
        Random { state: seed }
    }

    /// A number below another one, or 0.
    pub fn below(&mut self, limit: u64) -> u64
        ensures { result ≤ limit }
    {
        self.state = self
            .state
            .wrapping_mul(6364136223846793005)
            .wrapping_add(1442695040888963407);
        (self.state >> 33).checked_rem(limit).unwrap_or(0)
    }

    /// True once in so many times.
    pub fn once_in(&mut self, times: u64) -> bool {
        self.below(times) == 0
    }
}
