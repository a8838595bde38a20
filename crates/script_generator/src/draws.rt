//! Pseudo-random numbers.
ghost use Rattle.std.specs.Prelude.{◌≡◌, ◌<◌};
ghost use Rattle.script_generator.specs.Draws.{next_state, drawn};

use std::marker::Model;

/// What a state is multiplied by: the multiplier of D. E. Knuth's generator for MMIX (The Art of Computer Programming,
/// volume 2, third edition, section 3.3.4).
pub const MULTIPLIER: u64 = 6364136223846793005;

/// What is added to the product: the increment of the same generator.
pub const INCREMENT: u64 = 1442695040888963407;

/// A linear congruential generator modulo 2^64, modelled by its state. A draw takes a step and gives the upper 31 bits
/// of the new state, since the lower bits of such a generator have short periods. Do not use it for secrets.
#[derive(Drop)]
pub struct Draws {
    state: u64,
}

impl Model for Draws {
    ghost use Rattle.std.specs.Prelude.{ℕ};

    ghost Value = { ℕ };

    ghost view = { λ d. d.state };
}

impl Draws {
    /// The draws that follow a state.
    pub fn new(state: u64) -> Draws
        ensures { result ≡ state }
    {
        Draws { state }
    }

    /// The next number, below `limit`. For a limit below 2^31 numbers are nearly equally likely: their chances differ
    /// by one in 2^31.
    #[tactic(auto, using(crate::proofs::Steps::next_is), unfolding(crate::specs::Draws::drawn))]
    pub fn draw(&mut self, limit: u64) -> u64
        requires { 0 < limit }
        ensures number { result ≡ drawn limit self.old }
        ensures below { result < limit }
        ensures state { self.new ≡ next_state self.old }
    {
        self.state = self.state.wrapping_mul(MULTIPLIER).wrapping_add(INCREMENT);
        (self.state >> 33) % limit
    }
}
