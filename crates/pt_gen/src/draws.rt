//! Numbers that look as if they were drawn at random, and are the same for a seed at each run.

ghost use Rattle.std.specs.Prelude.{◌≡◌, ◌<◌, ◌^◌};
ghost use Rattle.pt_gen.specs.Draws.{stepped, drawn};

use std::marker::Model;

/// A linear congruential generator with the constants of Knuth's MMIX.
#[derive(Drop)]
pub struct Draws {
    state: u64,
}

impl Model for Draws {
    ghost use Rattle.std.specs.Prelude.{ℕ};

    ghost Value = { ℕ };

    ghost view = { λ draws. draws.state };
}

impl Draws {
    pub fn new(seed: u64) -> Self
        ensures { result ≡ seed }
    {
        Draws { state: seed }
    }

    /// The next number, of 31 bits.
    pub fn draw(&mut self) -> u32
        ensures state { self.new ≡ stepped self.old }
        ensures drawn { result ≡ drawn self.new }
        ensures small { result < 2 ^ 31 }
    {
        self.state = self
            .state
            .wrapping_mul(6_364_136_223_846_793_005)
            .wrapping_add(1_442_695_040_888_963_407);
        (self.state >> 33) as u32
    }
}
