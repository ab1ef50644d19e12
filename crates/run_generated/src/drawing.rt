//! The generator from which the input is drawn: linear congruential, modulo 2^64; a draw gives its upper 31 bits.
ghost use Rattle.std.specs.Prelude.{◌≡◌, ◌<◌, ◌/◌, ◌%◌, ◌^◌};
ghost use Rattle.run_generated.specs.Drawing.{next};

use std::marker::Model;

/// The factor of a draw (D. E. Knuth's MMIX).
const FACTOR: u128 = 6_364_136_223_846_793_005;

/// What a draw adds.
const TERM: u128 = 1_442_695_040_888_963_407;

/// Draws the blocks of an input, one after another. Contracts see its state.
#[derive(Clone, Copy, Debug)]
pub struct Generator {
    state: u64,
}

impl Model for Generator {
    ghost use Rattle.std.specs.Prelude.{ℕ};

    ghost Value = { ℕ };

    ghost view = { λ generator. generator.state };

    ghost inverse = { λ state. record { state = state } };
}

impl Generator {
    /// The generator of a seed, before its first block.
    pub fn new(seed: u64) -> Generator
        ensures { result ≡ seed }
    {
        Generator { state: seed }
    }

    /// The upper 31 bits of the state after a draw.
    #[tactic(auto, unfolding(crate::specs::Drawing::next))]
    fn draw(&mut self) -> u64
        ensures state { self.new ≡ next self.old }
        ensures value { result ≡ next self.old / 2 ^ 33 }
    {
        let next = (FACTOR * self.state as u128 + TERM) % (1 << 64);
        self.state = next as u64;
        self.state / (1 << 33)
    }

    /// A number below `n`, drawn.
    pub(crate) fn pick(&mut self, n: u64) -> u64
        requires { 0 < n }
        ensures state { self.new ≡ next self.old }
        ensures value { result ≡ next self.old / 2 ^ 33 % n }
        ensures below { result < n }
    {
        self.draw() % n
    }
}
