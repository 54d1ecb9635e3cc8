// A generator of random words.
ghost use Rattle.std.specs.Prelude.{◌≡◌};
ghost use Rattle.ken_num.specs.Generator.{next_state, answer_of};

use std::marker::Model;

const MULTIPLIER: u64 = 6_364_136_223_846_793_005;

const INCREMENT: u64 = 1_442_695_040_888_963_407;

/// How many low bits of the state an answer leaves out.
const LOW_BITS: u32 = 33;

/// A linear congruential generator with a state of 64 bits. It answers with the upper 31 of them.
#[derive(Debug, Drop)]
pub struct Lcg {
    state: u64,
}

impl Model for Lcg {
    ghost use Rattle.std.specs.Prelude.{ℕ};

    ghost Value = { ℕ };

    ghost view = { λ g. g.state };
}

impl Lcg {
    /// A generator in the state `x`.
    pub fn new(x: u64) -> Self
        ensures { result ≡ x }
    {
        Lcg { state: x }
    }

    /// Takes a step, and answers the next word: a number below 2^31.
    pub fn next(&mut self) -> u64
        ensures state { self.new ≡ next_state self.old }
        ensures answer { result ≡ answer_of self.new }
    {
        self.state = self.state.wrapping_mul(MULTIPLIER).wrapping_add(INCREMENT);
        self.state >> LOW_BITS
    }
}
