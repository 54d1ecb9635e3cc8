// An oracle that answers draws that it was given.
ghost use Rattle.std.specs.Prelude.{◌≡◌, ℕ, ◌+◌, ◌-◌, ◌^◌, min, List, [], None, false, slice_index};
ghost use Rattle.ken_trial.specs.Given.{answers_told};

use ken_app::Oracle;
use std::marker::{Brand, PhantomData};

/// The draws that an oracle was given, for contracts alone: a call picks them.
pub(crate) trait Draws {
    ghost draws: { List ℕ };
}

impl Draws for Brand {
    ghost draws = { [] };
}

/// An oracle that answers with the given draws in their order, whether it is asked for a reading or for a word, and with 0 once
/// they are used up.
#[derive(Drop)]
pub(crate) struct Given<'a, D: Draws> {
    draws: &'a [u64],
    /// How often it was asked, up to 2^64 - 1.
    asked: usize,
    of: PhantomData<D>,
    ghost given: { draws.now ≡ D.draws },
}

impl<'a, D: Draws> Given<'a, D> {
    pub(crate) fn new(draws: &'a [u64]) -> Self
        requires { draws.now ≡ D.draws }
        ensures { result.asked ≡ 0 }
    {
        Given {
            draws,
            asked: 0,
            of: PhantomData,
        }
    }

    fn next(&mut self) -> u64
        ensures answer { result ≡ slice_index D.draws self.old.asked }
        ensures asked { self.new.asked ≡ min (self.old.asked + 1) (2 ^ 64 - 1) }
    {
        let answer = self.draws.get(self.asked).copied().unwrap_or(0);
        self.asked = self.asked.saturating_add(1);
        answer
    }
}

impl<D: Draws> Oracle for Given<'_, D> {
    ghost telling = { record { clocks = λ g. None; words = λ g. None; answers = λ g. answers_told g.asked D.draws; origin = λ g. None; always = false } };

    #[tactic(auto, using(crate::proofs::Answering::answers_grow))]
    fn clock(&mut self) -> u64 {
        self.next()
    }

    #[tactic(auto, using(crate::proofs::Answering::answers_grow))]
    fn word(&mut self) -> u64 {
        self.next()
    }
}
