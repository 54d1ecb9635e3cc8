// Where the turns of the rows draw from.
ghost use Rattle.std.specs.Prelude.{None, false};

use ken_app::Oracle;

/// An oracle that tells nothing. It answers with the same reading and the same word.
#[derive(Default, Drop)]
pub(crate) struct Fixed {
    pub(crate) reading: u64,
    pub(crate) word: u64,
}

impl Oracle for Fixed {
    ghost telling = { record { clocks = λ _. None; words = λ _. None; answers = λ _. None; origin = λ _. None; always = false } };

    fn clock(&mut self) -> u64 {
        self.reading
    }

    fn word(&mut self) -> u64 {
        self.word
    }
}
