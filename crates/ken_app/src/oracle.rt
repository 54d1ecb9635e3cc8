ghost use Rattle.std.specs.Prelude.{◌≡◌, [], ◌∷◌};
ghost use Rattle.ken_app.specs.Oracles.{Telling, Answers};

/// Where clock readings and random words come from. Nothing is promised of their values.
pub trait Oracle {
    /// What it tells: the readings of the clock and the words so far, both in one, and whose it is.
    ghost telling: { Telling Self };

    /// A reading of the clock.
    fn clock(&mut self) -> u64
        ensures clocks { Answers (telling.clocks self.old) (telling.clocks self.new) (result ∷ []) }
        ensures words { telling.words self.new ≡ telling.words self.old }
        ensures answers { Answers (telling.answers self.old) (telling.answers self.new) (result ∷ []) }
        ensures origin { telling.origin self.new ≡ telling.origin self.old };

    /// A random word.
    fn word(&mut self) -> u64
        ensures words { Answers (telling.words self.old) (telling.words self.new) (result ∷ []) }
        ensures clocks { telling.clocks self.new ≡ telling.clocks self.old }
        ensures answers { Answers (telling.answers self.old) (telling.answers self.new) (result ∷ []) }
        ensures origin { telling.origin self.new ≡ telling.origin self.old };
}
