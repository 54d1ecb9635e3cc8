// An oracle in memory.
use ken_app::Oracle;
use ken_num::Lcg;
use std::marker::Model;

/// An oracle whose clock counts from 1, and whose words are those of a generator. It tells whose it is, and all answers, up to
/// 2^64 - 2 of each sort.
#[derive(Debug, Drop)]
pub struct MemOracle {
    /// The node that draws from it.
    node: u8,
    /// The seed of the run.
    seed: u64,
    /// How often the clock was read.
    readings: u64,
    /// How many words were drawn.
    words: u64,
    generator: Lcg,
}

impl Model for MemOracle {
    ghost use Rattle.std.specs.Prelude.{◌≡◌, ◌<◌, ◌-◌, ◌^◌};
    ghost use Rattle.ken_drive.specs.Oracles.{Answered, start_of};
    ghost use Rattle.ken_num.specs.Generator.{state_after};

    ghost Value = { Answered };

    ghost view = { λ o. record { origin = record { node = o.node; seed = o.seed }; readings = o.readings; words = o.words; state = o.generator } };

    ghost invariant = { λ o. o.words < 2 ^ 64 - 1 → o.generator ≡ state_after o.words (start_of (record { node = o.node; seed = o.seed })) };
}

impl MemOracle {
    ghost use Rattle.std.specs.Prelude.{◌≡◌};
    ghost use Rattle.ken_drive.specs.Oracles.{unasked};

    /// The oracle of a node of a run with that seed, which has answered nothing. Its words begin at `seed + node`, modulo
    /// 2^64.
    pub fn new(node: u8, seed: u64) -> Self
        ensures { result ≡ unasked (record { node = node; seed = seed }) }
    {
        MemOracle {
            node,
            seed,
            readings: 0,
            words: 0,
            generator: Lcg::new(seed.wrapping_add(u64::from(node))),
        }
    }
}

impl Oracle for MemOracle {
    ghost use Rattle.std.specs.Prelude.{◌≡◌, ◌+◌, ◌-◌, ◌^◌, min, [], ◌∷◌};
    ghost use Rattle.ken_app.specs.Oracles.{Answers};
    ghost use Rattle.ken_num.specs.Generator.{next_state, answer_of};
    ghost use Rattle.ken_drive.specs.Oracles.{clocks_told, words_told, telling_of_memory};

    ghost telling = { telling_of_memory };

    /// One more than the reading before, and 1 at first; 2^64 - 1 is answered again.
    fn clock(&mut self) -> u64
        ensures clocks { Answers (clocks_told self.old) (clocks_told self.new) (result ∷ []) }
        ensures words { words_told self.new ≡ words_told self.old }
        ensures origin { self.new.origin ≡ self.old.origin }
        ensures counted { self.new ≡ record self.old { readings = min (self.old.readings + 1) (2 ^ 64 - 1) } }
        ensures reading { result ≡ self.new.readings }
    {
        self.readings = self.readings.saturating_add(1);
        self.readings
    }

    /// The next answer of the generator.
    fn word(&mut self) -> u64
        ensures words { Answers (words_told self.old) (words_told self.new) (result ∷ []) }
        ensures clocks { clocks_told self.new ≡ clocks_told self.old }
        ensures origin { self.new.origin ≡ self.old.origin }
        ensures counted { self.new ≡ record self.old { words = min (self.old.words + 1) (2 ^ 64 - 1); state = next_state self.old.state } }
        ensures word { result ≡ answer_of self.new.state }
    {
        self.words = self.words.saturating_add(1);
        self.generator.next()
    }
}
