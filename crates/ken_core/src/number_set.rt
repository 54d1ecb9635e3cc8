// A set of numbers.
ghost use Rattle.std.specs.Prelude.{◌≡◌, ℕ, ◌+◌, ◌<◌, ◌==◌, ◌&&◌, ◌||◌, ◌^◌, ◌↔◌, false, replicate, length, IfOk, OnOk, OnErr, IsTrue};
ghost use Rattle.std.specs.List.{All};
ghost use Rattle.ken_core.specs.Sets.{has, has_at};

use std::alloc::{AllocError, Global};
use std::marker::Model;

/// Some numbers: of each up to the largest a byte tells whether it is in.
#[derive(Debug, Drop)]
pub(crate) struct Numbers {
    bits: Vec<bool>,
}

impl Model for Numbers {
    ghost use Rattle.std.specs.Prelude.{List, Bool};

    ghost Value = { List Bool };

    ghost view = { λ s. s.bits.items };
}

impl Numbers {
    /// No number, with room for those below `width`.
    pub(crate) fn none(alloc: Global, width: usize) -> Result<Self, AllocError>
        ensures { IfOk result (λ s. s ≡ replicate width false) }
    {
        Ok(Numbers {
            bits: Vec::from_elem(alloc, false, width)?,
        })
    }

    /// Each number below this has room.
    pub(crate) fn width(&self) -> usize
        ensures { result ≡ length self.now }
    {
        self.bits.len()
    }

    pub(crate) fn contains(&self, number: u64) -> bool
        ensures { result ≡ has self.now number }
    {
        match self.bits.get(number as usize) {
            Some(bit) => *bit,
            None => false,
        }
    }

    /// Whether no number is in it.
    pub(crate) fn is_empty(&self) -> bool
        ensures { IsTrue result ↔ All (λ b. b ≡ false) self.now }
    {
        self.bits.iter().all(|bit| !*bit)
    }

    /// Whether the same numbers are in both, for which both have the same room.
    pub(crate) fn is_same(&self, other: &Numbers) -> bool
        ensures { IsTrue result ↔ (self.now ≡ other.now) }
    {
        self.bits.as_slice() == other.bits.as_slice()
    }

    /// Puts a number in, for which there is room.
    pub(crate) fn insert(&mut self, number: u64)
        requires { number < length self.old }
        ensures width { length self.new ≡ length self.old }
        ensures all { (k : ℕ) → has self.new k ≡ ((number == k) || has self.old k) }
    {
        self.bits[number as usize] = true;
    }

    /// Puts a number in. After an error nothing has changed.
    pub(crate) fn add(&mut self, number: u64) -> Result<(), AllocError>
        requires { number + 1 < 2 ^ 64 }
        ensures ok { OnOk result ((k : ℕ) → has self.new k ≡ ((number == k) || has self.old k)) }
        ensures err { OnErr result (self.new ≡ self.old) }
    {
        let place = number as usize;
        if self.bits.len() <= place {
            self.bits.resize(place + 1, false)?;
        }
        self.bits[place] = true;
        Ok(())
    }

    /// Takes all numbers out.
    pub(crate) fn clear(&mut self)
        ensures { self.new ≡ replicate (length self.old) false }
    {
        self.bits.fill(false);
    }
}

/// Puts a number into one of several sets. After an error nothing has changed.
pub(crate) fn add_at(sets: &mut [Numbers], at: u8, number: u64) -> Result<(), AllocError>
    requires known { at < length sets.old }
    requires small { number + 1 < 2 ^ 64 }
    ensures ok { OnOk result ((w k : ℕ) → has_at sets.new w k ≡ (((at == w) && (number == k)) || has_at sets.old w k)) }
    ensures err { OnErr result (sets.new ≡ sets.old) }
{
    sets[usize::from(at)].add(number)
}
