use std::alloc::{AllocError, AllocFailed};
use thiserror::Error;

/// The rules of a script by their numbers, in the order in which they are tried.
pub(crate) const OBJECT: u8 = 1;

pub(crate) const KEYS: u8 = 2;

pub(crate) const NODES: u8 = 3;

pub(crate) const KIND: u8 = 4;

pub(crate) const PAGES: u8 = 5;

pub(crate) const SEED: u8 = 6;

pub(crate) const COUNTS: u8 = 7;

pub(crate) const INPUTS: u8 = 8;

pub(crate) const TEXT_LENGTHS: u8 = 9;

pub(crate) const TEXT_BYTES: u8 = 10;

pub(crate) const CUTS: u8 = 11;

pub(crate) const MAIL: u8 = 12;

pub(crate) const ACKS: u8 = 13;

pub(crate) const OUTLETS: u8 = 14;

/// Why a script was not read.
#[derive(Clone, Copy, Debug, Drop, PartialEq, Eq, Error)]
pub enum ScriptFault {
    /// The first rule that the script breaks, and the least place from 0 at which it does.
    #[error("rule S{rule} at {index}")]
    Rule { rule: u8, index: u64 },
    #[error("out of memory")]
    Memory,
}

impl ScriptFault {
    ghost use Rattle.std.specs.Prelude.{◌≡◌};

    pub(crate) fn at(rule: u8, place: usize) -> Self
        ensures { result ≡ ScriptFault.Rule rule place }
    {
        ScriptFault::Rule {
            rule,
            index: place as u64,
        }
    }
}

impl From<AllocError> for ScriptFault {
    ghost use Rattle.std.specs.Prelude.{◌≡◌};
    ghost use Rattle.ken_script.specs.declared.faults.ScriptFault.TheVariants.{Memory};

    ghost from_gives = { λ _ fault. fault ≡ Memory };

    fn from(_refused: AllocError) -> Self {
        ScriptFault::Memory
    }
}

impl<T: Drop> From<AllocFailed<T>> for ScriptFault {
    ghost use Rattle.std.specs.Prelude.{◌≡◌};
    ghost use Rattle.ken_script.specs.declared.faults.ScriptFault.TheVariants.{Memory};

    ghost from_gives = { λ _ fault. fault ≡ Memory };

    fn from(_refused: AllocFailed<T>) -> Self {
        ScriptFault::Memory
    }
}
