// An outlet in memory.
ghost use Rattle.std.specs.Prelude.{◌↔◌, ℕ, IfOk};
ghost use Rattle.std.specs.List.{Contains};

use ken_model::{Octets, Out};
use ken_ship::{OutFault, Outlet};
use std::alloc::{AllocError, Global};
use std::collections::BTreeSet;
use std::marker::Model;

/// An outlet in memory. It fails at the calls that it is told to, and at no other, and tells what it took and whose it is.
#[derive(Debug, Drop)]
pub struct MemOutlet {
    alloc: Global,
    // The node that emits to it.
    node: u8,
    // The calls that fail, from 1.
    fails: BTreeSet<u64>,
    calls: u64,
    faults: u64,
    took: Vec<Out>,
}

impl Model for MemOutlet {
    ghost use Rattle.ken_drive.specs.Outlets.{Taken};

    ghost Value = { Taken };

    ghost view = { λ o. record { node = o.node; outs = o.took.items; calls = o.calls; faults = o.faults; fails = o.fails.keys } };
}

// The numbers on a list, each once.
fn numbers(alloc: Global, list: &[u64]) -> Result<BTreeSet<u64>, AllocError>
    ensures { IfOk result (λ set. (n : ℕ) → Contains set.keys n ↔ Contains list.now n) }
{
    list.iter().copied().collect(alloc)
}

impl MemOutlet {
    ghost use Rattle.std.specs.Prelude.{◌≡◌, ◌++◌, ◌∷◌, [], ◌↔◌, ℕ, IsTrue, IfOk, OnOk, OnErr};
    ghost use Rattle.std.specs.List.{Contains};
    ghost use Rattle.ken_drive.specs.Outlets.{untaken, IsToFail};

    /// The outlet of a node, of which no call was made, and which fails at these calls. They are counted from 1; a call that wants
    /// memory doesn't count. The error is want of memory.
    pub fn new(alloc: Global, node: u8, fails: &[u64]) -> Result<Self, AllocError>
        ensures untaken { IfOk result (λ o. o ≡ untaken node o.fails) }
        ensures fails { IfOk result (λ o. (call : ℕ) → Contains o.fails call ↔ Contains fails.now call) }
    {
        Ok(MemOutlet {
            alloc,
            node,
            fails: numbers(alloc, fails)?,
            calls: 0,
            faults: 0,
            took: Vec::new(alloc),
        })
    }

    /// The outputs that it took, oldest first.
    pub fn took(&self) -> &[Out]
        ensures { result.now ≡ self.now.outs }
    {
        self.took.as_slice()
    }

    /// How many calls were made, but for those that wanted memory. The count stands at 2^64 - 1.
    pub fn calls(&self) -> u64
        ensures { result ≡ self.now.calls }
    {
        self.calls
    }

    // The next call is on the list, and can be counted.
    fn fails_next(&self) -> bool
        ensures { IsTrue result ↔ IsToFail self.now }
    {
        match self.calls.checked_add(1) {
            Some(call) => self.fails.contains(&call),
            None => false,
        }
    }

    // Keeps an output. An error wants memory, and then nothing is kept.
    fn keep(&mut self, number: u64, text: &[u8]) -> Result<(), AllocError>
        ensures ok { OnOk result (self.new ≡ record self.old { outs = self.old.outs ++ record { number = number; text = text.now } ∷ [] }) }
        ensures err { OnErr result (self.new ≡ self.old) }
    {
        let text = Octets::copied(self.alloc, text)?;
        self.took.reserve(1)?;
        self.took.push_reserved(Out { number, text });
        Ok(())
    }
}

impl Outlet for MemOutlet {
    ghost use Rattle.std.specs.Prelude.{◌≡◌, Some, IsErrOf};
    ghost use Rattle.ken_ship.specs.declared.faults.OutFault.TheVariants.{Failed};
    ghost use Rattle.ken_ship.specs.Causes.{HasCause};
    ghost use Rattle.ken_ship.specs.Fates.{Suffers, Follows};
    ghost use Rattle.ken_ship.specs.Outlets.{if_taken, also_took};
    ghost use Rattle.ken_drive.specs.Outlets.{fate_of, IsToFail};

    ghost took = { λ o. Some o.outs };

    ghost fate = { λ o. Some (fate_of o) };

    ghost faults = { λ o. o.faults };

    fn emit(&mut self, number: u64, text: &[u8]) -> Result<(), OutFault>
        ensures took { Some self.new.outs ≡ also_took (if_taken result (record { number = number; text = text.now })) (Some self.old.outs) }
        ensures cause { HasCause self.old.faults self.new.faults result }
        ensures fate { Follows (Suffers result) (Some (fate_of self.old)) (Some (fate_of self.new)) }

        // A call on the list fails, and asks for no memory.
        ensures fails { IsToFail self.old → IsErrOf result Failed }
    {
        if self.fails_next() {
            self.calls = self.calls.saturating_add(1);
            self.faults = self.faults.saturating_add(1);
            return Err(OutFault::Failed);
        }
        self.keep(number, text)?;
        self.calls = self.calls.saturating_add(1);
        Ok(())
    }
}
