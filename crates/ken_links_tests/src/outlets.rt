use ken_model::{Items, Octets, Out};
use ken_ship::{OutFault, Outlet};
use std::alloc::Global;

// An outlet in memory that fails at the calls on a list, which are numbered from 1.
#[derive(Drop)]
pub(crate) struct ListedOutlet {
    alloc: Global,
    fails: Items<u64>,
    calls: u64,
    faults: u64,
    took: Vec<Out>,
}

impl ListedOutlet {
    ghost use Rattle.std.specs.Prelude.{◌+◌, IsTrue};
    ghost use Rattle.std.specs.List.{Contains};

    pub(crate) fn new(alloc: Global, fails: Items<u64>) -> Self {
        ListedOutlet {
            alloc,
            fails,
            calls: 0,
            faults: 0,
            took: Vec::new(alloc),
        }
    }

    // The numbers of the outputs that it took.
    pub(crate) fn took(&self) -> &[Out] {
        self.took.as_slice()
    }

    // How many calls have failed.
    pub(crate) fn faults(&self) -> u64 {
        self.faults
    }

    fn fails_next(&self) -> bool
        ensures { IsTrue result → Contains self.now.fails (self.now.calls + 1) }
    {
        match self.calls.checked_add(1) {
            Some(call) => self.fails.as_slice().contains(&call),
            None => false,
        }
    }
}

impl Outlet for ListedOutlet {
    ghost use Rattle.std.specs.Prelude.{Some};

    ghost took = { λ o. Some o.took.items };

    ghost fate = { λ o. Some (record { node = 0; calls = o.calls; fails = o.fails }) };

    ghost faults = { λ o. o.faults };

    fn emit(&mut self, number: u64, text: &[u8]) -> Result<(), OutFault> {
        if self.fails_next() {
            self.calls = self.calls.saturating_add(1);
            self.faults = self.faults.saturating_add(1);
            return Err(OutFault::Failed);
        }
        let text = Octets::new(Vec::from_slice(self.alloc, text)?);
        self.took.reserve(1)?;
        self.took.push_reserved(Out { number, text });
        self.calls = self.calls.saturating_add(1);
        Ok(())
    }
}
