// One link: its acts, how many puts it has seen, and what it keeps.
ghost use Rattle.std.specs.Prelude.{◌≡◌, ◌<◌, ◌++◌, ℕ, true, [], None, IfOk, IsTrue, OnErr, OnOk};
ghost use Rattle.std.specs.Ordering.{nat_cmp};
ghost use Rattle.std.specs.BTreeMap.{get};
ghost use Rattle.ken_net.specs.Acts.{act_of, copies, held, WantsMemory};
ghost use Rattle.ken_net.specs.Copies.{copies_of};
ghost use Rattle.ken_net.specs.Puts.{MayPut, handing};
ghost use Rattle.ken_net.specs.Standings.{act_at, next_act, admitted, after_put, passed, are_between};
ghost use Rattle.ken_net.specs.Went.{Went};

use crate::act::{Act, LinkAct};
use crate::base::Base;
use crate::copies::Copies;
use crate::handed::Handed;
use crate::passing::{pass, pass_due, pass_one};
use ken_model::Octets;
use std::alloc::{AllocError, Global};
use std::collections::{BTreeMap, VecDeque};
use std::marker::Model;

// A packet that is kept, and how many more puts it waits for.
#[derive(Debug, Drop)]
pub(crate) struct Kept {
    pub wait: u16,
    pub bytes: Octets,
}

#[derive(Debug, Drop)]
pub(crate) struct Link {
    acts: BTreeMap<u64, Act>,
    puts: u64,
    kept: VecDeque<Kept>,
}

impl Model for Link {
    ghost use Rattle.ken_net.specs.Standings.{Standing};

    ghost Value = { Standing };

    ghost view = { λ l. record { acts = l.acts.entries; puts = l.puts; kept = l.kept.items } };
}

impl Link {
    // The link from a node to another with its acts on the list.
    pub(crate) fn new(alloc: Global, from: u8, to: u8, acts: &[LinkAct]) -> Result<Self, AllocError>
        ensures acts { IfOk result (λ l. (n : ℕ) → act_at n l ≡ act_of acts.now from to n) }
        ensures puts { IfOk result (λ l. l.puts ≡ 0) }
        ensures kept { IfOk result (λ l. l.kept ≡ []) }
    {
        Ok(Link {
            acts: by_number(alloc, from, to, acts)?,
            puts: 0,
            kept: VecDeque::new(alloc),
        })
    }

    // Whether it has no acts, and keeps nothing.
    fn is_clear(&self) -> bool
        ensures { IsTrue result → (next_act self.now ≡ None) × (self.now.kept ≡ []) }
    {
        self.acts.is_empty() && self.kept.is_empty()
    }

    fn next_act(&self) -> Option<Act>
        ensures { result ≡ next_act self.now }
    {
        self.acts.get(&self.puts.saturating_add(1)).copied()
    }

    // Counts a put, and does what its act says: what is passed on at once is given back. After an error, which only a
    // repeat and a hold have, nothing has changed.
    pub(crate) fn admit(&mut self, alloc: Global, bytes: Octets) -> Result<Copies, AllocError>
        ensures copies { IfOk result (λ given. copies_of given ≡ copies (next_act self.old) bytes) }
        ensures ok { OnOk result (self.new ≡ admitted bytes self.old) }
        ensures err { OnErr result (self.new ≡ self.old) }
        ensures memory { OnErr result (WantsMemory (next_act self.old)) }
    {
        let copies = self.act_on(alloc, bytes)?;
        self.puts = self.puts.saturating_add(1);
        Ok(copies)
    }

    // Puts a packet on the link, which goes to the node `to`. After an error nothing has changed, and nothing was passed on.
    pub(crate) fn put<B: Base, H: Handed>(
        &mut self,
        alloc: Global,
        base: &mut B,
        to: u8,
        bytes: Octets,
    ) -> Result<(), AllocError>
        requires to { to < B.nodes base.old }
        requires may { MayPut (B.node base.old) to H.sealed H.consumed bytes }
        requires own { are_between (B.node base.old) to self.old.kept ≡ true }
        ensures ok { OnOk result (self.new ≡ after_put (handing to H.sealed H.consumed bytes) self.old) }
        ensures passed { OnOk result (Went B.node B.nodes B.nones B.put_between B.given_between base.old base.new (passed (handing to H.sealed H.consumed bytes) self.old)) }
        ensures own { are_between (B.node base.old) to self.new.kept ≡ true }
        ensures err { OnErr result ((self.new ≡ self.old) × (base.new ≡ base.old)) }
        ensures memory { OnErr result (WantsMemory (next_act self.old)) }
    {
        if self.is_clear() {
            self.puts = self.puts.saturating_add(1);
            pass_one::<B, H>(base, to, bytes);
            return Ok(());
        }
        let copies = self.admit(alloc, bytes)?;
        pass::<B, H>(base, to, copies);
        pass_due(base, to, &mut self.kept);
        Ok(())
    }

    // Does what the act of the next put says, and doesn't count it yet.
    fn act_on(&mut self, alloc: Global, bytes: Octets) -> Result<Copies, AllocError>
        ensures copies { IfOk result (λ given. copies_of given ≡ copies (next_act self.old) bytes) }
        ensures ok { OnOk result (self.new ≡ record self.old { kept = self.old.kept ++ held (next_act self.old) bytes }) }
        ensures err { OnErr result (self.new ≡ self.old) }
        ensures memory { OnErr result (WantsMemory (next_act self.old)) }
    {
        match self.next_act() {
            None => Ok(Copies::One(bytes)),
            Some(Act::Lose) => Ok(Copies::Nothing),
            Some(Act::Repeat) => {
                let again = Octets::new(Vec::from_slice(alloc, bytes.as_slice())?);
                Ok(Copies::Two(bytes, again))
            }
            Some(Act::Hold(puts)) => {
                let wait = u16::from(puts) + 1;
                self.kept.push_back(Kept { wait, bytes })?;
                Ok(Copies::Nothing)
            }
        }
    }
}

// The acts of one link by the numbers of their puts. The last ones are put in first, so that earlier ones take their
// places.
fn by_number(
    alloc: Global,
    from: u8,
    to: u8,
    acts: &[LinkAct],
) -> Result<BTreeMap<u64, Act>, AllocError>
    ensures { IfOk result (λ found. (n : ℕ) → get nat_cmp found n ≡ act_of acts.now from to n) }
{
    let mut found = BTreeMap::new(alloc);
    for place in (0..acts.len()).rev() {
        let act = acts[place];
        if act.from == from && act.to == to {
            found.insert(act.n, act.act)?;
        }
    }
    Ok(found)
}
