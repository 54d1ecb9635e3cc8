// A node's handler.
ghost use Rattle.std.specs.Prelude.{◌≡◌, ◌≤◌, vec_capacity, vec_len};
ghost use Rattle.ken_links.specs.Rings.{popped, SamePopEnd};
ghost use Rattle.ken_work.specs.News.{AreInputs, TakesNews, latest};

use crate::items::{Feedback, Frozen, News, Settled};
use ken_links::{PopEnd, PushEnd, SLOTS};
use ken_model::Message;
use ken_order::Order;
use ken_record::Effects;
use ken_ship::{Sealed, SendWorker, Told};
use ken_store::TurnSide;
use std::alloc::Global;

/// A node's handler: it takes messages, has the application make a turn of each, and seals it.
#[derive(Drop)]
pub struct TurnWorker<D> {
    pub(crate) alloc: Global,
    pub(crate) node: u8,
    pub(crate) nodes: u8,
    /// The most turns.
    pub cap: u64,
    /// The node's inputs, oldest first.
    pub inputs: Vec<Message>,
    /// Its side of the store.
    pub side: TurnSide<D>,
    // By which mail is judged.
    pub(crate) order: Order,
    // All sealed turns, oldest first.
    pub(crate) turns: Vec<Effects>,
    pub(crate) told: Feedback,
    pub(crate) pages: PushEnd<Frozen>,
    pub(crate) sealed: PushEnd<Sealed>,
    pub(crate) settled: PopEnd<Settled>,
    pub(crate) progress: PopEnd<Told>,
    // Room for what the externaliser tells at a meeting, and else empty.
    pub(crate) news: Vec<Told>,
    ghost few: { nodes ≤ 8 },
    ghost most: { cap ≤ 100000 },
    ghost room: { (64 ≤ vec_capacity news) × (vec_len news ≡ 0) },
    ghost given: { AreInputs node inputs.items },
}

// Takes what a ring gives until it gives none, or 64 were given, or the next stands with more turns than were made: that stays
// in the ring. What the last one says is known then.
fn take_news<A: News>(ring: &mut PopEnd<A>, made: u64, known: &mut A::Fact)
    ensures ring { SamePopEnd ring.old ring.new }
    ensures news { TakesNews A.stands_with A.says made ring.old ring.new known.old known.new }
{
    for _given in 0..SLOTS {
        if !ring.look() {
            return;
        }
        if ring.first_known().by() > made {
            return;
        }
        *known = ring.pop_known().fact();
    }
}

// What the last one says of what was told is known then, where there is one.
fn take_last<A: News>(told: &[A], known: &mut A::Fact)
    ensures { known.new ≡ latest A.says known.old told.now }
{
    if let Some(last) = told.last() {
        *known = last.fact();
    }
}

impl<D> TurnWorker<D> {
    ghost use Rattle.std.specs.Prelude.{◌≡◌};
    ghost use Rattle.ken_links.specs.Rings.{IsRing};
    ghost use Rattle.ken_ship.specs.Parts.{part_of};
    ghost use Rattle.ken_ship.specs.Parts.{IsSameWorker as IsSameSender};
    ghost use Rattle.ken_work.specs.Meeting.{IsEmptied, WasTold};
    ghost use Rattle.ken_work.specs.News.{progress_told};
    ghost use Rattle.ken_work.specs.Workers.{HearsNews};

    /// All sealed turns of the node, oldest first.
    pub fn turns(&self) -> &[Effects]
        ensures { result.now ≡ self.now.turns.items }
    {
        self.turns.as_slice()
    }

    // Takes all that its externaliser told: then all slots of that ring are known to be free. Takes no memory.
    pub(crate) fn hear_progress(&mut self, sends: &mut SendWorker)
        requires { IsRing sends.old.told self.old.progress }
        ensures rest { self.new ≡ record self.old { told = self.new.told; progress = self.new.progress; news = self.new.news; room = self.new.room } }
        ensures settled { self.new.told.settled ≡ self.old.told.settled }
        ensures worker { IsSameSender sends.old sends.new }
        ensures part { part_of sends.new ≡ part_of sends.old }
        ensures sealed { sends.new.sealed ≡ sends.old.sealed }
        ensures ends { SamePopEnd self.old.progress self.new.progress × IsRing sends.new.told self.new.progress }
        ensures told { WasTold progress_told (popped self.old.progress) (popped self.new.progress) self.old.told.progress self.new.told.progress }
        ensures emptied { IsEmptied sends.new.told self.new.progress }
    {
        let told = sends.tell(&mut self.progress, &mut self.news);
        prove!(told.is_ok());
        take_last(self.news.as_slice(), &mut self.told.progress);
        self.news.clear();
    }

    // Takes what it was told from its rings, but for what stands with more turns than it has made.
    pub(crate) fn hear_news(&mut self)
        ensures { HearsNews self.old self.new }
    {
        let made = self.turns.len() as u64;
        take_news(&mut self.settled, made, &mut self.told.settled);
        take_news(&mut self.progress, made, &mut self.told.progress);
    }
}
