// A message is run: its turn is made, sealed and acknowledged.
ghost use Rattle.std.specs.Prelude.{◌≡◌, ◌*◌, ◌+◌, ◌^◌, ◌<◌, ◌∷◌, ◌++◌, max, slice_set, vec_len, vec_capacity, OnOk, [], IfOk, IfSome};
ghost use Rattle.ken_app.specs.Oracles.{HasAnswered};
ghost use Rattle.ken_links.specs.Rings.{free};
ghost use Rattle.ken_order.specs.Consumed.{IsSender, consumed_from, place};
ghost use Rattle.ken_ship.specs.Fits.{AreSent};
ghost use Rattle.ken_model.specs.Handler.{Handler};
ghost use Rattle.ken_store.specs.Turning.{MaySeal};
ghost use Rattle.ken_store.specs.declared.turning.TurnSide.{TurnSide};
ghost use Rattle.ken_work.specs.Calls.{IsQuiet, Runs, Seals, TakesMessage, Drew};
ghost use Rattle.ken_work.specs.Making.{IsHanded, IsMade, IsMessage, MayTakeMore};
ghost use Rattle.ken_app.specs.Limits.{KeepsLimits};
ghost use Rattle.ken_work.specs.Workers.{IsSameWorker, Working};

use crate::effects::handed;
use crate::faults::answered;
use crate::items::Frozen;
use crate::listening::{acknowledge, listen, next_input};
use crate::took::Took;
use crate::worker::TurnWorker;
use ken_app::{App, Oracle};
use ken_disk::Disk;
use ken_model::{Message, OUTSIDE};
use ken_net::Net;
use ken_record::Effects;
use ken_ship::{NodeFault, Sealed};
use ken_store::StoreFault;
use std::alloc::AllocError;

impl<D: Disk> TurnWorker<D> {
    // The message of a turn: the next mail of a sender that the net gives, or else the next input.
    pub(crate) fn find<N: Net>(&self, net: &mut N) -> Result<Option<Message>, AllocError>
        requires node { self.now.node < self.now.nodes }
        requires order { self.now.order.nodes ≡ self.now.nodes }
        requires end { (N.node net.old ≡ self.now.node) × (N.nodes net.old ≡ self.now.nodes) }
        ensures takes { TakesMessage self.now.node self.now.order self.now.inputs.items (N.given_between net.old net.new) (N.put_between net.old net.new) (N.nones net.old) (N.nones net.new) result }
        ensures message { IfOk result (λ found. IfSome found (IsMessage self.now.node self.now.order)) }
        ensures end { (N.node net.new ≡ N.node net.old) × (N.nodes net.new ≡ N.nodes net.old) }
    {
        match listen(net, self.alloc, self.node, self.nodes, &self.order)? {
            Some(message) => Ok(Some(message)),
            None => next_input(self.alloc, self.inputs.as_slice(), &self.order),
        }
    }

    // Seals the turn that is begun, and hands it over. After `Memory` it is taken back, and nothing else has changed.
    fn seal(&mut self, effects: Effects, message: &Message) -> Result<(), StoreFault>
        requires made { (h : Handler) × (before : TurnSide D) × Working D.told D.size h (record self.old { side = before }) × IsMade h message.now effects before self.old.side }
        requires may { MaySeal self.old.side effects }
        requires message { IsMessage self.old.node self.old.order message.now }
        requires slots { (0 < free self.old.pages) × (0 < free self.old.sealed) }
        ensures seals { (h : Handler) (before : TurnSide D)
            → Working D.told D.size h (record self.old { side = before })
            → IsMade h message.now effects before self.old.side
            → Seals D.told D.size D.faults D.fate h result message.now effects before self.old self.new }
        ensures same { IsSameWorker self.old self.new }
    {
        let Ok(handed) = self.make_room(&effects) else {
            self.side.abort();
            return Err(StoreFault::Memory);
        };
        let (turn, pages) = self.side.seal(&effects)?;
        self.keep(effects, message.stamp);
        self.pages.push(Frozen { turn, pages });
        self.sealed.push(handed);
        Ok(())
    }

    // What the externaliser will be handed of the turn that is begun, and room for the turn. After an error nothing has changed.
    fn make_room(&mut self, effects: &Effects) -> Result<Sealed, AllocError>
        requires turns { self.old.side.numbers.turns + 1 < 2 ^ 64 }
        requires sent { AreSent effects.now.stamp effects.now.sends }
        ensures handed { IfOk result (IsHanded (self.old.side.numbers.turns + 1) effects.now) }
        ensures room { OnOk result (vec_len self.new.turns < vec_capacity self.new.turns) }
        ensures rest { IsQuiet self.old self.new × (self.new.side ≡ self.old.side) }
    {
        self.turns.reserve(1)?;
        handed(self.alloc, self.side.turns() + 1, effects)
    }

    // Keeps a sealed turn, which took a message with this stamp. There is room.
    fn keep(&mut self, effects: Effects, stamp: u64)
        requires room { vec_len self.old.turns < vec_capacity self.old.turns }
        requires sender { IsSender self.old.order.nodes effects.from }
        requires next { effects.number ≡ consumed_from self.old.order effects.from + 1 }
        requires early { (self.old.order.stamp + 1 < 2 ^ 64) × (stamp + 1 < 2 ^ 64) }
        ensures turns { self.new.turns.items ≡ self.old.turns.items ++ effects ∷ [] }
        ensures order { self.new.order ≡ record {
          nodes = self.old.order.nodes;
          stamp = max self.old.order.stamp stamp + 1;
          consumed = slice_set self.old.order.consumed (place effects.from) effects.number;
        } }
        ensures rest { self.new ≡ record self.old { turns = self.new.turns; order = self.new.order } }
    {
        self.order.consume(effects.from, effects.number);
        self.order.stamp_after(stamp);
        self.turns.push_reserved(effects);
    }

    // Runs a message.
    pub(crate) fn run<N: Net, A: App, O: Oracle>(
        &mut self,
        net: &mut N,
        app: &A,
        oracle: &mut O,
        message: &Message,
    ) -> Result<Took, NodeFault>
        requires working { Working D.told D.size (A.handler app.now) self.old }
        requires keeps { KeepsLimits self.old.nodes (256 * self.old.side.owner.pages) (A.handler app.now) }
        requires more { MayTakeMore self.old }
        requires message { IsMessage self.old.node self.old.order message.now }
        requires end { (N.node net.old ≡ self.old.node) × (N.nodes net.old ≡ self.old.nodes) }
        requires slots { (0 < free self.old.pages) × (0 < free self.old.sealed) }
        ensures runs { Runs D.told D.size D.faults D.fate (A.handler app.now)
            (Drew O.telling.clocks O.telling.words (A.handler app.now) oracle.old oracle.new)
            result (N.put_between net.old net.new) message.now self.old self.new }
        ensures took { IfOk result (λ took. took ≡ Took.Turn) }
        ensures same { IsSameWorker self.old self.new }
        ensures given { N.given_between net.old net.new [] }
        ensures nones { N.nones net.new ≡ N.nones net.old }
        ensures end { (N.node net.new ≡ N.node net.old) × (N.nodes net.new ≡ N.nodes net.old) }
        ensures clocks_go_on { HasAnswered (O.telling.clocks oracle.old) (O.telling.clocks oracle.new) }
        ensures words_go_on { HasAnswered (O.telling.words oracle.old) (O.telling.words oracle.new) }
        ensures origin { O.telling.origin oracle.new ≡ O.telling.origin oracle.old }
    {
        let effects = self.make(app, oracle, message)?;
        answered(self.seal(effects, message))?;
        if message.from != OUTSIDE {
            acknowledge(net, self.alloc, self.node, &self.order, message.from)?;
        }
        Ok(Took::Turn)
    }
}
