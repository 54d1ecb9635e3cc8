// The application makes a turn of a message.
ghost use Rattle.std.specs.Prelude.{◌≡◌, ◌*◌, ◌+◌, ◌^◌, ◌<◌, ℕ, length, slice_index, IfOk, OnErr, Some};
ghost use Rattle.std.specs.List.{AllByRecursion};
ghost use Rattle.ken_model.specs.declared.values.Value.{Value};
ghost use Rattle.ken_model.specs.Layout.{StandsFor};
ghost use Rattle.ken_alloc.specs.Objects.{heap_in};
ghost use Rattle.ken_record.specs.Grammar.{AtMost, IsWord};
ghost use Rattle.ken_app.specs.Oracles.{Answers, HasAnswered};
ghost use Rattle.ken_store.specs.Turning.{HasPages, KeepsLog, MaySeal, Turning};
ghost use Rattle.ken_work.specs.Calls.{IsSameState};
ghost use Rattle.ken_work.specs.Making.{IsMade, IsMessage, MayTakeMore, effects_in};
ghost use Rattle.ken_app.specs.Limits.{ComesTo, KeepsLimits};
ghost use Rattle.ken_work.specs.Workers.{Working};

use crate::effects::{NODES, draws_of, outs_of, sends_of};
use crate::worker::TurnWorker;
use ken_app::{App, Made, Oracle, take_turn};
use ken_disk::Disk;
use ken_model::{MAX_NODES, Message};
use ken_record::Effects;
use ken_store::TurnSide;
use std::alloc::AllocError;

// How many messages were sent to each node.
fn sent<D: Disk>(side: &TurnSide<D>) -> [u64; NODES]
    requires { Turning D.told D.size side.now }
    ensures { result ≡ side.now.numbers.sent }
{
    let mut sent = [0; NODES];
    for node in 0..MAX_NODES {
        sent[usize::from(node)] = side.sent_to(node);
    }
    sent
}

impl<D: Disk> TurnWorker<D> {
    // What is kept of a turn that the application has made of a message.
    fn effects(&self, message: &Message, made: Made) -> Result<Effects, AllocError>
        requires turning { Turning D.told D.size self.now.side }
        requires stamp { self.now.order.stamp ≡ self.now.side.numbers.stamp }
        requires early { (self.now.order.stamp + 1 < 2 ^ 64) × (message.now.stamp + 1 < 2 ^ 64) }
        requires known { AllByRecursion (λ s. s.to < 8) made.sends.items }
        requires sends { (w : ℕ) → slice_index self.now.side.numbers.sent w + length made.sends.items < 2 ^ 64 }
        requires outs { self.now.side.numbers.outputs + length made.outs.items < 2 ^ 64 }
        ensures kept { (v : ℕ) (value : Value) → IfOk result (λ e. e
            ≡ effects_in v self.now.side.numbers message.now made.draws.items
            (record { value = value; sends = made.sends.items; outs = made.outs.items })) }
        ensures draws { IfOk result (λ e. AtMost 16 IsWord e.draws) }
    {
        let stamp = self.order.stamp().max(message.stamp) + 1;
        Ok(Effects {
            from: message.from,
            number: message.number,
            stamp,
            draws: draws_of(self.alloc, made.draws.as_slice())?,
            sends: sends_of(self.alloc, sent(&self.side), made.sends)?,
            outs: outs_of(self.alloc, self.side.outputs(), made.outs)?,
        })
    }

    // The application works on the heap of the turn that is begun: what is kept of it. After an error the turn is begun still.
    fn work<A: App, O: Oracle>(
        &mut self,
        app: &A,
        oracle: &mut O,
        message: &Message,
    ) -> Result<Effects, AllocError>
        requires turning { Turning D.told D.size self.old.side }
        requires begun { self.old.side.objects.begun ≡ Some self.old.side.objects.bytes }
        requires node { (self.old.side.owner.node ≡ self.old.node) × (self.old.side.owner.nodes ≡ self.old.nodes) }
        requires order { self.old.order.nodes ≡ self.old.nodes }
        requires stamp { self.old.order.stamp ≡ self.old.side.numbers.stamp }
        requires heap { ComesTo (A.handler app.now) self.old.node self.old.nodes (256 * self.old.side.owner.pages) self.old.side.objects.value }
        requires keeps { KeepsLimits self.old.nodes (256 * self.old.side.owner.pages) (A.handler app.now) }
        requires more { MayTakeMore self.old }
        requires message { IsMessage self.old.node self.old.order message.now }
        ensures rest { self.new ≡ record self.old { side = self.new.side } }
        ensures same { KeepsLog self.old.side self.new.side }
        ensures begun { self.new.side.objects.begun ≡ self.old.side.objects.begun }
        ensures pages { HasPages self.old.side.owner.pages (heap_in self.new.side.objects) }
        ensures stood { StandsFor self.old.side.objects.bytes self.old.side.objects.value }
        ensures made { IfOk result (λ e. IsMade (A.handler app.now) message.now e self.old.side self.new.side) }
        ensures draws { IfOk result (λ e. AtMost 16 IsWord e.draws) }
        ensures clocks { IfOk result (λ e. Answers (O.telling.clocks oracle.old) (O.telling.clocks oracle.new) ((A.handler app.now).clocks e.draws)) }
        ensures words { IfOk result (λ e. Answers (O.telling.words oracle.old) (O.telling.words oracle.new) ((A.handler app.now).words e.draws)) }
        ensures clocks_go_on { HasAnswered (O.telling.clocks oracle.old) (O.telling.clocks oracle.new) }
        ensures words_go_on { HasAnswered (O.telling.words oracle.old) (O.telling.words oracle.new) }
        ensures origin { O.telling.origin oracle.new ≡ O.telling.origin oracle.old }
    {
        let objects = self.side.objects();
        objects.stands();
        let made = take_turn(
            self.alloc, app, self.node, self.nodes, message, objects, oracle,
        );
        objects.stands();
        self.effects(message, made?)
    }

    // Has the application make a turn of a message. It is begun then, and may be sealed. After an error no turn is begun, and all
    // is as before, but for what the oracle was asked.
    pub(crate) fn make<A: App, O: Oracle>(
        &mut self,
        app: &A,
        oracle: &mut O,
        message: &Message,
    ) -> Result<Effects, AllocError>
        requires working { Working D.told D.size (A.handler app.now) self.old }
        requires keeps { KeepsLimits self.old.nodes (256 * self.old.side.owner.pages) (A.handler app.now) }
        requires more { MayTakeMore self.old }
        requires message { IsMessage self.old.node self.old.order message.now }
        ensures rest { self.new ≡ record self.old { side = self.new.side } }
        ensures made { IfOk result (λ e. IsMade (A.handler app.now) message.now e self.old.side self.new.side) }
        ensures may { IfOk result (λ e. MaySeal self.new.side e) }
        ensures gave_up { OnErr result (IsSameState self.old.side self.new.side × Working D.told D.size (A.handler app.now) self.new) }
        ensures clocks { IfOk result (λ e. Answers (O.telling.clocks oracle.old) (O.telling.clocks oracle.new) ((A.handler app.now).clocks e.draws)) }
        ensures words { IfOk result (λ e. Answers (O.telling.words oracle.old) (O.telling.words oracle.new) ((A.handler app.now).words e.draws)) }
        ensures clocks_go_on { HasAnswered (O.telling.clocks oracle.old) (O.telling.clocks oracle.new) }
        ensures words_go_on { HasAnswered (O.telling.words oracle.old) (O.telling.words oracle.new) }
        ensures origin { O.telling.origin oracle.new ≡ O.telling.origin oracle.old }
    {
        self.side.begin()?;
        match self.work(app, oracle, message) {
            Ok(effects) => Ok(effects),
            Err(refused) => {
                self.side.abort();
                Err(refused)
            }
        }
    }
}
