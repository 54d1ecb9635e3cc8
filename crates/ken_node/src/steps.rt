// A node's own calls: each is one of its workers' calls, and then they meet. So nothing is on its way in their rings between two
// calls, and one clause says what a call comes to.
use crate::node::Node;
use crate::stage::Stage;
use crate::together;
use ken_app::{App, Oracle};
use ken_disk::Disk;
use ken_net::Net;
use ken_ship::{Emit, NodeFault, Outlet};
use ken_work::Took;
use std::alloc::AllocError;

impl<D: Disk> Node<D> {
    ghost use Rattle.std.specs.Prelude.{◌≡◌, ◌⊎◌, [], IfOk, OnOk};
    ghost use Rattle.ken_app.specs.Oracles.{HasAnswered};
    ghost use Rattle.ken_store.specs.declared.disks.Disks.{Disks};
    ghost use Rattle.ken_ship.specs.Causes.{HasCause};
    ghost use Rattle.ken_ship.specs.Emitting.{outlet_answer};
    ghost use Rattle.ken_ship.specs.Fates.{Follows, Suffers};
    ghost use Rattle.ken_node.specs.Clauses.{EmitsAs, FailsDisks, HearsAs, PatchesAs, SendsAs, SettlesAs, StaysSynced, SyncsTurn, TurnsAs};
    ghost use Rattle.ken_node.specs.NodeCalls.{UnlessMemory};
    ghost use Rattle.ken_node.specs.Stages.{HasDisks, emissions_in, image_told, refusals_in};
    ghost use Rattle.ken_node.specs.Synced.{HasMadeSync, KeepsStory};
    ghost use Rattle.ken_node.specs.Up.{MayBeCalled, MayBeCalledOn, MayTakeTurns};

    /// Takes the next message, has the application make its turn, seals and acknowledges it. `Turn`: a turn was made, of the first
    /// next mail among the packets that were given, or, where none was one, of the next input. `Idle`: no packet that was given is
    /// a next mail, and all inputs are consumed. In both cases mail that was consumed before is acknowledged again. `Capped`: the
    /// node makes no more turns, and nothing was taken. The errors are `Disk`, after which a turnover or the turn's seal is in doubt, and the node must be restarted;
    /// and `Memory`, after which it takes no more calls.
    pub fn turn<N: Net, A: App, O: Oracle>(
        &mut self,
        net: &mut N,
        app: &A,
        oracle: &mut O,
    ) -> Result<Took, NodeFault>
        requires { MayTakeTurns D.told D.size (A.handler app.now) (N.node net.old) (N.nodes net.old) self.old.stage }
        ensures steps { TurnsAs D.Disk N.Net O.Oracle (A.handler app.now)
            self.old.stage net.old oracle.old result self.new.stage net.new oracle.new }
        ensures disks { FailsDisks D.Disk self.old.stage result self.new.stage }
        ensures synced { SyncsTurn D.Disk (A.handler app.now) self.old.stage result self.new.stage }
        ensures image { image_told D.told self.new.stage ≡ image_told D.told self.old.stage }
        ensures emissions { emissions_in self.new.stage ≡ emissions_in self.old.stage }
        ensures refusals { refusals_in self.new.stage ≡ refusals_in self.old.stage }
        ensures end { (N.node net.new ≡ N.node net.old) × (N.nodes net.new ≡ N.nodes net.old) }
        ensures clocks_go_on { HasAnswered (O.telling.clocks oracle.old) (O.telling.clocks oracle.new) }
        ensures words_go_on { HasAnswered (O.telling.words oracle.old) (O.telling.words oracle.new) }
        ensures origin { O.telling.origin oracle.new ≡ O.telling.origin oracle.old }
        ensures undrawn { IfOk result (λ took. (took ≡ Took.Turn) ⊎ (oracle.new ≡ oracle.old)) }
    {
        match &mut self.stage {
            Stage::Created(turns, patches, sends) => {
                together::turn(turns, patches, sends, net, app, oracle)
            }
            Stage::Uncreated(..) | Stage::Moved => unreachable!(),
        }
    }

    /// Writes the next page of the oldest sealed turn that is to patch to the image, by one call of its disk: false exactly where
    /// there is none. The errors are `Disk`, after which the page counts as written, and the node must be restarted; and
    /// `Memory`, after which it takes no more calls.
    pub fn patch(&mut self) -> Result<bool, NodeFault>
        requires { MayBeCalled D.told D.size self.old.stage }
        ensures steps { PatchesAs D.Disk self.old.stage result self.new.stage }
        ensures disks { FailsDisks D.Disk self.old.stage result self.new.stage }
        ensures synced { StaysSynced D.Disk self.old.stage self.new.stage }
        ensures image { KeepsStory (image_told D.told self.old.stage) (image_told D.told self.new.stage) }
        ensures emissions { emissions_in self.new.stage ≡ emissions_in self.old.stage }
        ensures refusals { refusals_in self.new.stage ≡ refusals_in self.old.stage }
    {
        match &mut self.stage {
            Stage::Created(turns, patches, sends) => together::patch(turns, patches, sends),
            Stage::Uncreated(..) | Stage::Moved => unreachable!(),
        }
    }

    /// Syncs the image, by one call of its disk: a base may leave out the pages of turns that are all there. The errors are
    /// `Disk`, after which the node must be restarted, and `Memory`, after which it takes no more calls.
    pub fn settle(&mut self) -> Result<(), NodeFault>
        requires { MayBeCalled D.told D.size self.old.stage }
        ensures steps { SettlesAs D.Disk self.old.stage result self.new.stage }
        ensures disks { FailsDisks D.Disk self.old.stage result self.new.stage }
        ensures synced { StaysSynced D.Disk self.old.stage self.new.stage }
        ensures image { OnOk result (HasMadeSync (image_told D.told self.old.stage) (image_told D.told self.new.stage)) }
        ensures emissions { emissions_in self.new.stage ≡ emissions_in self.old.stage }
        ensures refusals { refusals_in self.new.stage ≡ refusals_in self.old.stage }
    {
        match &mut self.stage {
            Stage::Created(turns, patches, sends) => together::settle(turns, patches, sends),
            Stage::Uncreated(..) | Stage::Moved => unreachable!(),
        }
    }

    /// Sends the oldest unacknowledged messages: for each node of the run in order, 16 or all. After the error, which is want of
    /// memory, the node takes no more calls.
    pub fn send<N: Net>(&mut self, net: &mut N) -> Result<(), AllocError>
        requires { MayBeCalledOn D.told D.size (N.node net.old) (N.nodes net.old) self.old.stage }
        ensures steps { SendsAs D.Disk N.Net self.old.stage net.old result self.new.stage net.new }
        ensures disks { (old new : Disks D) → HasDisks old self.old.stage → HasDisks new self.new.stage → new ≡ old }
        ensures synced { StaysSynced D.Disk self.old.stage self.new.stage }
        ensures emissions { emissions_in self.new.stage ≡ emissions_in self.old.stage }
        ensures refusals { refusals_in self.new.stage ≡ refusals_in self.old.stage }
        ensures end { (N.node net.new ≡ N.node net.old) × (N.nodes net.new ≡ N.nodes net.old) }
        ensures given { N.given_between net.old net.new [] }
        ensures nones { N.nones net.new ≡ N.nones net.old }
    {
        match &mut self.stage {
            Stage::Created(turns, patches, sends) => together::send(turns, patches, sends, net),
            Stage::Uncreated(..) | Stage::Moved => unreachable!(),
        }
    }

    /// Takes packets until the net gives none, or 4,096 were given, and takes note of the acknowledgements among them. After the
    /// error, which is want of memory, the node takes no more calls.
    pub fn hear<N: Net>(&mut self, net: &mut N) -> Result<(), AllocError>
        requires { MayBeCalledOn D.told D.size (N.node net.old) (N.nodes net.old) self.old.stage }
        ensures steps { HearsAs D.Disk N.Net self.old.stage net.old result self.new.stage net.new }
        ensures disks { (old new : Disks D) → HasDisks old self.old.stage → HasDisks new self.new.stage → new ≡ old }
        ensures synced { StaysSynced D.Disk self.old.stage self.new.stage }
        ensures emissions { OnOk result (emissions_in self.new.stage ≡ emissions_in self.old.stage) }
        ensures refusals { OnOk result (refusals_in self.new.stage ≡ refusals_in self.old.stage) }
        ensures end { (N.node net.new ≡ N.node net.old) × (N.nodes net.new ≡ N.nodes net.old) }
        ensures put { N.put_between net.old net.new [] }
    {
        match &mut self.stage {
            Stage::Created(turns, patches, sends) => together::hear(turns, patches, sends, net),
            Stage::Uncreated(..) | Stage::Moved => unreachable!(),
        }
    }

    /// Emits the output that is due: `Done` where the outlet took it, `Refused` where the outlet failed, `Nothing` exactly where
    /// none is due. The errors are `Outlet`: it was refused 64 times in a row before, and the outlet failed again; and
    /// `Memory`, after which the node takes no more calls.
    pub fn emit<O: Outlet>(&mut self, out: &mut O) -> Result<Emit, NodeFault>
        requires { MayBeCalled D.told D.size self.old.stage }
        ensures steps { EmitsAs D.Disk O.Outlet self.old.stage out.old result self.new.stage out.new }
        ensures disks { (old new : Disks D) → HasDisks old self.old.stage → HasDisks new self.new.stage → new ≡ old }
        ensures synced { StaysSynced D.Disk self.old.stage self.new.stage }
        ensures cause { UnlessMemory result (HasCause (O.faults out.old) (O.faults out.new) (outlet_answer result)) }
        ensures fate { UnlessMemory result (Follows (Suffers (outlet_answer result)) (O.fate out.old) (O.fate out.new)) }
    {
        match &mut self.stage {
            Stage::Created(turns, patches, sends) => together::emit(turns, patches, sends, out),
            Stage::Uncreated(..) | Stage::Moved => unreachable!(),
        }
    }
}
