// A call of a node's handler.
ghost use Rattle.std.specs.Prelude.{◌≡◌, ◌*◌, ◌<◌, ◌⊎◌, IfOk};
ghost use Rattle.ken_app.specs.Oracles.{HasAnswered};
ghost use Rattle.ken_links.specs.Rings.{free};
ghost use Rattle.ken_work.specs.Calls.{TakesTurn, Drew};
ghost use Rattle.ken_work.specs.Capped.{IsCapped};
ghost use Rattle.ken_work.specs.declared.worker.TurnWorker.{TurnWorker};
ghost use Rattle.ken_app.specs.Limits.{KeepsLimits};
ghost use Rattle.ken_work.specs.Workers.{HearsNews, IsSameWorker, Working};

use crate::faults::answered;
use crate::took::Took;
use crate::worker::TurnWorker;
use ken_app::{App, Oracle};
use ken_disk::Disk;
use ken_model::{Message, OUTSIDE};
use ken_net::Net;
use ken_ship::NodeFault;

impl<D: Disk> TurnWorker<D> {
    /// Takes the next message, has the application make its turn, seals and acknowledges it. In order: what it was told is popped from
    /// its rings. `Capped`: the node makes no more turns, and nothing is taken. A log that holds 32 records is renewed. Packets are
    /// taken until one is the next mail of its sender, the net gives none or 4,096 were given; where none was, the next input is
    /// the message. Mail that was consumed before is acknowledged again, and all else is let go. `Idle`: no message came, and no
    /// input waits. `Turn`: it was made and sealed, it is handed to the patcher and to the externaliser, and a mail is
    /// acknowledged. The errors are `Disk`, after which it is in doubt whether a turnover or a seal was made, and no call may
    /// follow but a restart; and `Memory`, after which all that was done stands, and calls may follow. The message of a turn that
    /// wasn't sealed is lost, and comes again.
    pub fn turn_once<N: Net, A: App, O: Oracle>(
        &mut self,
        net: &mut N,
        app: &A,
        oracle: &mut O,
    ) -> Result<Took, NodeFault>
        requires working { Working D.told D.size (A.handler app.now) self.old }
        requires keeps { KeepsLimits self.old.nodes (256 * self.old.side.owner.pages) (A.handler app.now) }
        requires end { (N.node net.old ≡ self.old.node) × (N.nodes net.old ≡ self.old.nodes) }
        requires slots { (0 < free self.old.pages) × (0 < free self.old.sealed) }
        ensures same { IsSameWorker self.old self.new }
        ensures takes { (mid : TurnWorker D) × HearsNews self.old mid
            × TakesTurn D.told D.size D.faults D.fate (A.handler app.now)
            (Drew O.telling.clocks O.telling.words (A.handler app.now) oracle.old oracle.new) result mid self.new
            (N.given_between net.old net.new) (N.put_between net.old net.new) (N.nones net.old) (N.nones net.new) }
        ensures end { (N.node net.new ≡ N.node net.old) × (N.nodes net.new ≡ N.nodes net.old) }
        ensures clocks_go_on { HasAnswered (O.telling.clocks oracle.old) (O.telling.clocks oracle.new) }
        ensures words_go_on { HasAnswered (O.telling.words oracle.old) (O.telling.words oracle.new) }
        ensures origin { O.telling.origin oracle.new ≡ O.telling.origin oracle.old }
        ensures undrawn { IfOk result (λ took. (took ≡ Took.Turn) ⊎ (oracle.new ≡ oracle.old)) }
    {
        self.hear_news();
        if self.is_capped() {
            return Ok(Took::Capped);
        }
        self.take(net, app, oracle)
    }

    // Takes the next message and runs it. The log is renewed before, where it is full.
    fn take<N: Net, A: App, O: Oracle>(
        &mut self,
        net: &mut N,
        app: &A,
        oracle: &mut O,
    ) -> Result<Took, NodeFault>
        requires working { Working D.told D.size (A.handler app.now) self.old }
        requires keeps { KeepsLimits self.old.nodes (256 * self.old.side.owner.pages) (A.handler app.now) }
        requires open_yet { IsCapped self.old → ⊥ }
        requires end { (N.node net.old ≡ self.old.node) × (N.nodes net.old ≡ self.old.nodes) }
        requires slots { (0 < free self.old.pages) × (0 < free self.old.sealed) }
        ensures same { IsSameWorker self.old self.new }
        ensures takes { TakesTurn D.told D.size D.faults D.fate (A.handler app.now)
            (Drew O.telling.clocks O.telling.words (A.handler app.now) oracle.old oracle.new) result self.old self.new
            (N.given_between net.old net.new) (N.put_between net.old net.new) (N.nones net.old) (N.nones net.new) }
        ensures end { (N.node net.new ≡ N.node net.old) × (N.nodes net.new ≡ N.nodes net.old) }
        ensures clocks_go_on { HasAnswered (O.telling.clocks oracle.old) (O.telling.clocks oracle.new) }
        ensures words_go_on { HasAnswered (O.telling.words oracle.old) (O.telling.words oracle.new) }
        ensures origin { O.telling.origin oracle.new ≡ O.telling.origin oracle.old }
        ensures undrawn { IfOk result (λ took. (took ≡ Took.Turn) ⊎ (oracle.new ≡ oracle.old)) }
    {
        answered(self.renew())?;
        match self.find(net)? {
            Some(message) => self.run(net, app, oracle, &message),
            None => Ok(Took::Idle),
        }
    }
}
