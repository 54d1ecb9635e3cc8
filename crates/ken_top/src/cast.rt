// Who acts in a run, and by which scripts.
ghost use Rattle.std.specs.Prelude.{◌≡◌, IfOk, IfErr};
ghost use Rattle.ken_script.specs.Within.{KeepsRules};
ghost use Rattle.ken_drive.specs.Starting.{Serves};
ghost use Rattle.ken_top.specs.Programs.{Program, SaysTo, IsFaultTo, handler_in};

use ken_actors::Player;
use ken_app::App;
use ken_script::{Script, ScriptFault};
use std::alloc::Global;

/// What a program runs: which scripts it reads, and who makes the turns of its nodes.
pub(crate) trait Cast {
    /// Who makes its turns in a run.
    type App: App + Sync + Drop;

    /// Who plays its turns plainly, for a check.
    type Player: Player + Drop;

    /// The program.
    ghost program: { Self → Program };

    /// Reads a script.
    fn read(&self, alloc: Global, bytes: &[u8]) -> Result<Script, ScriptFault>
        ensures says { IfOk result (SaysTo (program self.now) bytes.now) }
        ensures breaks { IfErr result (IsFaultTo (program self.now) bytes.now) }
        ensures keeps { IfOk result KeepsRules };

    /// Who makes the turns of one.
    fn app(self, script: &Script) -> Self::App
        ensures handler { Self.App.handler result ≡ handler_in (program self) script.now }
        ensures serves { Serves (Self.App.handler result) script.now };

    /// Who plays the turns of one.
    fn player(self, script: &Script) -> Self::Player
        ensures { Self.Player.handler result ≡ handler_in (program self) script.now };
}
