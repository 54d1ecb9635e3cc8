// The kinds that a script may name.
ghost use Rattle.ken_top.specs.Programs.{kinds};

use crate::cast::Cast;
use ken_actors::KindPlayer;
use ken_apps::KindApp;
use ken_drive::kinds_serve;
use ken_script::{Script, ScriptFault, read};
use std::alloc::Global;

/// The handlers of the kinds.
#[derive(Drop)]
pub(crate) struct Kinds;

impl Cast for Kinds {
    type App = KindApp;

    type Player = KindPlayer;

    ghost program = { λ _. kinds };

    #[tactic(auto, using(crate::proofs::Reported::fault_of_kinds))]
    fn read(&self, alloc: Global, bytes: &[u8]) -> Result<Script, ScriptFault> {
        read(alloc, bytes)
    }

    fn app(self, script: &Script) -> KindApp {
        kinds_serve();
        KindApp(script.facts.kind)
    }

    fn player(self, script: &Script) -> KindPlayer {
        KindPlayer(script.facts.kind)
    }
}
