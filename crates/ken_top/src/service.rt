// A service of one's own.
ghost use Rattle.std.specs.Prelude.{◌≡◌, ◌⊎◌, map, string_bytes, IfOk, IfSome};
ghost use Rattle.ken_app.specs.Limited.{limited};
ghost use Rattle.ken_drive.specs.Clauses.{files_of, views_of};
ghost use Rattle.ken_drive.specs.Worlds.{HasKeptNothing};
ghost use Rattle.ken_words.specs.Commands.{prefix_of};
ghost use Rattle.ken_words.specs.Fits.{Fits};
ghost use Rattle.ken_top.specs.Commands.{RunsNothing, service_command_of};
ghost use Rattle.ken_top.specs.Does.{Does, all_rounds, no_rounds};
ghost use Rattle.ken_top.specs.Programs.{service};

use crate::cast::Cast;
use crate::doing::{done, done_alone};
use crate::status::Status;
use ken_app::{Limited, Service, limited_keeps_limits, limited_keeps_lines};
use ken_drive::World;
use ken_io::{Sink, Source};
use ken_script::{Script, ScriptFault, read_service};
use ken_trial::ServicePlayer;
use ken_words::{Command, command_in, commands_fit, prefix_in};
use std::alloc::{AllocError, Global};
use std::sync::Wait;
use std::thread::Threads;

/// Does with a service of one's own what `ken` does with the kinds, and promises the same of it. `words` begins with the program's name.
/// `run` reads a script of the keys of `ken run` but `kind`, runs it with the service over the world's devices, and writes the report. `torment`
/// and a seed does so with faults that are drawn from the seed beside the script's own. `check` and a length reads a script of so many bytes
/// and a report behind it, and writes `yes` where each line of the report is right for the script and the service. `save` and a prefix does
/// what `run` does, and copies the disks of each node to files; `dump`, a prefix and its three numbers writes what those of a node recover
/// to. Other words get `Usage`.
///
/// A turn of the service that is beyond the limits, or sends or outputs a line feed, changes nothing and outputs `beyond the limits`.
/// Each status comes as it does from `ken`; a `kind` is refused as a key that isn't known. A line is told as wrong for certain where the
/// draws of the handler are decided: of two lists of draws that it takes at one message none is the beginning of the other.
pub fn serve<R: Threads + Wait + Sync, A: Service + Sync + Drop, S: Source, K: Sink, W: World>(
    rt: &R,
    alloc: Global,
    app: A,
    words: &[String],
    source: &mut S,
    sink: &mut K,
    world: &mut W,
) -> Status
    requires { RunsNothing (service_command_of (map string_bytes words.now)) ⊎ HasKeptNothing (W.kept world.old) }
    ensures { Does S.Source K.Sink (views_of W.Dev.Disk W.Luck.Oracle W.Out.Outlet W.scripted)
        (files_of W.File.Disk W.tells) W.kept W.filing (service (limited (A.handler app))) all_rounds
        (service_command_of (map string_bytes words.now)) (prefix_of (map string_bytes words.now))
        source.old source.new sink.old sink.new world.old world.new result }
{
    match service_command_in(alloc, words) {
        Ok(command) => done(
            rt,
            alloc,
            Own(app),
            command,
            prefix_in(words),
            source,
            sink,
            world,
        ),
        Err(_) => Status::Memory,
    }
}

/// Does what `serve` does, but makes no rounds, whatever a script asks for. It starts no thread and waits for nobody, so it
/// is proved to return.
pub fn serve_alone<A: Service + Sync + Drop, S: Source, K: Sink, W: World>(
    alloc: Global,
    app: A,
    words: &[String],
    source: &mut S,
    sink: &mut K,
    world: &mut W,
) -> Status
    requires { RunsNothing (service_command_of (map string_bytes words.now)) ⊎ HasKeptNothing (W.kept world.old) }
    ensures { Does S.Source K.Sink (views_of W.Dev.Disk W.Luck.Oracle W.Out.Outlet W.scripted)
        (files_of W.File.Disk W.tells) W.kept W.filing (service (limited (A.handler app))) no_rounds
        (service_command_of (map string_bytes words.now)) (prefix_of (map string_bytes words.now))
        source.old source.new sink.old sink.new world.old world.new result }
{
    match service_command_in(alloc, words) {
        Ok(command) => {
            done_alone(
                alloc,
                Own(app),
                command,
                prefix_in(words),
                source,
                sink,
                world,
            )
        }
        Err(_) => Status::Memory,
    }
}

/// The command that plain words ask of a service, which makes no soak.
fn service_command_in(alloc: Global, words: &[String]) -> Result<Option<Command>, AllocError>
    ensures asked { IfOk result (λ command. command ≡ service_command_of (map string_bytes words.now)) }
    ensures fits { IfOk result (λ command. IfSome command Fits) }
{
    commands_fit();
    match command_in(alloc, words)? {
        Some(Command::Soak { .. }) => Ok(None),
        command => Ok(command),
    }
}

/// A service within the limits of a turn.
#[derive(Drop)]
struct Own<A>(A);

impl<A: Service + Sync + Drop> Cast for Own<A> {
    type App = Limited<A>;

    type Player = ServicePlayer<A>;

    ghost program = { λ own. service (limited (A.handler own.0)) };

    #[tactic(auto, using(crate::proofs::Reported::fault_of_service))]
    fn read(&self, alloc: Global, bytes: &[u8]) -> Result<Script, ScriptFault> {
        read_service(alloc, bytes)
    }

    fn app(self, _script: &Script) -> Limited<A> {
        limited_keeps_limits();
        limited_keeps_lines();
        Limited { service: self.0 }
    }

    fn player(self, _script: &Script) -> ServicePlayer<A> {
        ServicePlayer { service: self.0 }
    }
}
