// The workers of all nodes, at once.
ghost use Rattle.std.specs.Prelude.{◌≡◌, vec_capacity};
ghost use Rattle.std.specs.List.{All};
ghost use denote.Param.Send.{IsSync, IsSend};
ghost use Rattle.ken_threads.specs.Ran.{HasRan};
ghost use Rattle.ken_threads.specs.Teams.{HaveTeamsRun, HasStarted, MayTeamRun};

use crate::gate::{Gate, Role};
use crate::works::{Seat, Works, run};
use core::scope::Scope;
use core::thread::Stack;
use std::snapshot::Snapshot;
use std::sync::Wait;
use std::thread;
use std::thread::{Promise, PromisedHandle, Threads};

/// The bytes of a worker's stack. A worker has its large things on the heap; the system's own stacks, of some megabytes, are mapped anew
/// for each thread.
const STACK: usize = 512 * 1024;

/// The three workers of a node at their seats.
#[derive(Drop)]
pub struct Team<T, P, S> {
    pub handler: Seat<T>,
    pub patcher: Seat<P>,
    pub externaliser: Seat<S>,
}

/// The worker of a seat runs, and comes back having made its steps.
#[derive(Drop)]
pub struct RanFrom<W>(Snapshot<Seat<W>>);

impl<W: Works> Promise<Seat<W>> for RanFrom<W> {
    ghost kept_by = { λ p r. HasRan W.steps W.fails p.0.value r };
}

// A seat whose worker runs in a thread; or where none could be started, has run.
type Started<W> = Result<PromisedHandle<Seat<W>, RanFrom<W>>, Seat<W>>;

fn ran<W: Works, G: Gate>(seat: Seat<W>, role: Role, gate: &G) -> Seat<W>
    requires { W.may 16 seat.worker }
    ensures { HasRan W.steps W.fails seat result }
{
    let mut seat = seat;
    run(&mut seat, role, gate);
    seat
}

// Starts a worker in a thread of its own. Where none can be made it runs here.
fn start<'s, E, W: Works + Send + Drop + 's, G: Gate + Sync>(
    scope: &Scope<'s, E>,
    seat: Seat<W>,
    role: Role,
    gate: &'s G,
) -> Started<W>
    requires { W.may 16 seat.worker }
    ensures { HasStarted W.steps W.fails (λ h. h.promise.0.value) seat result }
{
    let promise = RanFrom(Snapshot::of(&seat));
    let job = move || -> Seat<W>
        requires { IsSync G.row × W.may 16 seat.worker }
        ensures { HasRan W.steps W.fails seat result }
    { ran(seat, role, gate) };
    let stack = Stack::new().stack_size(STACK);
    match stack.spawn_scoped_with(scope, promise, job) {
        Ok(handle) => Ok(handle),
        Err(refused) => Err((refused.value)()),
    }
}

// Waits for a worker.
fn finish<R: Threads, W: Works + Drop>(rt: &R, started: Started<W>) -> Seat<W>
    ensures { (seat : Seat W) → HasStarted W.steps W.fails (λ h. h.promise.0.value) seat started → HasRan W.steps W.fails seat result }
{
    match started {
        Ok(handle) => handle.join(rt),
        Err(seat) => seat,
    }
}

// Runs the teams, the last node's workers started first. The list keeps its room.
fn run_all<'s, E, R, T, P, S, G>(
    scope: &Scope<'s, E>,
    rt: &R,
    teams: &mut Vec<Team<T, P, S>>,
    gate: &'s G,
)
where
    R: Threads,
    T: Works + Send + Drop + 's,
    P: Works + Send + Drop + 's,
    S: Works + Send + Drop + 's,
    G: Gate + Sync,
    requires { All (MayTeamRun T.may P.may S.may) teams.old.items }
    ensures ran { HaveTeamsRun T.steps T.fails P.steps P.fails S.steps S.fails teams.old.items teams.new.items }
    ensures room { vec_capacity teams.new ≡ vec_capacity teams.old }
{
    let Some(team) = teams.pop() else {
        return;
    };
    let handler = start(scope, team.handler, Role::Handler, gate);
    let patcher = start(scope, team.patcher, Role::Patcher, gate);
    let externaliser = start(scope, team.externaliser, Role::Externaliser, gate);
    run_all(scope, rt, teams, gate);
    teams.push_reserved(Team {
        handler: finish(rt, handler),
        patcher: finish(rt, patcher),
        externaliser: finish(rt, externaliser),
    });
}

/// Runs the handlers, patchers and externalisers of nodes as threads, each in one of its own. Each makes sixteen steps, fewer only where
/// one fails: its fault is kept, and the worker makes no other. Where no thread can be started a worker's steps are made before others
/// are started. Takes no memory but for the threads.
pub fn run_teams<R, T, P, S, G>(rt: &R, teams: Vec<Team<T, P, S>>, gate: &G) -> Vec<Team<T, P, S>>
where
    R: Threads + Wait + Sync,
    T: Works + Send + Drop,
    P: Works + Send + Drop,
    S: Works + Send + Drop,
    G: Gate + Sync,
    requires { All (MayTeamRun T.may P.may S.may) teams.items }
    ensures { HaveTeamsRun T.steps T.fails P.steps P.fails S.steps S.fails teams.items result.items }
{
    thread::scope(
        thread::scope_env(),
        rt,
        move |scope| -> Vec<Team<T, P, S>>
            requires { IsSync R.row × IsSync G.row × IsSend T.row × IsSend P.row × IsSend S.row × All (MayTeamRun T.may P.may S.may) teams.items }
            ensures { HaveTeamsRun T.steps T.fails P.steps P.fails S.steps S.fails teams.items result.items }
        {
            let mut teams = teams;
            run_all(scope, rt, &mut teams, gate);
            teams
        },
    )
}
