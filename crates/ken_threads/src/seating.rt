// A node's workers at the ends of a round's wires, and back.
ghost use Rattle.std.specs.Prelude.{◌≡◌, ◌<◌, ◌≤◌, ℕ, length, vec_capacity, vec_len};
ghost use Rattle.ken_wire.specs.Ends.{taker_of};
ghost use Rattle.ken_wire.specs.Nets.{AreFrom};
ghost use Rattle.ken_threads.specs.Seating.{AreAtNodes, AreSeated, crew_at, HasLinks, HasRoom, HaveFaults, IsAtNode, IsSeated, IsVacant, KeepsFaults};
ghost use Rattle.ken_threads.specs.Wires.{AreWired, ends_of};

use crate::crew::{Crew, Faults};
use crate::seats::{HandlerSeat, SenderSeat};
use crate::team::Team;
use crate::wiring::{Ends, Wiring};
use crate::works::Seat;
use ken_net::Lossy;
use ken_wire::WireNet;
use ken_work::PatchWorker;
use std::sync::Wait;

/// A node's end of a network over the wires of a round, with its own links.
pub(crate) type RoundNet<'a, R> = Lossy<WireNet<'a, R>>;

/// A node's workers in a round.
pub(crate) type AtWork<'a, R, D, O, U, A> = Team<
    HandlerSeat<'a, D, RoundNet<'a, R>, O, A>,
    PatchWorker<D>,
    SenderSeat<RoundNet<'a, R>, U>,
>;

// Seats a node's workers: the handler takes mail and puts acknowledgements, the externaliser the other way round.
pub(crate) fn seat<'a, R: Wait, D, O, U, A>(
    rt: &'a R,
    app: &'a A,
    node: u8,
    crew: Crew<D, O, U>,
    mail: Ends,
    acks: Ends,
) -> AtWork<'a, R, D, O, U, A>
    requires takers { (taker_of mail.take ≡ node) × (taker_of acks.take ≡ node) }
    requires own { AreFrom node mail.sends.items × AreFrom node acks.sends.items }
    requires few { (length mail.sends.items ≤ 8) × (length acks.sends.items ≤ 8) }
    requires links { (node ≡ crew.mail.from) × (node ≡ crew.acks.from) }
    requires to_each { (length mail.sends.items ≡ length crew.mail.links) × (length acks.sends.items ≡ length crew.acks.links) }
    ensures seated { IsSeated crew mail acks result }
    ensures node { IsAtNode node app.now result }
{
    let handler_net = Lossy::over(crew.acks, WireNet::new(rt, node, mail.take, acks.sends));
    let sender_net = Lossy::over(crew.mail, WireNet::new(rt, node, acks.take, mail.sends));
    Team {
        handler: Seat {
            node,
            worker: HandlerSeat {
                worker: crew.turns,
                net: handler_net,
                oracle: crew.oracle,
                app,
            },
            fault: None,
        },
        patcher: Seat {
            node,
            worker: crew.patches,
            fault: None,
        },
        externaliser: Seat {
            node,
            worker: SenderSeat {
                worker: crew.sends,
                net: sender_net,
                outlet: crew.outlet,
            },
            fault: None,
        },
    }
}

// Brings a node's workers back from their seats, with the faults that they kept, and the ends of its wires.
pub(crate) fn unseat<R: Wait, D, O, U, A>(
    team: AtWork<R, D, O, U, A>,
) -> (Crew<D, O, U>, Ends, Ends)
    ensures seated { IsSeated result.0 result.1 result.2 team.entry }
    ensures faults { KeepsFaults team.entry result.0.faults }
{
    let Team {
        handler,
        patcher,
        externaliser,
    } = team;
    let HandlerSeat {
        worker: turns,
        net: handler_net,
        oracle,
        ..
    } = handler.worker;
    let SenderSeat {
        worker: sends,
        net: sender_net,
        outlet,
    } = externaliser.worker;
    let (acks, handler_wires) = handler_net.into_parts();
    let (mail, sender_wires) = sender_net.into_parts();
    let (mail_take, acks_sends) = handler_wires.into_parts();
    let (acks_take, mail_sends) = sender_wires.into_parts();
    let faults = Faults {
        handler: handler.fault,
        patcher: patcher.fault,
        externaliser: externaliser.fault,
    };
    let crew = Crew {
        turns,
        patches: patcher.worker,
        sends,
        oracle,
        outlet,
        mail,
        acks,
        faults,
    };
    (
        crew,
        Ends {
            take: mail_take,
            sends: mail_sends,
        },
        Ends {
            take: acks_take,
            sends: acks_sends,
        },
    )
}

// Seats all crews, the last node's first. Their list, and those of the wires' ends, are left empty, with their room.
pub(crate) fn seat_all<'a, R: Wait, D, O, U, A>(
    rt: &'a R,
    app: &'a A,
    crews: &mut Vec<Crew<D, O, U>>,
    mail: &mut Wiring,
    acks: &mut Wiring,
    teams: &mut Vec<AtWork<'a, R, D, O, U, A>>,
)
    requires few { length crews.old.items ≤ 8 }
    requires links { (v : ℕ) (c : Crew D O U) → v < length crews.old.items → HasLinks (length crews.old.items) v (crew_at v crews.old.items c) }
    requires mail { AreWired (length crews.old.items) mail.old.takes.items (ends_of mail.old.sends.items) }
    requires acks { AreWired (length crews.old.items) acks.old.takes.items (ends_of acks.old.sends.items) }
    requires room { (vec_len teams.old ≡ 0) × (length crews.old.items ≤ vec_capacity teams.old) }
    ensures seated { AreSeated crews.old.items mail.old.takes.items mail.old.sends.items acks.old.takes.items acks.old.sends.items teams.new.items }
    ensures nodes { AreAtNodes app.now teams.new.items }
    ensures empty { (vec_len crews.new ≡ 0) × IsVacant mail.old mail.new × IsVacant acks.old acks.new }
    ensures room { vec_capacity crews.new ≡ vec_capacity crews.old }
{
    'crews: while let Some(crew) = crews.pop() {
        let node = crews.len() as u8;
        teams.push_reserved(seat(rt, app, node, crew, mail.pop(), acks.pop()));
    }
}

// Brings all crews back from their seats, and the ends of their wires.
pub(crate) fn unseat_all<R: Wait, D, O, U, A>(
    teams: &mut Vec<AtWork<R, D, O, U, A>>,
    crews: &mut Vec<Crew<D, O, U>>,
    mail: &mut Wiring,
    acks: &mut Wiring,
)
    requires crews { (vec_len crews.old ≡ 0) × (length teams.old.items ≤ vec_capacity crews.old) }
    requires mail { HasRoom (length teams.old.items) mail.old }
    requires acks { HasRoom (length teams.old.items) acks.old }
    ensures seated { AreSeated crews.new.items mail.new.takes.items mail.new.sends.items acks.new.takes.items acks.new.sends.items teams.old.items }
    ensures faults { HaveFaults teams.old.items crews.new.items }
    ensures mail { (length mail.new.takes.items ≡ length teams.old.items) × (length mail.new.sends.items ≡ length teams.old.items) }
    ensures acks { (length acks.new.takes.items ≡ length teams.old.items) × (length acks.new.sends.items ≡ length teams.old.items) }
{
    'teams: while let Some(team) = teams.pop() {
        let (crew, mail_ends, acks_ends) = unseat(team);
        crews.push_reserved(crew);
        mail.push(mail_ends);
        acks.push(acks_ends);
    }
}
