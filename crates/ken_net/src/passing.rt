// What a link passes on to the base that it stands on.
ghost use Rattle.std.specs.Prelude.{◌≡◌, ◌<◌, ◌∷◌, ◌++◌, [], true, map, take, drop};
ghost use Rattle.std.specs.List.{AllByRecursion};
ghost use Rattle.ken_packet.specs.Reading.{packet_of};
ghost use Rattle.ken_net.specs.Copies.{copies_of};
ghost use Rattle.ken_net.specs.Puts.{MayPut, is_between, alone, handing};
ghost use Rattle.ken_net.specs.Standings.{due, still, are_between};
ghost use Rattle.ken_net.specs.Went.{Went};

use crate::base::Base;
use crate::copies::Copies;
use crate::handed::Handed;
use crate::link::Kept;
use ken_model::Octets;
use std::collections::VecDeque;
use std::marker::Brand;

// Passes a packet on. A call of it may pick what is handed in, which one of a bound's method may not.
pub(crate) fn pass_one<B: Base, H: Handed>(base: &mut B, to: u8, bytes: Octets)
    requires to { to < B.nodes base.old }
    requires may { MayPut (B.node base.old) to H.sealed H.consumed bytes }
    ensures { Went B.node B.nodes B.nones B.put_between B.given_between base.old base.new (handing to H.sealed H.consumed bytes ∷ []) }
{
    base.push::<H>(to, bytes);
}

// Passes the copies of a packet on, with what was handed in with it.
pub(crate) fn pass<B: Base, H: Handed>(base: &mut B, to: u8, copies: Copies)
    requires to { to < B.nodes base.old }
    requires may { AllByRecursion (MayPut (B.node base.old) to H.sealed H.consumed) (copies_of copies) }
    ensures { Went B.node B.nodes B.nones B.put_between B.given_between base.old base.new (map (handing to H.sealed H.consumed) (copies_of copies)) }
{
    match copies {
        Copies::Nothing => {}
        Copies::One(bytes) => pass_one::<B, H>(base, to, bytes),
        Copies::Two(first, second) => {
            pass_one::<B, H>(base, to, first);
            pass_one::<B, H>(base, to, second);
        }
    }
}

// Passes a packet on that was kept: it hands in its own mail or number alone.
fn pass_alone<B: Base>(base: &mut B, to: u8, bytes: Octets)
    requires to { to < B.nodes base.old }
    requires own { is_between (B.node base.old) to (packet_of bytes) ≡ true }
    ensures { Went B.node B.nodes B.nones B.put_between B.given_between base.old base.new (alone to bytes ∷ []) }
{
    pass_one::<B, Brand>(base, to, bytes);
}

// The oldest packet that is kept has waited for one more put: it is passed on where it comes due, and else goes behind
// the others.
fn pass_oldest<B: Base>(base: &mut B, to: u8, kept: &mut VecDeque<Kept>)
    requires to { to < B.nodes base.old }
    requires own { are_between (B.node base.old) to kept.old.items ≡ true }
    ensures passed { Went B.node B.nodes B.nones B.put_between B.given_between base.old base.new (map (alone to) (due (take 1 kept.old.items))) }
    ensures kept { kept.new.items ≡ drop 1 kept.old.items ++ still (take 1 kept.old.items) }
{
    let Some(packet) = kept.pop_front() else {
        return;
    };
    if packet.wait <= 1 {
        pass_alone(base, to, packet.bytes);
    } else {
        kept.push_back_reserved(Kept {
            wait: packet.wait - 1,
            bytes: packet.bytes,
        });
    }
}

// All that is kept has waited for one more put: what comes due is passed on, in order.
pub(crate) fn pass_due<B: Base>(base: &mut B, to: u8, kept: &mut VecDeque<Kept>)
    requires to { to < B.nodes base.old }
    requires own { are_between (B.node base.old) to kept.old.items ≡ true }
    ensures passed { Went B.node B.nodes B.nones B.put_between B.given_between base.old base.new (map (alone to) (due kept.old.items)) }
    ensures kept { kept.new.items ≡ still kept.old.items }
{
    for _turn in 0..kept.len() {
        pass_oldest(base, to, kept);
    }
}
