// What a script lets fail: cuts of disks, and acts on links.
ghost use Rattle.std.specs.Prelude.{◌≡◌, ◌<◌, [], IfOk, OnOk};
ghost use Rattle.std.specs.List.{list_any};
ghost use Rattle.ken_gen.specs.Mishaps.{act_at, acts_from, cut_at, cuts_from, is_same_call, is_same_put, link_act_at, past_act, past_acts, past_cut, past_cuts, past_link_act, without_repeats};

use crate::draws::{draw, draw_node};
use ken_net::{Act, LinkAct};
use ken_num::Lcg;
use ken_script::DiskCut;
use std::alloc::{AllocError, Global};

/// The disks that are cut: the log and the image.
const CUT_DISKS: u64 = 2;

/// Where the calls that are cut begin.
const FIRST_CALL: u64 = 40;

/// Among how many calls a cut is.
const CALLS: u64 = 400;

/// The picks are below this.
pub(crate) const PICKS: u64 = 10;

/// Among how many puts of a link an act is, from the first.
const PUTS: u64 = 100;

/// The most later puts for which a packet is held.
const HOLDS: u64 = 4;

/// A cut of a disk: its node, disk, call and pick.
#[tactic(auto, unfolding(crate::specs::Mishaps::cut_at, crate::specs::Mishaps::past_cut))]
fn draw_cut(generator: &mut Lcg, nodes: u8) -> DiskCut
    requires { 0 < nodes }
    ensures cut { result ≡ cut_at nodes generator.old }
    ensures state { generator.new ≡ past_cut generator.old }
{
    DiskCut {
        node: draw_node(generator, nodes),
        disk: draw(generator, CUT_DISKS) as u8,
        call: FIRST_CALL + draw(generator, CALLS),
        pick: draw(generator, PICKS),
    }
}

/// What becomes of a packet: its loss, its repeat, or with one further answer for how many puts it is held.
#[tactic(auto, unfolding(crate::specs::Mishaps::act_at, crate::specs::Mishaps::past_act))]
pub(crate) fn draw_act(generator: &mut Lcg) -> Act
    ensures act { result ≡ act_at generator.old }
    ensures state { generator.new ≡ past_act generator.old }
{
    match draw(generator, 3) {
        0 => Act::Lose,
        1 => Act::Repeat,
        _ => Act::Hold(1 + draw(generator, HOLDS) as u8),
    }
}

/// An act on a put of a link: the ends of the link, the number of the put, and what becomes of its packet.
#[tactic(auto, unfolding(crate::specs::Mishaps::link_act_at, crate::specs::Mishaps::past_link_act))]
fn draw_link_act(generator: &mut Lcg, nodes: u8) -> LinkAct
    requires { 0 < nodes }
    ensures act { result ≡ link_act_at nodes generator.old }
    ensures state { generator.new ≡ past_link_act generator.old }
{
    LinkAct {
        from: draw_node(generator, nodes),
        to: draw_node(generator, nodes),
        n: 1 + draw(generator, PUTS),
        act: draw_act(generator),
    }
}

/// Whether one of the cuts is at the call of `cut`.
pub(crate) fn has_call_of(cuts: &[DiskCut], cut: &DiskCut) -> bool
    ensures { result ≡ list_any (is_same_call cut.now) cuts.now }
{
    cuts.iter().any(|earlier| {
        cut.node == earlier.node && cut.disk == earlier.disk && cut.call == earlier.call
    })
}

/// Whether one of the acts is on the put of `act`.
pub(crate) fn has_put_of(acts: &[LinkAct], act: &LinkAct) -> bool
    ensures { result ≡ list_any (is_same_put act.now) acts.now }
{
    acts.iter().any(|earlier| act.from == earlier.from
        && act.to == earlier.to
        && act.n == earlier.n)
}

/// So many cuts, without those at the call of an earlier one.
#[tactic(auto, using(crate::proofs::Steps::cuts_skip, crate::proofs::Steps::cuts_on, crate::proofs::Steps::cuts_done, crate::proofs::Steps::past_cuts_on, crate::proofs::Steps::past_cuts_done))]
pub(crate) fn draw_cuts(
    alloc: Global,
    generator: &mut Lcg,
    nodes: u8,
    count: u8,
) -> Result<Vec<DiskCut>, AllocError>
    requires { 0 < nodes }
    ensures cuts { IfOk result (λ cuts. cuts.items ≡ without_repeats is_same_call [] (cuts_from nodes count generator.old)) }
    ensures state { OnOk result (generator.new ≡ past_cuts count generator.old) }
{
    let mut cuts = Vec::new(alloc);
    for _made in 0..count {
        let cut = draw_cut(generator, nodes);
        if !has_call_of(cuts.as_slice(), &cut) {
            cuts.push(cut)?;
        }
    }
    Ok(cuts)
}

/// So many acts, without those on the put of an earlier one.
#[tactic(auto, using(crate::proofs::Steps::acts_skip, crate::proofs::Steps::acts_on, crate::proofs::Steps::acts_done, crate::proofs::Steps::past_acts_on, crate::proofs::Steps::past_acts_done))]
pub(crate) fn draw_acts(
    alloc: Global,
    generator: &mut Lcg,
    nodes: u8,
    count: u8,
) -> Result<Vec<LinkAct>, AllocError>
    requires { 0 < nodes }
    ensures acts { IfOk result (λ acts. acts.items ≡ without_repeats is_same_put [] (acts_from nodes count generator.old)) }
    ensures state { OnOk result (generator.new ≡ past_acts count generator.old) }
{
    let mut acts = Vec::new(alloc);
    for _made in 0..count {
        let act = draw_link_act(generator, nodes);
        if !has_put_of(acts.as_slice(), &act) {
            acts.push(act)?;
        }
    }
    Ok(acts)
}
