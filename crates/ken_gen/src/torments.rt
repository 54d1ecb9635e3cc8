// A script with faults of a seed.
ghost use Rattle.std.specs.Prelude.{◌≡◌, ◌<◌, ◌≤◌, ◌==◌, IfOk, OnOk};
ghost use Rattle.ken_script.specs.Within.{KeepsRules};
ghost use Rattle.std.specs.List.{list_any};
ghost use Rattle.ken_gen.specs.Torments.{added, is_same_try, items_from, may_act, may_cut, may_refuse, past_items, past_refusal, past_wide, past_wide_act, past_wide_cut, refusal, tormented, wide, wide_act, wide_cut};

use crate::draws::{draw, draw_node};
use crate::mishaps::{PICKS, draw_act, has_call_of, has_put_of};
use ken_model::Items;
use ken_net::LinkAct;
use ken_num::Lcg;
use ken_script::{DISKS, DiskCut, MAX_ACTS, MAX_CUTS, MAX_OUT_FAILS, OutFail, Script};
use std::alloc::AllocError;

/// How many cuts are drawn.
const CUTS: u8 = 12;

/// How many acts on puts of messages are drawn.
const MAIL: u8 = 32;

/// How many acts on puts of acknowledgements are drawn.
const ACKS: u8 = 16;

/// How many refusals of outlets are drawn.
const REFUSALS: u8 = 8;

/// The most refusals of a node behind which none is added: one more in a row would bring it down.
const MAX_REFUSALS: usize = 64;

/// The script with faults of a seed behind its own: cuts, acts on links, and refusals of outlets. None strikes where another
/// does, and none is added that could bring a node down. It keeps the rules of a script that is read.
#[tactic(auto, using(crate::proofs::Tormented::keeps_rules))]
pub fn torment(seed: u64, script: Script) -> Result<Script, AllocError>
    requires keeps { KeepsRules script }
    ensures made { IfOk result (λ s. s ≡ tormented seed script) }
    ensures keeps { IfOk result KeepsRules }
{
    let mut generator = Lcg::new(seed);
    let nodes = script.facts.nodes;
    Ok(Script {
        cuts: add_cuts(&mut generator, nodes, script.restarts, script.cuts)?,
        mail: add_acts(&mut generator, nodes, MAIL, script.mail)?,
        acks: add_acts(&mut generator, nodes, ACKS, script.acks)?,
        outlets: add_refusals(&mut generator, nodes, script.outlets)?,
        ..script
    })
}

/// Cuts, and behind them those of the drawn ones that may be added.
fn add_cuts(
    generator: &mut Lcg,
    nodes: u8,
    restarts: u64,
    cuts: Items<DiskCut>,
) -> Result<Items<DiskCut>, AllocError>
    requires { 0 < nodes }
    ensures cuts { IfOk result (λ new. new ≡ added (may_cut restarts) cuts (items_from (wide_cut nodes) past_wide_cut 12 generator.old)) }
    ensures state { OnOk result (generator.new ≡ past_items past_wide_cut 12 generator.old) }
{
    let mut cuts = cuts.into_vec();
    for _made in 0..CUTS {
        let cut = draw_wide_cut(generator, nodes);
        if may_cut(restarts, cuts.as_slice(), &cut) {
            cuts.push(cut)?;
        }
    }
    Ok(Items::new(cuts))
}

/// Acts, and behind them those of so many drawn ones that may be added.
fn add_acts(
    generator: &mut Lcg,
    nodes: u8,
    count: u8,
    acts: Items<LinkAct>,
) -> Result<Items<LinkAct>, AllocError>
    requires { 0 < nodes }
    ensures acts { IfOk result (λ new. new ≡ added may_act acts (items_from (wide_act nodes) past_wide_act count generator.old)) }
    ensures state { OnOk result (generator.new ≡ past_items past_wide_act count generator.old) }
{
    let mut acts = acts.into_vec();
    for _made in 0..count {
        let act = draw_wide_act(generator, nodes);
        if may_act(acts.as_slice(), &act) {
            acts.push(act)?;
        }
    }
    Ok(Items::new(acts))
}

/// Refusals, and behind them those of the drawn ones that may be added.
fn add_refusals(
    generator: &mut Lcg,
    nodes: u8,
    refusals: Items<OutFail>,
) -> Result<Items<OutFail>, AllocError>
    requires { 0 < nodes }
    ensures refusals { IfOk result (λ new. new ≡ added may_refuse refusals (items_from (refusal nodes) past_refusal 8 generator.old)) }
{
    let mut refusals = refusals.into_vec();
    for _made in 0..REFUSALS {
        let refusal = draw_refusal(generator, nodes);
        if may_refuse(refusals.as_slice(), &refusal) {
            refusals.push(refusal)?;
        }
    }
    Ok(Items::new(refusals))
}

/// Whether a cut may be put behind these: there is room, none is at its call, and its node has fewer than its restarts.
fn may_cut(restarts: u64, cuts: &[DiskCut], cut: &DiskCut) -> bool
    ensures { result ≡ may_cut restarts cuts.now cut.now }
{
    let own = cuts
        .iter()
        .filter(|earlier| earlier.node == cut.node)
        .count();
    cuts.len() < MAX_CUTS && !has_call_of(cuts, cut) && (own as u64) < restarts
}

/// Whether an act may be put behind these: there is room, and none is on its put.
fn may_act(acts: &[LinkAct], act: &LinkAct) -> bool
    ensures { result ≡ may_act acts.now act.now }
{
    acts.len() < MAX_ACTS && !has_put_of(acts, act)
}

/// Whether a refusal may be put behind these: there is room, none is at its call, and its node has few.
fn may_refuse(refusals: &[OutFail], refusal: &OutFail) -> bool
    ensures { result ≡ may_refuse refusals.now refusal.now }
{
    let own = refusals
        .iter()
        .filter(|earlier| earlier.node == refusal.node)
        .count();
    refusals.len() < MAX_OUT_FAILS && !has_try_of(refusals, refusal) && own < MAX_REFUSALS
}

/// Whether one of the refusals is at the call of `refusal`.
fn has_try_of(refusals: &[OutFail], refusal: &OutFail) -> bool
    ensures { result ≡ list_any (is_same_try refusal.now) refusals.now }
{
    refusals.iter().any(|earlier| refusal.node == earlier.node && refusal.call == earlier.call)
}

/// A cut of a disk: its node, disk, call and pick.
#[tactic(auto, unfolding(crate::specs::Torments::wide_cut, crate::specs::Torments::past_wide_cut))]
fn draw_wide_cut(generator: &mut Lcg, nodes: u8) -> DiskCut
    requires { 0 < nodes }
    ensures cut { result ≡ wide_cut nodes generator.old }
    ensures state { generator.new ≡ past_wide_cut generator.old }
{
    DiskCut {
        node: draw_node(generator, nodes),
        disk: draw(generator, u64::from(DISKS)) as u8,
        call: draw_wide(generator, 3, 9),
        pick: draw(generator, PICKS),
    }
}

/// An act on a put of a link: the ends of the link, the number of the put, and what becomes of its packet.
#[tactic(auto, unfolding(crate::specs::Torments::wide_act, crate::specs::Torments::past_wide_act))]
fn draw_wide_act(generator: &mut Lcg, nodes: u8) -> LinkAct
    requires { 0 < nodes }
    ensures act { result ≡ wide_act nodes generator.old }
    ensures state { generator.new ≡ past_wide_act generator.old }
{
    LinkAct {
        from: draw_node(generator, nodes),
        to: draw_node(generator, nodes),
        n: draw_wide(generator, 1, 7),
        act: draw_act(generator),
    }
}

/// A refusal of an outlet: its node and its call.
#[tactic(auto, unfolding(crate::specs::Torments::refusal, crate::specs::Torments::past_refusal))]
fn draw_refusal(generator: &mut Lcg, nodes: u8) -> OutFail
    requires { 0 < nodes }
    ensures refusal { result ≡ refusal nodes generator.old }
    ensures state { generator.new ≡ past_refusal generator.old }
{
    OutFail {
        node: draw_node(generator, nodes),
        call: draw_wide(generator, 1, 5),
    }
}

/// A number from 1 to 2^width, where its width is drawn first, from `least` to `most`.
#[tactic(auto, unfolding(crate::specs::Torments::wide, crate::specs::Torments::past_wide))]
fn draw_wide(generator: &mut Lcg, least: u8, most: u8) -> u64
    requires order { least ≤ most }
    requires narrow { most < 64 }
    ensures number { result ≡ wide least most generator.old }
    ensures state { generator.new ≡ past_wide generator.old }
{
    let width = u64::from(least) + draw(generator, u64::from(most - least) + 1);
    1 + draw(generator, 1 << width)
}
