// The lists of what a script lets fail.
ghost use Rattle.std.specs.Prelude.{◌≡◌, ℕ, Option, None, Some, IfOk, OnOk, IfErr, option_and_then};
ghost use Rattle.serde_json.specs.Data.{Data};
ghost use Rattle.serde_json.specs.View.{view, items_view};
ghost use Rattle.ken_script.specs.Keys.{listed, list_under};
ghost use Rattle.ken_script.specs.Lists.{Spot, all_of, wrong_item};
ghost use Rattle.ken_script.specs.Mishaps.{count_of, act_named, act_of, cut_of, cut_spot, link_act_of, link_spot, out_fail_of, out_spot};
ghost use Rattle.ken_script.specs.Faults.{Names, item_fault};

use crate::faults::ScriptFault;
use crate::keys::list_under;
use crate::numbers::{number_below, number_within};
use crate::scripts::{DISKS, DiskCut, MAX_COUNT, MAX_HOLD, OutFail};
use ken_net::{Act, LinkAct};
use serde_json::Value;
use std::alloc::Global;
use std::collections::BTreeSet;

/// What a script lets fail at one place, as an item of a list says it.
pub(crate) trait Mishap: Copy + Drop {
    /// What an item says in a run of so many nodes.
    ghost said: { ℕ → Data → Option Self };

    /// Where it strikes.
    ghost spot: { Self → Spot };

    /// What the item says in a run of so many nodes.
    fn read(item: &Value, nodes: u8) -> Option<Self>
        ensures { result ≡ said nodes (view item.now) };

    /// Where it strikes. No two of a list may strike at one place.
    fn spot(&self) -> (u8, u8, u64)
        ensures { result ≡ spot self.now };
}

/// The number of a call or of a put.
fn count_of(value: &Value) -> Option<u64>
    ensures { result ≡ count_of (view value.now) }
{
    number_within(value, 1, MAX_COUNT)
}

fn act_named(name: &str) -> Option<Act>
    ensures { result ≡ act_named name.now }
{
    match name {
        "lose" => Some(Act::Lose),
        "repeat" => Some(Act::Repeat),
        _ => None,
    }
}

/// What becomes of a packet: the name of an act, or for how many later puts it is held.
fn act_of(value: &Value) -> Option<Act>
    ensures { result ≡ act_of (view value.now) }
{
    match value.as_str() {
        Some(name) => act_named(name),
        None => Some(Act::Hold(number_within(value, 1, u64::from(MAX_HOLD))? as u8)),
    }
}

impl Mishap for DiskCut {
    ghost said = { cut_of };

    ghost spot = { cut_spot };

    fn read(item: &Value, nodes: u8) -> Option<Self> {
        let [node, disk, call, pick] = item.as_array()?.as_slice() else {
            return None;
        };
        Some(DiskCut {
            node: number_below(node, nodes)?,
            disk: number_below(disk, DISKS)?,
            call: count_of(call)?,
            pick: pick.as_u64()?,
        })
    }

    fn spot(&self) -> (u8, u8, u64) {
        (self.node, self.disk, self.call)
    }
}

impl Mishap for LinkAct {
    ghost said = { link_act_of };

    ghost spot = { link_spot };

    fn read(item: &Value, nodes: u8) -> Option<Self> {
        let [from, to, n, act] = item.as_array()?.as_slice() else {
            return None;
        };
        Some(LinkAct {
            from: number_below(from, nodes)?,
            to: number_below(to, nodes)?,
            n: count_of(n)?,
            act: act_of(act)?,
        })
    }

    fn spot(&self) -> (u8, u8, u64) {
        (self.from, self.to, self.n)
    }
}

impl Mishap for OutFail {
    ghost said = { out_fail_of };

    ghost spot = { out_spot };

    fn read(item: &Value, nodes: u8) -> Option<Self> {
        let [node, call] = item.as_array()?.as_slice() else {
            return None;
        };
        Some(OutFail {
            node: number_below(node, nodes)?,
            call: count_of(call)?,
        })
    }

    // A node has one outlet.
    fn spot(&self) -> (u8, u8, u64) {
        (self.node, 0, self.call)
    }
}

/// What the items say, if there are at most `room`, and no two strike at one place.
fn mishaps_of<T: Mishap>(
    alloc: Global,
    items: &[Value],
    nodes: u8,
    room: usize,
    rule: u8,
) -> Result<Vec<T>, ScriptFault>
    ensures mishaps { IfOk result (λ mishaps. all_of (T.said nodes) (listed (items_view items.now)) ≡ Some mishaps.items) }
    ensures right { OnOk result (wrong_item (T.said nodes) T.spot room (listed (items_view items.now)) ≡ None) }
    ensures wrong { IfErr result (Names rule (wrong_item (T.said nodes) T.spot room (listed (items_view items.now)))) }
{
    let mut mishaps = Vec::new(alloc);
    let mut spots = BTreeSet::new(alloc);
    for (place, item) in items.iter().enumerate() {
        if place == room {
            return Err(ScriptFault::at(rule, place));
        }
        let Some(mishap) = T::read(item, nodes) else {
            return Err(ScriptFault::at(rule, place));
        };
        let fresh = spots.insert(mishap.spot())?;
        if !fresh {
            return Err(ScriptFault::at(rule, place));
        }
        mishaps.push(mishap)?;
    }
    Ok(mishaps)
}

/// The list under a key. An absent key has no items.
pub(crate) fn mishaps_in<T: Mishap>(
    alloc: Global,
    script: &Value,
    key: &str,
    nodes: u8,
    room: usize,
    rule: u8,
) -> Result<Vec<T>, ScriptFault>
    ensures mishaps { IfOk result
        (λ mishaps. option_and_then (all_of (T.said nodes)) (list_under key.now (view script.now)) ≡ Some mishaps.items) }
    ensures right { OnOk result (item_fault (wrong_item (T.said nodes) T.spot room) (list_under key.now (view script.now)) ≡ None) }
    ensures wrong { IfErr result (Names rule (item_fault (wrong_item (T.said nodes) T.spot room) (list_under key.now (view script.now)))) }
{
    let Some(items) = list_under(script, key) else {
        return Err(ScriptFault::at(rule, 0));
    };
    mishaps_of(alloc, items, nodes, room, rule)
}
