ghost use Rattle.std.specs.Prelude.{IfOk, IfErr};
ghost use Rattle.serde_json.specs.View.{view};
ghost use Rattle.ken_script.specs.Object.{IsObject};
ghost use Rattle.ken_script.specs.Faults.{IsFaultOf, IsFaultIn, IsNoObject};
ghost use Rattle.ken_script.specs.Says.{States, Says};
ghost use Rattle.ken_script.specs.Within.{KeepsRules};

use crate::faults::{
    ACKS, COUNTS, CUTS, INPUTS, KEYS, KIND, MAIL, NODES, OBJECT, OUTLETS, PAGES, SEED, ScriptFault,
    TEXT_BYTES, TEXT_LENGTHS,
};
use crate::inputs::{inputs_of, long_text, odd_text};
use crate::keys::{
    items_in, kind_in, nodes_of, pages_of, restarts_of, rounds_of, seed_of, turns_of, unknown_key,
};
use crate::mishaps::mishaps_in;
use crate::scripts::{LIMIT, MAX_ACTS, MAX_CUTS, MAX_OUT_FAILS, Script};
use ken_model::{Facts, Items, PAGE};
use serde_json::Value;
use std::alloc::Global;

/// The object that the text is.
pub(crate) fn object_in(alloc: Global, bytes: &[u8]) -> Result<Value, ScriptFault>
    ensures ok { IfOk result (λ value. IsObject bytes.now (view value)) }
    ensures err { IfErr result (IsNoObject bytes.now) }
{
    if bytes.len() > LIMIT {
        return Err(ScriptFault::at(OBJECT, 0));
    }
    match Value::from_slice(alloc, bytes) {
        Ok(value) if value.is_object() => Ok(value),
        Err(e) if e.is_memory() => Err(ScriptFault::Memory),
        _ => Err(ScriptFault::at(OBJECT, 0)),
    }
}

/// What the object states.
fn script_in(alloc: Global, object: &Value) -> Result<Script, ScriptFault>
    ensures ok { IfOk result (States (view object.now)) }
    ensures err { IfErr result (IsFaultIn (view object.now)) }
{
    if let Some(place) = unknown_key(object) {
        return Err(ScriptFault::at(KEYS, place));
    }
    let Some(nodes) = nodes_of(object) else {
        return Err(ScriptFault::at(NODES, 0));
    };
    let Some(kind) = kind_in(object) else {
        return Err(ScriptFault::at(KIND, 0));
    };
    let Some(pages) = pages_of(object) else {
        return Err(ScriptFault::at(PAGES, 0));
    };
    let Some(seed) = seed_of(object) else {
        return Err(ScriptFault::at(SEED, 0));
    };
    let Some(rounds) = rounds_of(object) else {
        return Err(ScriptFault::at(COUNTS, 0));
    };
    let Some(turns) = turns_of(object) else {
        return Err(ScriptFault::at(COUNTS, 1));
    };
    let Some(restarts) = restarts_of(object) else {
        return Err(ScriptFault::at(COUNTS, 2));
    };
    let Some(items) = items_in(object) else {
        return Err(ScriptFault::at(INPUTS, 0));
    };
    let inputs = inputs_of(alloc, items, nodes)?;
    if let Some(place) = long_text(&inputs) {
        return Err(ScriptFault::at(TEXT_LENGTHS, place));
    }
    if let Some(place) = odd_text(&inputs) {
        return Err(ScriptFault::at(TEXT_BYTES, place));
    }
    let cuts = mishaps_in(alloc, object, "cuts", nodes, MAX_CUTS, CUTS)?;
    let mail = mishaps_in(alloc, object, "mail", nodes, MAX_ACTS, MAIL)?;
    let acks = mishaps_in(alloc, object, "acks", nodes, MAX_ACTS, ACKS)?;
    let outlets = mishaps_in(alloc, object, "outlets", nodes, MAX_OUT_FAILS, OUTLETS)?;
    Ok(Script {
        facts: Facts {
            nodes,
            kind,
            size: PAGE * pages,
            turns,
            inputs: Items::new(inputs),
        },
        seed,
        rounds,
        restarts,
        cuts: Items::new(cuts),
        mail: Items::new(mail),
        acks: Items::new(acks),
        outlets: Items::new(outlets),
    })
}

/// What a value states, which keeps the rules.
pub(crate) fn read_value(alloc: Global, object: &Value) -> Result<Script, ScriptFault>
    ensures states { IfOk result (States (view object.now)) }
    ensures breaks { IfErr result (IsFaultIn (view object.now)) }
    ensures keeps { IfOk result KeepsRules }
{
    script_in(alloc, object)
}

/// Reads a script of at most `LIMIT` bytes. A script that breaks a rule is refused by the first rule that it breaks,
/// with the least place at which it does.
pub fn read(alloc: Global, bytes: &[u8]) -> Result<Script, ScriptFault>
    ensures says { IfOk result (Says bytes.now) }
    ensures breaks { IfErr result (IsFaultOf bytes.now) }
    ensures keeps { IfOk result KeepsRules }
{
    let object = object_in(alloc, bytes)?;
    read_value(alloc, &object)
}
