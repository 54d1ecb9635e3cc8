// What stands under each key of a script.
ghost use Rattle.std.specs.Prelude.{◌≡◌, option_map};
ghost use Rattle.serde_json.specs.View.{view, items_view, members_view};
ghost use Rattle.ken_script.specs.Keys.{is_key, unknown_key, nodes_of, kind_in, pages_of, seed_of, rounds_of, turns_of, restarts_of, items_in, list_under, listed};

use crate::numbers::number_within;
use crate::scripts::{
    DEFAULT_PAGES, DEFAULT_RESTARTS, DEFAULT_ROUNDS, DEFAULT_SEED, DEFAULT_TURNS, MAX_RESTARTS,
    MAX_ROUNDS,
};
use ken_model::{Kind, MAX_NODES, MAX_PAGES, MAX_TURNS};
use serde_json::Value;

/// Whether a script may have a key.
pub(crate) fn is_key(name: &str) -> bool
    ensures { result ≡ is_key name.now }
{
    matches!(
        name,
        "nodes"
            | "kind"
            | "pages"
            | "seed"
            | "rounds"
            | "turns"
            | "inputs"
            | "restarts"
            | "cuts"
            | "mail"
            | "acks"
            | "outlets"
    )
}

/// The place of the first key that isn't known, among the keys in byte order.
pub(crate) fn unknown_key(script: &Value) -> Option<usize>
    ensures { result ≡ unknown_key (view script.now) }
{
    script
        .as_object()?
        .keys()
        .position(|name| !is_key(name.as_str()))
}

/// The number of nodes, from 1 to `MAX_NODES`.
pub(crate) fn nodes_of(script: &Value) -> Option<u8>
    ensures { result ≡ nodes_of (view script.now) }
{
    let nodes = script.get("nodes")?.as_u64()?;
    if nodes == 0 || nodes > u64::from(MAX_NODES) {
        return None;
    }
    Some(nodes as u8)
}

/// The kind that `kind` names.
pub(crate) fn kind_in(script: &Value) -> Option<Kind>
    ensures { result ≡ kind_in (view script.now) }
{
    Kind::of(script.get("kind")?.as_str()?.as_bytes())
}

/// The pages of each heap, from 1 to `MAX_PAGES`.
pub(crate) fn pages_of(script: &Value) -> Option<u64>
    ensures { result ≡ pages_of (view script.now) }
{
    match script.get("pages") {
        None => Some(DEFAULT_PAGES),
        Some(pages) => number_within(pages, 1, MAX_PAGES),
    }
}

/// Where the random words start: any `u64`.
pub(crate) fn seed_of(script: &Value) -> Option<u64>
    ensures { result ≡ seed_of (view script.now) }
{
    match script.get("seed") {
        None => Some(DEFAULT_SEED),
        Some(seed) => seed.as_u64(),
    }
}

/// The rounds of threads before a run is drained, from 0 to `MAX_ROUNDS`.
pub(crate) fn rounds_of(script: &Value) -> Option<u64>
    ensures { result ≡ rounds_of (view script.now) }
{
    match script.get("rounds") {
        None => Some(DEFAULT_ROUNDS),
        Some(rounds) => number_within(rounds, 0, MAX_ROUNDS),
    }
}

/// The most turns of a node, from 1 to `MAX_TURNS`.
pub(crate) fn turns_of(script: &Value) -> Option<u64>
    ensures { result ≡ turns_of (view script.now) }
{
    match script.get("turns") {
        None => Some(DEFAULT_TURNS),
        Some(turns) => number_within(turns, 1, MAX_TURNS),
    }
}

/// The most restarts of a node, from 0 to `MAX_RESTARTS`.
pub(crate) fn restarts_of(script: &Value) -> Option<u64>
    ensures { result ≡ restarts_of (view script.now) }
{
    match script.get("restarts") {
        None => Some(DEFAULT_RESTARTS),
        Some(restarts) => number_within(restarts, 0, MAX_RESTARTS),
    }
}

/// The items of `inputs`, if that is a list.
pub(crate) fn items_in(script: &Value) -> Option<&[Value]>
    ensures { option_map (λ vs. listed (items_view vs.now)) result ≡ items_in (view script.now) }
{
    Some(script.get("inputs")?.as_array()?.as_slice())
}

/// The items of the list under another key: none where the key is absent.
pub(crate) fn list_under<'a>(script: &'a Value, key: &str) -> Option<&'a [Value]>
    ensures { option_map (λ vs. listed (items_view vs.now)) result ≡ list_under key.now (view script.now) }
{
    match script.get(key) {
        None => Some(&[]),
        Some(list) => Some(list.as_array()?.as_slice()),
    }
}
