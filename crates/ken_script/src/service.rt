// The script of a service of one's own.
ghost use Rattle.std.specs.Prelude.{◌≡◌, IfOk, IfErr};
ghost use Rattle.serde_json.specs.View.{view};
ghost use Rattle.ken_script.specs.Keys.{is_key};
ghost use Rattle.ken_script.specs.Service.{is_service_key, foreign_key, with_kind, SaysService, IsServiceFaultOf};
ghost use Rattle.ken_script.specs.Within.{KeepsRules};

use crate::faults::{KEYS, ScriptFault};
use crate::keys::is_key;
use crate::reading::{object_in, read_value};
use crate::scripts::Script;
use serde_json::Value;
use std::alloc::{AllocError, Global};

/// Whether the script of a service may have a key.
fn is_service_key(name: &str) -> bool
    ensures { result ≡ is_service_key name.now }
{
    is_key(name) && name != "kind"
}

/// The place of the first key that it may not have, among the keys in byte order.
fn foreign_key(script: &Value) -> Option<usize>
    ensures { result ≡ foreign_key (view script.now) }
{
    script
        .as_object()?
        .keys()
        .position(|name| !is_service_key(name.as_str()))
}

/// The object with a kind, for which nobody asks.
fn with_kind(alloc: Global, object: Value) -> Result<Value, AllocError>
    ensures { IfOk result (λ value. view value ≡ with_kind (view object)) }
{
    match object {
        Value::Object(mut members) => {
            let kind = Value::String(String::from_str(alloc, "ring")?);
            members.insert(String::from_str(alloc, "kind")?, kind)?;
            Ok(Value::Object(members))
        }
        other => Ok(other),
    }
}

/// Reads the script of a service of one's own, which has the keys that `read` knows but `kind`: its handler is the service's, and
/// no one asks for the kind that the script then states. A script that breaks a rule is refused as `read` does, and a `kind` as a key that
/// isn't known.
pub fn read_service(alloc: Global, bytes: &[u8]) -> Result<Script, ScriptFault>
    ensures says { IfOk result (SaysService bytes.now) }
    ensures breaks { IfErr result (IsServiceFaultOf bytes.now) }
    ensures keeps { IfOk result KeepsRules }
{
    let object = object_in(alloc, bytes)?;
    if let Some(place) = foreign_key(&object) {
        return Err(ScriptFault::at(KEYS, place));
    }
    let object = with_kind(alloc, object)?;
    read_value(alloc, &object)
}
