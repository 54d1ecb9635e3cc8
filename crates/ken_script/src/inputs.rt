// The inputs of a script.
ghost use Rattle.std.specs.Prelude.{◌≡◌, None, Some, IfOk, OnOk, IfErr, option_map};
ghost use Rattle.std.specs.List.{list_all};
ghost use Rattle.serde_json.specs.View.{view, items_view};
ghost use Rattle.ken_script.specs.Keys.{listed};
ghost use Rattle.ken_script.specs.Inputs.{input, input_of, inputs_of, wrong_input, long_text, is_plain, odd_text};
ghost use Rattle.ken_script.specs.Faults.{Names};

use crate::faults::{INPUTS, ScriptFault};
use crate::numbers::number_below;
use ken_model::{Input, MAX_INPUTS, MAX_TEXT, Octets};
use serde_json::Value;
use std::alloc::Global;

/// The node and the text of an item.
fn parts(item: &Value, nodes: u8) -> Option<(u8, &str)>
    ensures { option_map (λ p. input p.0 p.1.now) result ≡ input_of nodes (view item.now) }
{
    let [node, text] = item.as_array()?.as_slice() else {
        return None;
    };
    Some((number_below(node, nodes)?, text.as_str()?))
}

/// The inputs that the items say, if there aren't too many.
pub(crate) fn inputs_of(
    alloc: Global,
    items: &[Value],
    nodes: u8,
) -> Result<Vec<Input>, ScriptFault>
    ensures inputs { IfOk result
        (λ inputs. inputs_of nodes (listed (items_view items.now)) ≡ Some inputs.items) }
    ensures right { OnOk result (wrong_input nodes (listed (items_view items.now)) ≡ None) }
    ensures wrong { IfErr result (Names INPUTS (wrong_input nodes (listed (items_view items.now)))) }
{
    let mut inputs = Vec::new(alloc);
    for (place, item) in items.iter().enumerate() {
        if place == MAX_INPUTS {
            return Err(ScriptFault::at(INPUTS, place));
        }
        let Some((node, text)) = parts(item, nodes) else {
            return Err(ScriptFault::at(INPUTS, place));
        };
        let text = Octets::new(Vec::from_slice(alloc, text.as_bytes())?);
        inputs.push(Input { node, text })?;
    }
    Ok(inputs)
}

/// The first input with a text that is too long.
pub(crate) fn long_text(inputs: &[Input]) -> Option<usize>
    ensures { result ≡ long_text inputs.now }
{
    inputs.iter().position(|input| input.text.len() > MAX_TEXT)
}

fn is_plain(text: &[u8]) -> bool
    ensures { result ≡ list_all is_plain text.now }
{
    text.iter().all(|byte| (0x20..=0x7e).contains(byte))
}

/// The first input with a text that has a byte other than a space or a printed character of ASCII.
pub(crate) fn odd_text(inputs: &[Input]) -> Option<usize>
    ensures { result ≡ odd_text inputs.now }
{
    inputs
        .iter()
        .position(|input| !is_plain(input.text.as_slice()))
}
