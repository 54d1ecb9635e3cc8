// A node's inputs, as messages of the outside.
ghost use Rattle.std.specs.Prelude.{◌≡◌, ◌<◌, ◌≤◌, IfOk};
ghost use Rattle.std.specs.List.{AllByRecursion};
ghost use Rattle.ken_model.specs.Network.{inputs_from};

use ken_model::{Input, Message, OUTSIDE, Octets};
use std::alloc::{AllocError, Global};

// The inputs for a node, numbered from 1.
pub(crate) fn inputs_for(
    alloc: Global,
    node: u8,
    inputs: &[Input],
) -> Result<Vec<Message>, AllocError>
    ensures { IfOk result (λ messages. messages.items ≡ inputs_from node 0 inputs.now) }
{
    let mut messages = Vec::new(alloc);
    for input in inputs {
        if input.node == node {
            messages.push(Message {
                from: OUTSIDE,
                to: node,
                number: messages.len() as u64 + 1,
                stamp: 0,
                bytes: Octets::copied(alloc, input.text.as_slice())?,
            })?;
        }
    }
    Ok(messages)
}
