// What a handler makes of a message, for those who have no network.
ghost use Rattle.std.specs.Prelude.{◌≡◌, ◌<◌, ◌^◌, option_map, IfOk, IfSome, OnOk, OnErr};
ghost use Rattle.std.specs.List.{All, AllByRecursion};
ghost use Rattle.ken_model.specs.Answers.{changed};
ghost use Rattle.ken_model.specs.Heap.{IsHeap};
ghost use Rattle.ken_model.specs.Kinds.{handler_of};
ghost use Rattle.ken_model.specs.Reactions.{effect_in};

use crate::handler::{Answer, BlockChange, Task};
use crate::{Block, Items, Kind, Message, Octets, Send, Value};
use std::alloc::{AllocError, Global};

/// What a turn changes, sends and outputs.
#[derive(Debug, Drop)]
pub struct Reaction {
    /// The heap after it.
    pub value: Value,
    pub sends: Items<Send>,
    pub outs: Items<Octets>,
}

impl Kind {
    /// What the handler of this kind makes of a message, at node `node` of `nodes` with that heap: `None` exactly where it
    /// isn't defined at the draws.
    pub fn react(
        self,
        alloc: Global,
        node: u8,
        nodes: u8,
        mut value: Value,
        message: &Message,
        draws: &[u64],
    ) -> Result<Option<Reaction>, AllocError>
        requires nodes { (0 < nodes) × (node < 255) }
        requires heap { IsHeap value }
        ensures effect { IfOk result (λ r. option_map effect_in r ≡ (handler_of self).after node nodes value message.now draws.now) }
        ensures known { IfOk result (λ r. IfSome r (λ x. AllByRecursion (λ s. s.to < nodes) x.sends)) }
        ensures words { All (λ d. d < 2 ^ 64) draws.now }
    {
        let Some(task) = Task::of(self, message.bytes.as_slice(), draws) else {
            return Ok(None);
        };
        let Answer {
            root,
            blocks,
            sends,
            outs,
        } = task.answer(alloc, node, nodes, &value, message)?;
        change(&mut value, blocks)?;
        value.root = root;
        Ok(Some(Reaction {
            value,
            sends: Items::new(sends),
            outs: Items::new(outs),
        }))
    }
}

/// Changes the blocks of a heap. After an error nothing has changed.
fn change(value: &mut Value, blocks: BlockChange) -> Result<(), AllocError>
    ensures ok { OnOk result (value.new ≡ record value.old { blocks = changed blocks value.old.blocks }) }
    ensures err { OnErr result (value.new ≡ value.old) }
{
    match blocks {
        BlockChange::Keep => {}
        BlockChange::Put { place, bytes, old } => {
            value.put(Block { place, bytes })?;
            if let Some(old) = old {
                value.remove(old);
            }
        }
        BlockChange::Delete { place } => value.remove(place),
        BlockChange::Rewrite { place, bytes } => value.rewrite(place, bytes),
    }
    Ok(())
}
