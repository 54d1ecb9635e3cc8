ghost use Rattle.std.specs.Prelude.{ℕ, List, []};
ghost use Rattle.ken_model.specs.declared.messages.Message.{Message};

use std::marker::Brand;

/// What is handed in with a packet that is put. Contracts alone see it: a call picks it, or hands on its caller's, and shows
/// there that the node has sealed and consumed so.
pub trait Handed {
    /// Messages of the node that puts.
    ghost sealed: { List Message };

    /// Nodes, each with a number up to which that node's messages are acknowledged.
    ghost consumed: { List (ℕ × ℕ) };
}

impl Handed for Brand {
    ghost sealed = { [] };

    ghost consumed = { [] };
}
