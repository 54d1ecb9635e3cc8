// The lines of all nodes.
ghost use Rattle.std.specs.Prelude.{◌≡◌, ◌≤◌, [], length, map, take, replicate, IfOk, OnOk};
ghost use Rattle.std.specs.VecDeque.{deque_len};
ghost use Rattle.ken_outbox.specs.Waiting.{no_line, sent_to, with_sends, AreFor};
ghost use Rattle.ken_outbox.specs.Lines.{shown, HaveRoom, bare_lines};

use crate::line::Line;
use ken_model::Message;
use std::alloc::{AllocError, Global};
use std::collections::VecDeque;

pub(crate) fn new(alloc: Global, nodes: u8) -> Result<Vec<Line>, AllocError>
    ensures { IfOk result (λ lines. map shown lines.items ≡ replicate nodes no_line) }
{
    let mut lines = Vec::new(alloc);
    for _node in 0..nodes {
        lines.push(Line::new(alloc))?;
    }
    Ok(lines)
}

// How many messages wait for a node.
fn count_for(node: u8, waiting: &[Message]) -> u64
    ensures { result ≡ length (sent_to node waiting.now) }
{
    let mut count = 0;
    for message in waiting {
        if message.to == node {
            count += 1;
        }
    }
    count
}

// Lines without messages, by how many messages were ever sent to each node and what still waits.
pub(crate) fn resumed(
    alloc: Global,
    nodes: u8,
    sent: &[u64],
    waiting: &[Message],
) -> Result<Vec<Line>, AllocError>
    requires { nodes ≤ length sent.now }
    ensures { IfOk result (λ lines. map shown lines.items ≡ bare_lines 0 (take nodes sent.now) waiting.now) }
{
    let mut lines = Vec::new(alloc);
    for node in 0..nodes {
        let mut line = Line::new(alloc);
        line.acked = sent[usize::from(node)].saturating_sub(count_for(node, waiting));
        lines.push(line)?;
    }
    Ok(lines)
}

// Makes room for so many more messages in each line that one of these goes to. After an error some lines have it.
pub(crate) fn reserve_for(lines: &mut [Line], sends: &VecDeque<Message>) -> Result<(), AllocError>
    requires { AreFor (length lines.old) sends.now.items }
    ensures same { map shown lines.new ≡ map shown lines.old }
    ensures room { OnOk result (HaveRoom (deque_len sends.now) sends.now.items lines.new) }
{
    for i in 0..sends.len() {
        let to = usize::from(sends[i].to);
        lines[to].reserve(sends.len())?;
    }
    Ok(())
}

// Moves each message behind those to its node. There is room for all of them in each line that one goes to.
pub(crate) fn push_all(lines: &mut [Line], sends: &mut VecDeque<Message>)
    requires known { AreFor (length lines.old) sends.old.items }
    requires room { HaveRoom (deque_len sends.old) sends.old.items lines.old }
    ensures lines { map shown lines.new ≡ with_sends 0 (map shown lines.old) sends.old.items }
    ensures moved { sends.new.items ≡ [] }
{
    while let Some(message) = sends.pop_front() {
        let to = usize::from(message.to);
        lines[to].push(message);
    }
}
