// A node at the start.
ghost use Rattle.std.specs.Prelude.{◌≡◌, ◌<◌, ◌≤◌, ◌*◌, ◌++◌, ◌∷◌, [], ℕ, length, replicate, false, IfOk};
ghost use Rattle.std.specs.List.{All};
ghost use Rattle.ken_model.specs.Game.{game_of};
ghost use Rattle.ken_model.specs.Limits.{IsWithinLimits};
ghost use Rattle.ken_model.specs.Layout.{first_heap};
ghost use Rattle.ken_model.specs.Network.{inputs_for, inputs_from};
ghost use Rattle.ken_core.specs.Nodes.{heap_pages};

use crate::heap::Heap;
use crate::ledger::Ledger;
use crate::machine::Machine;
use crate::number_set::Numbers;
use crate::pages::Pages;
use ken_model::{Facts, Head, Message, OUTSIDE, PAGE, TryClone, empty_header};
use std::alloc::{AllocError, Global};
use std::collections::VecDeque;

impl Machine {
    ghost use Rattle.ken_core.specs.First.{IsFirst};

    /// A node at the start, with its inputs.
    pub(crate) fn first(alloc: Global, facts: &Facts, node: u8) -> Result<Machine, AllocError>
        requires limits { IsWithinLimits (game_of facts.now) }
        requires known { node < facts.now.nodes }
        ensures { IfOk result (IsFirst (game_of facts.now) node) }
    {
        let pages = (facts.size / PAGE) as u32;
        Ok(Machine {
            up: true,
            ledger: first_ledger(alloc, facts, node)?,
            pages: first_pages(alloc, pages)?,
            retired: zeros(alloc, facts.nodes)?,
            retired_outs: 0,
            acked: zeros(alloc, facts.nodes)?,
            emitted: 0,
            mailed: no_numbers(alloc, facts.nodes)?,
            answered: no_numbers(alloc, facts.nodes)?,
        })
    }
}

/// The ledger of a node that made no turn.
fn first_ledger(alloc: Global, facts: &Facts, node: u8) -> Result<Ledger, AllocError>
    requires { IsWithinLimits (game_of facts.now) }
    ensures turns { IfOk result (λ l. l.turns.items ≡ []) }
    ensures consumed { IfOk result (λ l. l.consumed.items ≡ replicate facts.now.nodes 0) }
    ensures inputs { IfOk result (λ l. l.inputs.items ≡ inputs_for (game_of facts.now) node) }
    ensures inputs_consumed { IfOk result (λ l. l.inputs_consumed ≡ 0) }
    ensures width { IfOk result (λ l. length l.sent.items ≡ facts.now.nodes) }
    ensures sent { IfOk result (λ l. All (λ list. list.items ≡ []) l.sent.items) }
    ensures outs { IfOk result (λ l. l.outs.items ≡ []) }
{
    Ok(Ledger {
        turns: Vec::new(alloc),
        consumed: zeros(alloc, facts.nodes)?,
        inputs: inputs(alloc, facts, node)?,
        inputs_consumed: 0,
        sent: no_lists(alloc, facts.nodes)?,
        outs: Vec::new(alloc),
    })
}

/// A zero for each node.
fn zeros(alloc: Global, nodes: u8) -> Result<Vec<u64>, AllocError>
    ensures { IfOk result (λ numbers. numbers.items ≡ replicate nodes 0) }
{
    Ok(Vec::from_elem(alloc, 0, usize::from(nodes))?)
}

/// The inputs for a node, numbered from 1.
fn inputs(alloc: Global, facts: &Facts, node: u8) -> Result<Vec<Message>, AllocError>
    ensures { IfOk result (λ ms. ms.items ≡ inputs_for (game_of facts.now) node) }
{
    let mut inputs = Vec::new(alloc);
    for input in facts.inputs.as_slice() {
        if input.node == node {
            let number = inputs.len() as u64 + 1;
            inputs.push(Message {
                from: OUTSIDE,
                to: input.node,
                number,
                stamp: 0,
                bytes: input.text.try_clone(alloc)?,
            })?;
        }
    }
    Ok(inputs)
}

fn no_lists(alloc: Global, nodes: u8) -> Result<Vec<Vec<Message>>, AllocError>
    ensures width { IfOk result (λ lists. length lists.items ≡ nodes) }
    ensures none { IfOk result (λ lists. All (λ list. list.items ≡ []) lists.items) }
{
    let mut lists = Vec::new(alloc);
    for _node in 0..nodes {
        lists.push(Vec::new(alloc))?;
    }
    Ok(lists)
}

fn no_numbers(alloc: Global, nodes: u8) -> Result<Vec<Numbers>, AllocError>
    ensures width { IfOk result (λ sets. length sets.items ≡ nodes) }
    ensures none { IfOk result (λ sets. All (λ set. set ≡ []) sets.items) }
{
    let mut sets = Vec::new(alloc);
    for _node in 0..nodes {
        sets.push(Numbers::none(alloc, 0)?)?;
    }
    Ok(sets)
}

/// The pages of a heap without blocks, and of its image.
fn first_pages(alloc: Global, pages: u32) -> Result<Pages, AllocError>
    requires { (0 < pages) × (pages ≤ 4096) }
    ensures heap { IfOk result (λ p. p.heap ≡ first_heap pages) }
    ensures image { IfOk result (λ p. p.image.items ≡ first_heap pages) }
    ensures live { IfOk result (λ p. p.live.items ≡ []) }
    ensures ahead { IfOk result (λ p. p.ahead.items ≡ []) }
    ensures unclean { IfOk result (λ p. p.unclean ≡ replicate pages false) }
    ensures opened { IfOk result (λ p. p.opened ≡ replicate pages false) }
{
    Ok(Pages {
        heap: Heap::new(first_heap(alloc, pages)?),
        live: Vec::new(alloc),
        ahead: VecDeque::new(alloc),
        unclean: Numbers::none(alloc, pages as usize)?,
        image: first_heap(alloc, pages)?,
        opened: Numbers::none(alloc, pages as usize)?,
    })
}

/// The bytes of a heap without blocks.
fn first_heap(alloc: Global, pages: u32) -> Result<Vec<u8>, AllocError>
    requires { (0 < pages) × (pages ≤ 4096) }
    ensures { IfOk result (λ bytes. bytes.items ≡ first_heap pages) }
{
    let size = pages as usize * PAGE as usize;
    let gap = Head {
        span: size as u32 - 16,
        len: 0,
    };
    let mut bytes = Vec::new(alloc);
    bytes.extend_from_slice(&empty_header(pages))?;
    bytes.extend_from_slice(&gap.bytes())?;
    bytes.resize(size, 0)?;
    Ok(bytes)
}
