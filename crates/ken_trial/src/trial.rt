// A service on trial.
ghost use Rattle.std.specs.Prelude.{◌≡◌, ◌==◌, ◌&&◌, bytes_eq, zip, ◌*◌, ◌≤◌, Some, None, Err, OnErr, IfOk};
ghost use Rattle.std.specs.List.{list_all};
ghost use Rattle.ken_model.specs.Network.{empty_heap};
ghost use Rattle.ken_actors.specs.Decided.{IsDecided};
ghost use Rattle.ken_app.specs.Limited.{limited};
ghost use Rattle.ken_app.specs.Turning.{IsPlaced};
ghost use Rattle.ken_trial.specs.declared.trial.TrialFault.TheVariants.{OtherDraws};
ghost use Rattle.ken_trial.specs.Trials.{Trying, tried, is_sent, is_output, are_sent, are_output};

use crate::heap::Heap;
use ken_app::Service;
use ken_model::{Items, Message, Octets, Send, Value};
use ken_pages::MAX_PAGES;
use std::alloc::{AllocError, Global};
use std::marker::Model;
use thiserror::Error;

/// A service whose turns one node makes, one message after the other.
#[derive(Debug, Drop)]
pub struct Trial<S> {
    alloc: Global,
    service: S,
    node: u8,
    nodes: u8,
    heap: Heap,
}

impl<S> Model for Trial<S> {
    ghost use Rattle.ken_app.specs.Turning.{IsPlaced};
    ghost use Rattle.ken_trial.specs.Trials.{Trying};

    ghost Value = { Trying S };

    ghost view = { λ t. record { service = t.service; node = t.node; nodes = t.nodes; value = t.heap } };

    ghost invariant = { λ t. IsPlaced t.node t.nodes };
}

/// What a turn sent and output, each in order, and the root of the heap then.
#[derive(Debug, Drop)]
pub struct Answer {
    pub sends: Items<Send>,
    pub outs: Items<Octets>,
    pub root: u64,
}

impl Answer {
    /// Whether it is just this: what was sent, each with its node, and what was output, in order, and the root.
    pub fn is(&self, sends: &[(u8, &str)], outs: &[&str], root: u64) -> bool
        ensures { result ≡ (are_sent self.now.sends sends.now && (are_output self.now.outs outs.now && (self.now.root == root))) }
    {
        self.sends.len() == sends.len()
            && are_sent(self.sends.as_slice(), sends)
            && self.outs.len() == outs.len()
            && are_output(self.outs.as_slice(), outs)
            && self.root == root
    }
}

// Messages and those that are wanted, pair by pair.
fn are_sent(sends: &[Send], wanted: &[(u8, &str)]) -> bool
    ensures { result ≡ list_all is_sent (zip sends.now wanted.now) }
{
    sends
        .iter()
        .zip(wanted)
        .all(|(send, it)| send.to == it.0 && is_text(&send.bytes, it.1))
}

fn are_output(outs: &[Octets], wanted: &[&str]) -> bool
    ensures { result ≡ list_all is_output (zip outs.now wanted.now) }
{
    outs.iter().zip(wanted).all(|(out, it)| is_text(out, it))
}

fn is_text(text: &Octets, wanted: &str) -> bool
    ensures { result ≡ bytes_eq text.now wanted.now }
{
    text.as_slice() == wanted.as_bytes()
}

/// Why a turn isn't made. The trial is then as before.
#[derive(Clone, Copy, Debug, PartialEq, Eq, Error)]
pub enum TrialFault {
    /// The service takes other draws at this message.
    #[error("other draws")]
    OtherDraws,
    #[error("out of memory")]
    Memory,
}

impl From<AllocError> for TrialFault {
    ghost use Rattle.std.specs.Prelude.{◌≡◌};
    ghost use Rattle.ken_trial.specs.declared.trial.TrialFault.TheVariants.{Memory};

    ghost from_gives = { λ _ fault. fault ≡ Memory };

    fn from(_refused: AllocError) -> Self {
        TrialFault::Memory
    }
}

impl<S: Service + Drop> Trial<S> {
    /// The service at node `node` of `nodes`, with an empty heap of so many pages of 256 bytes.
    pub fn new(
        alloc: Global,
        service: S,
        node: u8,
        nodes: u8,
        pages: u32,
    ) -> Result<Self, AllocError>
        requires placed { IsPlaced node nodes }
        requires pages { (1 ≤ pages) × (pages ≤ MAX_PAGES) }
        ensures { IfOk result (λ t. t ≡ record { service = service; node = node; nodes = nodes; value = empty_heap (256 * pages) }) }
    {
        let heap = Heap::empty(alloc, pages)?;
        Ok(Trial {
            alloc,
            service,
            node,
            nodes,
            heap,
        })
    }

    /// Takes a message of a node, or of the outside (`OUTSIDE`), and makes the service's turn within the limits: the clock reads, and
    /// the random words are, what `draws` says in the order of the turn's calls. The message is the first of its link.
    pub fn take(&mut self, from: u8, text: &[u8], draws: &[u64]) -> Result<Answer, TrialFault>
        ensures taken { IfOk result (λ a. tried (S.handler self.old.service) self.old from text.now draws.now
            ≡ Some (record { value = self.new.value; sends = a.sends; outs = a.outs })) }
        ensures root { IfOk result (λ a. a.root ≡ self.new.value.root) }
        ensures same { self.new ≡ record self.old { value = self.new.value } }
        ensures other_draws { result ≡ Err OtherDraws → IsDecided (limited (S.handler self.old.service))
            → tried (S.handler self.old.service) self.old from text.now draws.now ≡ None }
        ensures err { OnErr result (self.new ≡ self.old) }
    {
        let message = Message {
            from,
            to: self.node,
            number: 1,
            stamp: 0,
            bytes: Octets::copied(self.alloc, text)?,
        };
        let (service, node, nodes) = (&self.service, self.node, self.nodes);
        let made = self
            .heap
            .play(self.alloc, service, node, nodes, &message, draws)?;
        let played = made.ok_or(TrialFault::OtherDraws)?;
        Ok(Answer {
            sends: played.sends,
            outs: played.outs,
            root: self.heap.root(),
        })
    }

    /// What the node's heap holds, in memory of its own.
    pub fn value(&self) -> Result<Value, AllocError>
        ensures { IfOk result (λ v. v ≡ self.now.value) }
    {
        self.heap.value(self.alloc)
    }
}
