// A turn that is being made.
ghost use Rattle.std.specs.Prelude.{◌≡◌, ◌↔◌, ◌<◌, ◌≤◌, [], ◌∷◌, ◌++◌, length, decimal, OnOk, OnErr, IfOk, IsErr, IsErrOf, Some, IsSome, IfSome};
ghost use Rattle.std.specs.List.{list_all};
ghost use Rattle.ken_model.specs.Reading.{value_of};
ghost use Rattle.ken_model.specs.declared.facts.TheConstants.{MAX_TEXT};
ghost use Rattle.ken_alloc.specs.Objects.{heap_in};
ghost use Rattle.ken_app.specs.declared.turn.TheConstants.{MAX_DRAWS, MAX_SENDS, MAX_OUTPUTS};
ghost use Rattle.ken_app.specs.Oracles.{Answers};
ghost use Rattle.ken_app.specs.Turning.{turning, oracle_of, IsOneTurn, with_send, with_output};
ghost use Rattle.ken_app.specs.Limited.{is_line, is_text, send_fits, fits};

use crate::faults::{NoDraw, OutputFault, SendFault};
use crate::oracle::Oracle;
use arrayvec::ArrayVec;
use itoa::Buffer;
use ken_alloc::Objects;
use ken_model::{MAX_TEXT, Message, Octets, Send};
use std::alloc::{AllocError, Global};

/// The most draws of a turn.
pub const MAX_DRAWS: usize = 16;

/// The most messages that a turn sends.
pub const MAX_SENDS: usize = 16;

/// The most outputs of a turn.
pub const MAX_OUTPUTS: usize = 16;

/// What a turn has drawn, sent and output, in order.
#[derive(Debug, Drop)]
pub struct Made {
    alloc: Global,
    /// There is room for all draws of a turn from its beginning.
    pub draws: ArrayVec<u64, MAX_DRAWS>,
    pub sends: Vec<Send>,
    pub outs: Vec<Octets>,
}

impl Made {
    pub(crate) fn new(alloc: Global) -> Self
        ensures { (result.draws.items ≡ []) × (result.sends.items ≡ []) × (result.outs.items ≡ []) }
    {
        Made {
            alloc,
            draws: ArrayVec::new(),
            sends: Vec::new(alloc),
            outs: Vec::new(alloc),
        }
    }
}

/// A turn that an application makes: what it may ask, and what it may do. Nothing that it does is seen before the turn
/// has ended.
#[derive(Drop)]
pub struct Turn<'a, O> {
    node: u8,
    nodes: u8,
    message: &'a Message,
    objects: &'a mut Objects,
    oracle: &'a mut O,
    made: &'a mut Made,
}

impl<'a, O: Oracle> Turn<'a, O> {
    ghost use Rattle.std.specs.Borrow.{sem};
    ghost use Rattle.ken_app.specs.Lending.{LendsObjects};

    pub(crate) fn new(
        node: u8,
        nodes: u8,
        message: &'a Message,
        objects: &'a mut Objects,
        oracle: &'a mut O,
        made: &'a mut Made,
    ) -> Self
        ensures same_objects { result.objects.ghost_name ≡ objects.entry.ghost_name }
        ensures same_oracle { result.oracle.ghost_name ≡ oracle.entry.ghost_name }
        ensures same_made { result.made.ghost_name ≡ made.entry.ghost_name }
        ensures oracle { oracle_of result ≡ oracle.old }
        ensures turning { turning result ≡ record {
          node = node;
          nodes = nodes;
          message = message.now;
          heap = heap_in objects.old;
          draws = made.old.draws.items;
          sends = made.old.sends.items;
          outs = made.old.outs.items;
        } }
    {
        Turn {
            node,
            nodes,
            message,
            objects,
            oracle,
            made,
        }
    }

    /// The message that the turn takes.
    pub fn message(&self) -> &'a Message
        ensures { result.now ≡ (turning self.now).message }
    {
        self.message
    }

    /// The node that makes the turn, below `nodes`.
    pub fn node(&self) -> u8
        ensures { result ≡ (turning self.now).node }
    {
        self.node
    }

    /// How many nodes there are.
    pub fn nodes(&self) -> u8
        ensures { result ≡ (turning self.now).nodes }
    {
        self.nodes
    }

    /// The objects in the node's heap.
    pub fn objects(&mut self) -> &mut Objects
        ensures* writes_back { sem 𝓛 (LendsObjects O.row self.entry result) }
        ensures heap { heap_in result.now ≡ (turning self.old).heap }
    {
        self.objects
    }

    /// Sends a message of at most `MAX_TEXT` bytes to a node. The faults are tried in their order, and after each the
    /// turn is as before.
    pub fn send(&mut self, to: u8, bytes: &[u8]) -> Result<(), SendFault>
        ensures ok { OnOk result (turning self.new ≡ record (turning self.old) { sends = (turning self.old).sends ++ record { to = to; bytes = bytes.now } ∷ [] }) }
        ensures err { OnErr result (turning self.new ≡ turning self.old) }
        ensures no_node { IsErrOf result SendFault.NoNode ↔ ((turning self.old).nodes ≤ to) }
        ensures too_long { IsErrOf result SendFault.TooLong ↔ ((to < (turning self.old).nodes) × (MAX_TEXT < length bytes.now)) }
        ensures too_many { IsErrOf result SendFault.TooMany ↔ ((to < (turning self.old).nodes) × (length bytes.now ≤ MAX_TEXT) × (MAX_SENDS ≤ length (turning self.old).sends)) }
        ensures oracle { oracle_of self.new ≡ oracle_of self.old }
        ensures same { IsOneTurn self.old self.new }
    {
        if to >= self.nodes {
            return Err(SendFault::NoNode);
        }
        if bytes.len() > MAX_TEXT {
            return Err(SendFault::TooLong);
        }
        if self.made.sends.len() >= MAX_SENDS {
            return Err(SendFault::TooMany);
        }
        let bytes = Octets::copied(self.made.alloc, bytes).map_err(|_| SendFault::Memory)?;
        self.made
            .sends
            .push(Send { to, bytes })
            .map_err(|_| SendFault::Memory)
    }

    /// Sends a text to a node, as handlers do. It may be beyond the limits of a turn, where `send` refuses it: what makes the
    /// turn then judges it whole. After an error the turn is as before.
    pub fn send_text(&mut self, to: u8, text: &[u8]) -> Result<(), AllocError>
        ensures ok { OnOk result (turning self.new ≡ with_send to text.now (turning self.old)) }
        ensures err { OnErr result (turning self.new ≡ turning self.old) }
        ensures rest { turning self.new ≡ record (turning self.old) { sends = (turning self.new).sends } }
        ensures oracle { oracle_of self.new ≡ oracle_of self.old }
        ensures same { IsOneTurn self.old self.new }
    {
        let bytes = Octets::copied(self.made.alloc, text)?;
        self.made.sends.push(Send { to, bytes })?;
        Ok(())
    }

    /// Sends a number in decimal, as `send_text` does a text.
    pub fn send_number(&mut self, to: u8, n: u64) -> Result<(), AllocError>
        ensures ok { OnOk result (turning self.new ≡ with_send to (decimal n) (turning self.old)) }
        ensures err { OnErr result (turning self.new ≡ turning self.old) }
        ensures rest { turning self.new ≡ record (turning self.old) { sends = (turning self.new).sends } }
        ensures oracle { oracle_of self.new ≡ oracle_of self.old }
        ensures same { IsOneTurn self.old self.new }
    {
        self.send_text(to, Buffer::new().format(n).as_bytes())
    }

    /// Outputs a text of at most `MAX_TEXT` bytes. The faults are tried in their order, and after each the turn is as
    /// before.
    pub fn output(&mut self, text: &[u8]) -> Result<(), OutputFault>
        ensures ok { OnOk result (turning self.new ≡ record (turning self.old) { outs = (turning self.old).outs ++ text.now ∷ [] }) }
        ensures err { OnErr result (turning self.new ≡ turning self.old) }
        ensures too_long { IsErrOf result OutputFault.TooLong ↔ (MAX_TEXT < length text.now) }
        ensures too_many { IsErrOf result OutputFault.TooMany ↔ ((length text.now ≤ MAX_TEXT) × (MAX_OUTPUTS ≤ length (turning self.old).outs)) }
        ensures oracle { oracle_of self.new ≡ oracle_of self.old }
        ensures same { IsOneTurn self.old self.new }
    {
        if text.len() > MAX_TEXT {
            return Err(OutputFault::TooLong);
        }
        if self.made.outs.len() >= MAX_OUTPUTS {
            return Err(OutputFault::TooMany);
        }
        let text = Octets::copied(self.made.alloc, text).map_err(|_| OutputFault::Memory)?;
        self.made.outs.push(text).map_err(|_| OutputFault::Memory)
    }

    /// Outputs a text, as `send_text` sends one.
    pub fn output_text(&mut self, text: &[u8]) -> Result<(), AllocError>
        ensures ok { OnOk result (turning self.new ≡ with_output text.now (turning self.old)) }
        ensures err { OnErr result (turning self.new ≡ turning self.old) }
        ensures rest { turning self.new ≡ record (turning self.old) { outs = (turning self.new).outs } }
        ensures oracle { oracle_of self.new ≡ oracle_of self.old }
        ensures same { IsOneTurn self.old self.new }
    {
        let text = Octets::copied(self.made.alloc, text)?;
        self.made.outs.push(text)?;
        Ok(())
    }

    /// Outputs a number in decimal, as `output_text` does a text.
    pub fn output_number(&mut self, n: u64) -> Result<(), AllocError>
        ensures ok { OnOk result (turning self.new ≡ with_output (decimal n) (turning self.old)) }
        ensures err { OnErr result (turning self.new ≡ turning self.old) }
        ensures rest { turning self.new ≡ record (turning self.old) { outs = (turning self.new).outs } }
        ensures oracle { oracle_of self.new ≡ oracle_of self.old }
        ensures same { IsOneTurn self.old self.new }
    {
        self.output_text(Buffer::new().format(n).as_bytes())
    }

    // Whether what was sent and output is within the limits of a turn, and all of it lines.
    pub(crate) fn fits(&self) -> bool
        ensures { result ≡ fits (turning self.now).nodes (turning self.now).sends (turning self.now).outs }
    {
        self.made.sends.len() <= MAX_SENDS
            && self.made.outs.len() <= MAX_OUTPUTS
            && sends_fit(self.nodes, self.made.sends.as_slice())
            && outs_fit(self.made.outs.as_slice())
    }

    // Takes back what was done to the heap, sent and output. What was drawn stays.
    pub(crate) fn take_back(&mut self)
        requires { IsSome (turning self.old).heap.begun }
        ensures taken { IfSome (turning self.old).heap.begun (λ before. turning self.new ≡ record (turning self.old) {
          heap = record { value = value_of before; bytes = before; begun = Some before };
          sends = [];
          outs = [];
        }) }
        ensures oracle { oracle_of self.new ≡ oracle_of self.old }
        ensures same { IsOneTurn self.old self.new }
    {
        self.objects.abort();
        self.objects.begin();
        self.made.sends.clear();
        self.made.outs.clear();
    }

    /// Draws a reading of the clock. It takes no memory. `NoDraw` exactly where the turn has drawn `MAX_DRAWS` times; the
    /// turn is then as before, and the oracle wasn't asked.
    pub fn clock(&mut self) -> Result<u64, NoDraw>
        ensures ok { IfOk result (λ reading. turning self.new ≡ record (turning self.old) { draws = (turning self.old).draws ++ reading ∷ [] }) }
        ensures clocks { IfOk result (λ reading. Answers (O.telling.clocks (oracle_of self.old)) (O.telling.clocks (oracle_of self.new)) (reading ∷ [])) }
        ensures words { O.telling.words (oracle_of self.new) ≡ O.telling.words (oracle_of self.old) }
        ensures answers { IfOk result (λ reading. Answers (O.telling.answers (oracle_of self.old)) (O.telling.answers (oracle_of self.new)) (reading ∷ [])) }
        ensures origin { O.telling.origin (oracle_of self.new) ≡ O.telling.origin (oracle_of self.old) }
        ensures err { OnErr result ((turning self.new ≡ turning self.old) × (oracle_of self.new ≡ oracle_of self.old)) }
        ensures no_draw { IsErr result ↔ (MAX_DRAWS ≤ length (turning self.old).draws) }
        ensures same { IsOneTurn self.old self.new }
    {
        if self.made.draws.is_full() {
            return Err(NoDraw);
        }
        let reading = self.oracle.clock();
        self.made.draws.push(reading);
        Ok(reading)
    }

    /// Draws a random word, as `clock` does a reading.
    pub fn word(&mut self) -> Result<u64, NoDraw>
        ensures ok { IfOk result (λ word. turning self.new ≡ record (turning self.old) { draws = (turning self.old).draws ++ word ∷ [] }) }
        ensures words { IfOk result (λ word. Answers (O.telling.words (oracle_of self.old)) (O.telling.words (oracle_of self.new)) (word ∷ [])) }
        ensures clocks { O.telling.clocks (oracle_of self.new) ≡ O.telling.clocks (oracle_of self.old) }
        ensures answers { IfOk result (λ word. Answers (O.telling.answers (oracle_of self.old)) (O.telling.answers (oracle_of self.new)) (word ∷ [])) }
        ensures origin { O.telling.origin (oracle_of self.new) ≡ O.telling.origin (oracle_of self.old) }
        ensures err { OnErr result ((turning self.new ≡ turning self.old) × (oracle_of self.new ≡ oracle_of self.old)) }
        ensures no_draw { IsErr result ↔ (MAX_DRAWS ≤ length (turning self.old).draws) }
        ensures same { IsOneTurn self.old self.new }
    {
        if self.made.draws.is_full() {
            return Err(NoDraw);
        }
        let word = self.oracle.word();
        self.made.draws.push(word);
        Ok(word)
    }
}

// Whether a text is one line, and short.
fn is_text(text: &[u8]) -> bool
    ensures { result ≡ is_text text.now }
{
    text.len() <= MAX_TEXT && is_line(text)
}

fn is_line(text: &[u8]) -> bool
    ensures { result ≡ is_line text.now }
{
    text.iter().all(|byte| *byte != b'\n')
}

fn sends_fit(nodes: u8, sends: &[Send]) -> bool
    ensures { result ≡ list_all (send_fits nodes) sends.now }
{
    sends
        .iter()
        .all(|send| send.to < nodes && is_text(send.bytes.as_slice()))
}

fn outs_fit(outs: &[Octets]) -> bool
    ensures { result ≡ list_all is_text outs.now }
{
    outs.iter().all(|out| is_text(out.as_slice()))
}
