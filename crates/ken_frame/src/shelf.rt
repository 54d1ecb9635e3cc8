// Spare frames, each linked to the one below.
ghost use Rattle.std.specs.Prelude.{◌≡◌, ◌+◌, ◌-◌, ◌^◌, ◌<◌, ◌≤◌, [], ◌∷◌, ◌++◌, ◌⊎◌, length, replicate, None, IfOk};
ghost use Rattle.ken_frame.specs.Shelved.{on_top};

use crate::frame::{Frame, Node};
use crate::raw::Own;
use std::alloc::{AllocError, Global};
use std::fmt;
use std::marker::Model;

/// A stack of frames. The link is in the frame's node, so a push and a pop take no memory.
pub struct Shelf {
    alloc: Global,
    top: Option<Own<Node, Global>>,
    len: usize,
}

impl Model for Shelf {
    ghost use Rattle.std.specs.Prelude.{◌≡◌, ℕ, List, length};
    ghost use Rattle.ken_frame.specs.Shelved.{chain, AreFrames};

    ghost Value = { List (List ℕ) };

    ghost view = { λ s. chain s.top };

    ghost invariant = { λ s. (s.len ≡ length (chain s.top)) × AreFrames (chain s.top) };
}

impl Shelf {
    /// An empty shelf.
    pub fn new(alloc: Global) -> Shelf
        ensures { result ≡ [] }
    {
        Shelf {
            alloc,
            top: None,
            len: 0,
        }
    }

    /// How many frames there are.
    pub fn len(&self) -> usize
        ensures { result ≡ length self.now }
    {
        self.len
    }

    /// Lays the frame on the top.
    pub fn push(&mut self, frame: Frame)
        requires { length self.old < 2 ^ 63 }
        ensures { self.new ≡ frame ∷ self.old }
    {
        let Frame { mut node } = frame;
        node.get_mut().next = self.top.take();
        self.top = Some(node);
        self.len += 1;
    }

    /// Takes the top.
    pub fn pop(&mut self) -> Option<Frame>
        ensures top { self.old ≡ on_top result self.new }
        ensures none { result ≡ None → self.new ≡ [] }
    {
        let mut node = self.top.take()?;
        self.top = node.get_mut().next.take();
        self.len -= 1;
        Some(Frame { node })
    }

    /// Lays frames of zeros on the top until there are `count`.
    pub fn reserve(&mut self, count: usize) -> Result<(), AllocError>
        requires { count ≤ 2 ^ 63 }
        ensures enough { IfOk result (λ _. count ≤ length self.new) }
        ensures stay { self.new ≡ replicate (length self.new - length self.old) (replicate 256 0) ++ self.old }
        ensures least { length self.old ≤ length self.new }
        ensures most { (length self.new ≤ length self.old) ⊎ (length self.new ≤ count) }
    {
        while self.len < count {
            self.push(Frame::zeroed(self.alloc)?);
        }
        Ok(())
    }
}

impl fmt::Debug for Shelf {
    fn fmt<W: fmt::Write>(&self, f: &mut fmt::Formatter<W>) -> fmt::Result {
        f.debug_struct("Shelf")
            .field("len", &self.len())
            .finish_non_exhaustive()
    }
}

// One node after another, so that a high shelf takes no stack.
impl Drop for Shelf {
    fn drop(self) {
        let Shelf {
            alloc: _,
            mut top,
            len: _,
        } = self;
        while let Some(mut node) = top {
            top = node.get_mut().next.take();
        }
    }
}
