// A frame: 256 bytes on the heap, and a link for the shelf that it lies on.
ghost use Rattle.std.specs.Prelude.{◌≡◌, ◌+◌, ◌≤◌, length, take, drop, replicate, IfOk};
ghost use Rattle.ken_frame.specs.Written.{written};

use crate::raw::Own;
use std::alloc::{AllocError, Global};
use std::fmt;
use std::marker::Model;

/// The bytes of a frame.
pub const FRAME: usize = 256;

/// The bytes, and the node below on the shelf.
#[derive(Drop)]
pub(crate) struct Node {
    pub(crate) bytes: [u8; 256],
    pub(crate) next: Option<Own<Node, Global>>,
}

/// As many bytes as a page has.
#[derive(Drop)]
pub struct Frame {
    pub(crate) node: Own<Node, Global>,
}

impl Model for Frame {
    ghost use Rattle.std.specs.Prelude.{◌≡◌, ℕ, List, length, None};
    ghost use Rattle.ken_frame.specs.declared.frame.Node.{out-Node};

    ghost Value = { List ℕ };

    ghost view = { λ f. (out-Node f.node.value).bytes };

    ghost invariant = { λ f.
        ((out-Node f.node.value).next ≡ None) × (length (out-Node f.node.value).bytes ≡ 256) };
}

impl Frame {
    /// A frame of zeros.
    pub fn zeroed(alloc: Global) -> Result<Frame, AllocError>
        ensures { IfOk result (λ f. f ≡ replicate 256 0) }
    {
        let node = Box::new(
            alloc,
            Node {
                bytes: [0; 256],
                next: None,
            },
        )?;
        Ok(Frame {
            node: Own::of(node),
        })
    }

    /// Reads as many bytes as `buf` takes, from the place `at` on.
    pub fn read(&self, at: usize, buf: &mut [u8])
        requires { at + length buf.old ≤ 256 }
        ensures { buf.new ≡ take (length buf.old) (drop at self.now) }
    {
        buf.copy_from_slice(&self.node.get().bytes[at..at + buf.len()]);
    }

    /// Writes the bytes over those from the place `at` on.
    pub fn write(&mut self, at: usize, bytes: &[u8])
        requires { at + length bytes.now ≤ 256 }
        ensures { self.new ≡ written self.old at bytes.now }
    {
        self.node.get_mut().bytes[at..at + bytes.len()].copy_from_slice(bytes);
    }

    /// Takes the bytes of the other frame over.
    pub fn copy_from(&mut self, other: &Frame)
        ensures { self.new ≡ other.now }
    {
        self.node.get_mut().bytes = other.node.get().bytes;
    }

    /// The bytes.
    pub fn as_slice(&self) -> &[u8]
        ensures same { result.now ≡ self.now }
        ensures whole { length result.now ≡ 256 }
    {
        &self.node.get().bytes
    }
}

impl fmt::Debug for Frame {
    fn fmt<W: fmt::Write>(&self, f: &mut fmt::Formatter<W>) -> fmt::Result {
        f.debug_struct("Frame")
            .field("bytes", &self.as_slice())
            .finish()
    }
}
