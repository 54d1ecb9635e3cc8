// Byte strings.
ghost use Rattle.std.specs.Prelude.{◌≡◌, ◌==◌, ◌≤◌, ◌+◌, ◌++◌, length, IfOk, IsOk};
ghost use Rattle.ken_model.specs.Text.{bytes_in, HasRoom};

use crate::TryClone;
use std::alloc::{AllocError, Global};
use std::fmt;
use std::marker::Model;
use std::sync::Arc;

/// The most bytes that stand in a byte string itself.
const SHORT: usize = 46;

// Where the bytes are.
#[derive(Drop)]
pub(crate) enum Kept {
    Short { len: u8, bytes: [u8; SHORT] },
    Own(Vec<u8>),
    Shared(Arc<Vec<u8>>),
}

// The bytes of one, and then of the other, where they are short.
fn short(front: &[u8], back: &[u8]) -> Kept
    requires { length front.now + length back.now ≤ 46 }
    ensures bytes { bytes_in result ≡ front.now ++ back.now }
    ensures room { HasRoom result }
{
    let len = front.len() + back.len();
    let mut bytes = [0; SHORT];
    bytes[..front.len()].copy_from_slice(front);
    bytes[front.len()..len].copy_from_slice(back);
    Kept::Short {
        len: len as u8,
        bytes,
    }
}

/// A byte string. One of at most 46 bytes that was copied or joined from others needs no memory. A longer one that was copied
/// shares its bytes with its copies.
#[derive(Drop)]
pub struct Octets {
    kept: Kept,
}

impl Model for Octets {
    ghost use Rattle.std.specs.Prelude.{ℕ, List};
    ghost use Rattle.ken_model.specs.Text.{bytes_in, HasRoom};

    ghost Value = { List ℕ };

    ghost view = { λ o. bytes_in o.kept };

    ghost invariant = { λ o. HasRoom o.kept };
}

impl Octets {
    /// Takes the vector over, and no memory.
    pub fn new(bytes: Vec<u8>) -> Self
        ensures { result ≡ bytes.items }
    {
        Octets {
            kept: Kept::Own(bytes),
        }
    }

    /// A copy of the bytes. Up to 46 of them take no memory.
    pub fn copied(alloc: Global, bytes: &[u8]) -> Result<Self, AllocError>
        ensures same { IfOk result (λ o. o ≡ bytes.now) }
        ensures short { length bytes.now ≤ 46 → IsOk result }
    {
        let kept = if bytes.len() <= SHORT {
            short(bytes, &[])
        } else {
            Kept::Shared(Arc::new(alloc, Vec::from_slice(alloc, bytes)?)?)
        };
        Ok(Octets { kept })
    }

    /// The bytes of one, and then of the other. Up to 46 of them take no memory.
    pub fn joined(alloc: Global, front: &[u8], back: &[u8]) -> Result<Self, AllocError>
        ensures same { IfOk result (λ o. o ≡ front.now ++ back.now) }
        ensures short { length front.now + length back.now ≤ 46 → IsOk result }
    {
        let len = front.len() + back.len();
        if len <= SHORT {
            return Ok(Octets {
                kept: short(front, back),
            });
        }
        let mut bytes = Vec::with_capacity(alloc, len)?;
        bytes.extend_from_slice(front)?;
        bytes.extend_from_slice(back)?;
        Ok(Octets::new(bytes))
    }

    pub fn as_slice(&self) -> &[u8]
        ensures { result.now ≡ self.now }
    {
        match &self.kept {
            Kept::Short { len, bytes } => &bytes[..usize::from(*len)],
            Kept::Own(bytes) => bytes.as_slice(),
            Kept::Shared(bytes) => bytes.as_slice(),
        }
    }

    /// The number of bytes.
    pub fn len(&self) -> usize
        ensures { result ≡ length self.now }
    {
        self.as_slice().len()
    }

    pub fn is_empty(&self) -> bool
        ensures { result ≡ (length self.now == 0) }
    {
        self.len() == 0
    }
}

impl TryClone for Octets {
    fn try_clone(&self, alloc: Global) -> Result<Self, AllocError> {
        match &self.kept {
            Kept::Shared(bytes) => Ok(Octets {
                kept: Kept::Shared(Arc::try_clone(bytes)?),
            }),
            Kept::Own(bytes) => Ok(Octets::new(Vec::from_slice(alloc, bytes.as_slice())?)),
            Kept::Short { len, bytes } => Ok(Octets {
                kept: Kept::Short {
                    len: *len,
                    bytes: *bytes,
                },
            }),
        }
    }
}

impl fmt::Debug for Octets {
    fn fmt<W: fmt::Write>(&self, f: &mut fmt::Formatter<W>) -> fmt::Result {
        f.debug_struct("Octets")
            .field("bytes", &self.as_slice())
            .finish()
    }
}
