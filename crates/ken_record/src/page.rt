ghost use Rattle.std.specs.Prelude.{◌≡◌, length};
ghost use Rattle.std.specs.Arc.{arc_value};
ghost use Rattle.ken_record.specs.Spelling.{page};
ghost use Rattle.ken_record.specs.Grammar.{IsPage, page_rank};
ghost use Rattle.ken_record.specs.Reading.{page_at};

use crate::RecordFault;
use crate::bytes::{part_front, put_4, put_part, u32_front};
use crate::field::Field;
use crate::rising::Ranked;
use ken_frame::Frame;
use ken_model::{Octets, PAGE, TryClone};
use std::alloc::{AllocError, Global};
use std::fmt;
use std::marker::Model;
use std::sync::Arc;

// Where the bytes are.
#[derive(Drop)]
pub(crate) enum Held {
    Own(Octets),
    Shared(Arc<Frame>),
}

/// The bytes of a page: its own, or those of a frame that it shares.
#[derive(Drop)]
pub struct PageBytes {
    held: Held,
}

impl Model for PageBytes {
    ghost use Rattle.std.specs.Prelude.{ℕ, List};
    ghost use Rattle.ken_record.specs.Held.{bytes_in};

    ghost Value = { List ℕ };

    ghost view = { λ b. bytes_in b.held };
}

impl PageBytes {
    /// Takes the bytes over.
    pub fn own(bytes: Octets) -> Self
        ensures { result ≡ bytes }
    {
        PageBytes {
            held: Held::Own(bytes),
        }
    }

    /// Shares a frame, and copies nothing.
    pub fn shared(frame: Arc<Frame>) -> Self
        ensures { result ≡ arc_value frame }
    {
        PageBytes {
            held: Held::Shared(frame),
        }
    }

    pub fn as_slice(&self) -> &[u8]
        ensures { result.now ≡ self.now }
    {
        match &self.held {
            Held::Own(bytes) => bytes.as_slice(),
            Held::Shared(frame) => frame.as_slice(),
        }
    }

    /// The number of bytes.
    pub fn len(&self) -> usize
        ensures { result ≡ length self.now }
    {
        self.as_slice().len()
    }
}

impl TryClone for PageBytes {
    fn try_clone(&self, alloc: Global) -> Result<Self, AllocError> {
        match &self.held {
            Held::Own(bytes) => Ok(PageBytes::own(bytes.try_clone(alloc)?)),
            Held::Shared(frame) => Ok(PageBytes::shared(Arc::try_clone(frame)?)),
        }
    }
}

impl fmt::Debug for PageBytes {
    fn fmt<W: fmt::Write>(&self, f: &mut fmt::Formatter<W>) -> fmt::Result {
        f.debug_struct("PageBytes")
            .field("bytes", &self.as_slice())
            .finish()
    }
}

/// A page of a heap with its bytes.
#[derive(Debug, Drop)]
pub struct Page {
    pub page: u32,
    /// 256 bytes.
    pub bytes: PageBytes,
}

impl Field for Page {
    ghost is = { IsPage };

    ghost spell = { page };

    ghost reads = { page_at };

    fn fits(&self) -> bool {
        let _any = self.page;
        self.bytes.len() as u64 == PAGE
    }

    #[tactic(auto, using(crate::proofs::Sizes::page_long))]
    fn len(&self) -> usize {
        260
    }

    #[tactic(auto, using(crate::proofs::Appended::appended))]
    fn put(&self, out: &mut Vec<u8>) -> Result<(), AllocError> {
        put_4(out, self.page)?;
        put_part(out, self.bytes.as_slice())
    }

    #[tactic(auto, unfolding(crate::specs::Reading::page_at))]
    fn read(alloc: Global, bytes: &[u8]) -> Result<(Self, &[u8]), RecordFault> {
        let (page, rest) = u32_front(bytes)?;
        let (bytes, rest) = part_front(rest, PAGE as usize)?;
        let bytes = PageBytes::own(Octets::new(Vec::from_slice(alloc, bytes)?));
        Ok((Page { page, bytes }, rest))
    }
}

impl Ranked for Page {
    ghost place = { page_rank };

    fn rank(&self) -> u128 {
        u128::from(self.page)
    }
}
