// A page: its bytes now, and those that it had when the turn began.
ghost use Rattle.std.specs.Prelude.{◌≡◌, ◌+◌, ◌≤◌, true, false, length, None, is_some, not, IfOk, OnOk, OnErr};
ghost use Rattle.std.specs.Str.{bytes_eq};
ghost use Rattle.std.specs.Arc.{arc_value};
ghost use Rattle.ken_pages.specs.Layout.{bytes_in, now_of, was_of, is_frame_own, is_kept, is_own};
ghost use Rattle.ken_frame.specs.Written.{written};

use ken_frame::{FRAME, Frame};
use ken_lanes::equal_page;
use std::alloc::{AllocError, Global};
use std::mem;
use std::sync::Arc;

/// A frame that the heap alone has, or one that it shares.
#[derive(Debug, Drop)]
pub(crate) enum Held {
    Own(Frame),
    Shared(Arc<Frame>),
}

impl Held {
    /// The frame.
    pub(crate) fn frame(&self) -> &Frame
        ensures { result.now ≡ bytes_in self.now }
    {
        match self {
            Held::Own(frame) => frame,
            Held::Shared(frame) => frame,
        }
    }

    // The same bytes, and a share of them: no byte is copied.
    fn shared(self, alloc: Global) -> (Held, Result<Arc<Frame>, AllocError>)
        ensures held { bytes_in result.0 ≡ bytes_in self }
        ensures share { IfOk result.1 (λ frame. arc_value frame ≡ bytes_in self) }
        ensures shared { is_frame_own result.0 ≡ true → is_frame_own self ≡ true }
        ensures ok { OnOk result.1 (is_frame_own result.0 ≡ false) }
    {
        match self {
            Held::Own(frame) => match Arc::new(alloc, frame) {
                Ok(frame) => lent(frame),
                Err(failed) => (Held::Own(failed.value), Err(AllocError)),
            },
            Held::Shared(frame) => lent(frame),
        }
    }
}

// A shared frame, and one more share of it.
fn lent(frame: Arc<Frame>) -> (Held, Result<Arc<Frame>, AllocError>)
    ensures held { bytes_in result.0 ≡ arc_value frame }
    ensures share { IfOk result.1 (λ more. arc_value more ≡ arc_value frame) }
    ensures shared { is_frame_own result.0 ≡ false }
{
    let more = Arc::try_clone(&frame);
    (Held::Shared(frame), more)
}

/// A page. Where the turn wrote it, `before` is what it held when the turn began.
#[derive(Debug, Drop)]
pub(crate) struct Page {
    held: Held,
    before: Option<Held>,
}

impl Page {
    /// A page that shares its frame, which no turn wrote.
    pub(crate) fn new(frame: Arc<Frame>) -> Page
        ensures now { now_of result ≡ arc_value frame }
        ensures was { was_of result ≡ arc_value frame }
        ensures kept { is_kept result ≡ false }
        ensures own { is_own result ≡ false }
    {
        Page {
            held: Held::Shared(frame),
            before: None,
        }
    }

    /// The frame now.
    pub(crate) fn frame(&self) -> &Frame
        ensures { result.now ≡ now_of self.now }
    {
        self.held.frame()
    }

    /// A share of the frame now, or a copy of it where the heap alone has it.
    pub(crate) fn lend(&self, alloc: Global) -> Result<Arc<Frame>, AllocError>
        ensures { IfOk result (λ frame. arc_value frame ≡ now_of self.now) }
    {
        match &self.held {
            Held::Shared(frame) => Arc::try_clone(frame),
            Held::Own(frame) => {
                let mut copy = Frame::zeroed(alloc)?;
                copy.copy_from(frame);
                Ok(Arc::new(alloc, copy)?)
            }
        }
    }

    /// Whether the turn wrote it.
    pub(crate) fn is_kept(&self) -> bool
        ensures { result ≡ is_kept self.now }
    {
        self.before.is_some()
    }

    /// Whether the turn has a frame of its own for it, which nobody shares.
    pub(crate) fn is_own(&self) -> bool
        ensures { result ≡ is_own self.now }
    {
        self.before.is_some() && matches!(self.held, Held::Own(_))
    }

    /// Whether its bytes are not as they were when the turn began.
    pub(crate) fn differs(&self) -> bool
        ensures { result ≡ not (bytes_eq (was_of self.now) (now_of self.now)) }
    {
        match &self.before {
            Some(before) => !equal_page(before.frame().as_slice(), self.frame().as_slice()),
            None => false,
        }
    }

    /// Writes to the turn's own frame.
    pub(crate) fn write(&mut self, at: usize, bytes: &[u8])
        requires own { is_own self.old ≡ true }
        requires within { at + length bytes.now ≤ 256 }
        ensures now { now_of self.new ≡ written (now_of self.old) at bytes.now }
        ensures was { was_of self.new ≡ was_of self.old }
        ensures kept { is_kept self.new ≡ is_kept self.old }
        ensures own { is_own self.new ≡ true }
    {
        match &mut self.held {
            Held::Own(frame) => frame.write(at, bytes),
            Held::Shared(_) => unreachable!(),
        }
    }

    /// Gives the turn this frame of its own, with the page's bytes, and keeps what the page held when the turn began.
    pub(crate) fn own(&mut self, mut frame: Frame)
        ensures now { now_of self.new ≡ now_of self.old }
        ensures was { was_of self.new ≡ was_of self.old }
        ensures kept { is_kept self.new ≡ true }
        ensures own { is_own self.new ≡ true }
    {
        frame.copy_from(self.frame());
        let held = mem::replace(&mut self.held, Held::Own(frame));
        if self.before.is_none() {
            self.before = Some(held);
        }
    }

    /// Makes the page what it was when the turn began, and gives the turn's own frame back.
    pub(crate) fn put_back(&mut self) -> Option<Frame>
        ensures now { now_of self.new ≡ was_of self.old }
        ensures was { was_of self.new ≡ was_of self.old }
        ensures kept { is_kept self.new ≡ false }
        ensures frame { is_some result ≡ is_own self.old }
    {
        let before = self.before.take()?;
        match mem::replace(&mut self.held, before) {
            Held::Own(frame) => Some(frame),
            Held::Shared(_) => None,
        }
    }

    /// Leaves the page as it is, and gives the frame back that it had when the turn began, where nobody shares it.
    pub(crate) fn keep(&mut self) -> Option<Frame>
        ensures now { now_of self.new ≡ now_of self.old }
        ensures was { was_of self.new ≡ now_of self.old }
        ensures kept { is_kept self.new ≡ false }
        ensures frame { is_kept self.old ≡ false → result ≡ None }
    {
        match self.before.take()? {
            Held::Own(frame) => Some(frame),
            Held::Shared(frame) => Arc::into_inner(frame),
        }
    }

    /// A share of the page's bytes, of a page that the turn wrote. The turn then has no frame of its own for it.
    pub(crate) fn share(&mut self, alloc: Global) -> Result<Arc<Frame>, AllocError>
        requires { is_kept self.old ≡ true }
        ensures share { IfOk result (λ frame. arc_value frame ≡ now_of self.old) }
        ensures now { now_of self.new ≡ now_of self.old }
        ensures was { was_of self.new ≡ was_of self.old }
        ensures kept { is_kept self.new ≡ true }
        ensures own { OnOk result (is_own self.new ≡ false) }
        ensures less { is_own self.new ≡ true → is_own self.old ≡ true }
    {
        let Some(before) = self.before.take() else {
            unreachable!()
        };
        let (held, share) = mem::replace(&mut self.held, before).shared(alloc);
        self.before = Some(mem::replace(&mut self.held, held));
        share
    }

    /// Takes a frame's bytes over, of a page that no turn wrote. It takes memory only where the page shares its frame and has
    /// other bytes. After an error it is as before.
    pub(crate) fn load(&mut self, alloc: Global, frame: &Frame) -> Result<(), AllocError>
        requires { is_kept self.old ≡ false }
        ensures now { OnOk result (now_of self.new ≡ frame.now) }
        ensures whole { length frame.now ≡ 256 }
        ensures same { OnErr result (now_of self.new ≡ now_of self.old) }
        ensures was { was_of self.new ≡ now_of self.new }
        ensures kept { is_kept self.new ≡ false }
    {
        prove!(frame.as_slice().len() == FRAME);
        if equal_page(self.frame().as_slice(), frame.as_slice()) {
            return Ok(());
        }
        if let Held::Shared(_) = &self.held {
            self.held = Held::Own(Frame::zeroed(alloc)?);
        }
        if let Held::Own(own) = &mut self.held {
            own.copy_from(frame);
        }
        Ok(())
    }
}
