// A node's pages: its heap with the live records, and its image with what is still to be written there.
use crate::heap::Heap;
use crate::number_set::Numbers;
use ken_cover::Layer;
use std::collections::VecDeque;

#[derive(Debug, Drop)]
pub(crate) struct Pages {
    pub heap: Heap,
    /// The live records, oldest first.
    pub live: Vec<Layer>,
    /// The records to patch, oldest first, each with its pages that aren't written yet.
    pub ahead: VecDeque<Layer>,
    /// The pages that aren't clean.
    pub unclean: Numbers,
    pub image: Vec<u8>,
    /// The pages written since the last sync.
    pub opened: Numbers,
}
