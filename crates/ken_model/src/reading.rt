// The value that a heap's bytes stand for.
ghost use Rattle.std.specs.Prelude.{◌≡◌, ◌+◌, ◌≤◌, ◌++◌, length, true, false, IfOk, OnOk, IfSome, IfNone};
ghost use Rattle.ken_model.specs.Heap.{IsHeap};
ghost use Rattle.ken_model.specs.Layout.{StandsFor};
ghost use Rattle.ken_model.specs.Reading.{read_value};
ghost use Rattle.ken_model.specs.Checks.{HasHeader, block_in, with_blocks};

use crate::{Block, CELLS, HEAD, Head, Items, MAX_PAGES, Octets, PAGE, Value, wrong_header};
use byteorder::{BigEndian, ByteOrder};
use std::alloc::{AllocError, Global};

impl Value {
    /// The value that the bytes of a heap stand for: `None` exactly where they stand for none. The value is a heap.
    pub fn read(alloc: Global, bytes: &[u8]) -> Result<Option<Value>, AllocError>
        ensures value { IfOk result (λ value. value ≡ read_value bytes.now) }
        ensures heap { IfOk result (λ value. IfSome value IsHeap) }
    {
        if !has_header(bytes) {
            return Ok(None);
        }
        let Some(blocks) = blocks(alloc, bytes)? else {
            return Ok(None);
        };
        Ok(Some(Value {
            size: bytes.len() as u64,
            root: BigEndian::read_u64(bytes),
            blocks: Items::new(blocks),
        }))
    }
}

// Whether there are 1 to 4,096 whole pages, and right bytes before the cells.
fn has_header(bytes: &[u8]) -> bool
    ensures right { result ≡ true → HasHeader bytes.now }
    ensures wrong { result ≡ false → (v : Value) → StandsFor bytes.now v → ⊥ }
{
    let size = bytes.len() as u64;
    if size == 0 || size > PAGE * MAX_PAGES || size % PAGE != 0 {
        return false;
    }
    wrong_header(&bytes[..CELLS as usize], (size / PAGE) as u32).is_none()
}

// The blocks of the cells, where all are cells.
fn blocks(alloc: Global, bytes: &[u8]) -> Result<Option<Vec<Block>>, AllocError>
    requires { HasHeader bytes.now }
    ensures some { IfOk result (λ blocks. IfSome blocks (λ copies. StandsFor bytes.now (with_blocks bytes.now copies.items))) }
    ensures none { IfOk result (λ blocks. IfNone blocks ((v : Value) → StandsFor bytes.now v → ⊥)) }
{
    let mut blocks = Vec::new(alloc);
    let mut at = CELLS as usize;
    let mut after_gap = false;
    while at < bytes.len() {
        let room = bytes.len() - at;
        let Some(head) = Head::of(&bytes[at..at + HEAD as usize], room as u64, after_gap) else {
            return Ok(None);
        };
        collect(alloc, bytes, at, head.len, &mut blocks)?;
        after_gap = head.len == 0;
        at += head.span as usize;
    }
    Ok(Some(blocks))
}

// Appends the block of a cell, where it has one.
fn collect(
    alloc: Global,
    bytes: &[u8],
    at: usize,
    len: u32,
    blocks: &mut Vec<Block>,
) -> Result<(), AllocError>
    requires { at + 16 + len ≤ length bytes.now }
    ensures { OnOk result (blocks.new.items ≡ blocks.old.items ++ block_in bytes.now at len) }
{
    if len == 0 {
        return Ok(());
    }
    let place = at + HEAD as usize;
    let copy = bytes[place..place + len as usize].to_vec(alloc)?;
    blocks.push(Block {
        place: place as u64,
        bytes: Octets::new(copy),
    })?;
    Ok(())
}
