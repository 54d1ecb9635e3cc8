// How bytes are spelled in a row.
use crate::RowFault;
use ken_num::{decimal, put_decimal};
use std::alloc::{AllocError, Global};

// The most bytes of a run.
const MAX_RUN: u64 = 1 << 24;
// From how many equal bytes on they are spelled as a run.
const LEAST_RUN: usize = 8;

const DIGITS: &[u8; 16] = b"0123456789abcdef";

/// Appends the bytes that a run spells.
pub(crate) fn push_run(alloc: Global, bytes: &mut Vec<u8>, run: &[u8]) -> Result<(), RowFault> {
    if let Some((b'\'', text)) = run.split_first() {
        return Ok(bytes.extend_from_slice(text)?);
    }
    match run.iter().position(|byte| *byte == b'*') {
        Some(star) => {
            let times = decimal(&run[star + 1..]).ok_or(RowFault::Usage)?;
            push_often(bytes, &hex::decode(alloc, &run[..star])?, times)
        }
        None => Ok(bytes.extend_from_slice(&hex::decode(alloc, run)?)?),
    }
}

fn push_often(bytes: &mut Vec<u8>, part: &[u8], times: u64) -> Result<(), RowFault> {
    if times > MAX_RUN {
        return Err(RowFault::Usage);
    }
    for _ in 0..times {
        bytes.extend_from_slice(part)?;
    }
    Ok(())
}

// What of the bytes is spelled already.
#[derive(Clone, Copy)]
enum Spelled {
    Nothing,
    Digits,
    Run,
}

/// Appends bytes in hexadecimal. From eight equal ones on they are spelled as a run.
pub(crate) fn put_bytes(out: &mut Vec<u8>, bytes: &[u8]) -> Result<(), AllocError> {
    let mut spelled = Spelled::Nothing;
    let mut before = None;
    let mut times = 0_usize;
    for byte in bytes {
        if before == Some(*byte) {
            times = times.saturating_add(1);
        } else {
            spelled = put_run(out, spelled, before, times)?;
            before = Some(*byte);
            times = 1;
        }
    }
    match put_run(out, spelled, before, times)? {
        Spelled::Nothing => Ok(out.push(b'-')?),
        Spelled::Digits | Spelled::Run => Ok(()),
    }
}

// Appends a byte that stands so often.
fn put_run(
    out: &mut Vec<u8>,
    spelled: Spelled,
    byte: Option<u8>,
    times: usize,
) -> Result<Spelled, AllocError> {
    let Some(byte) = byte else {
        return Ok(spelled);
    };
    if times < LEAST_RUN {
        if matches!(spelled, Spelled::Run) {
            out.push(b'.')?;
        }
        for _ in 0..times {
            put_byte(out, byte)?;
        }
        return Ok(Spelled::Digits);
    }
    if !matches!(spelled, Spelled::Nothing) {
        out.push(b'.')?;
    }
    put_byte(out, byte)?;
    out.push(b'*')?;
    put_decimal(out, times as u64)?;
    Ok(Spelled::Run)
}

fn put_byte(out: &mut Vec<u8>, byte: u8) -> Result<(), AllocError> {
    out.push(DIGITS[usize::from(byte >> 4)])?;
    Ok(out.push(DIGITS[usize::from(byte & 15)])?)
}

/// Whether the bytes can be spelled as a text behind a quote: there are some, each is printed and none is a space or a dot.
pub(crate) fn is_plain_text(bytes: &[u8]) -> bool {
    !bytes.is_empty()
        && bytes
            .iter()
            .all(|byte| byte.is_ascii_graphic() && *byte != b'.')
}
