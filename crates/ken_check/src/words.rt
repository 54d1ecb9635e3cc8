// What the words of a line name. They are read loosely: whether a line is spelled as it should be is for its reader
// to see.
ghost use Rattle.std.specs.Prelude.{◌≡◌, ◌<◌, ◌^◌, ℕ, option_copied, option_map, slice_get, IfOk, Some, decimal};
ghost use Rattle.ken_model.specs.declared.messages.Step.{Step};
ghost use Rattle.ken_model.specs.Report.{sender_word};
ghost use Rattle.ken_model.specs.Spelling.{parts_at};
ghost use Rattle.ken_check.specs.Words.{HasStepWords, ReadsDraws};

use ken_model::{OUTSIDE, Shared, Step};
use ken_num::decimal;
use std::alloc::{AllocError, Global};

/// The word of a line that has so many before it, where there is one. Words have one space between them. Nothing behind
/// it is looked at.
pub(crate) fn word(text: &[u8], index: usize) -> Option<&[u8]>
    ensures { option_copied result ≡ slice_get (parts_at 32 text.now) index }
{
    text.split(|byte| *byte == b' ').nth(index)
}

/// The number of a word of a line.
pub(crate) fn number_at(text: &[u8], index: usize) -> Option<u64>
    ensures { (n : ℕ) → n < 2 ^ 64 → slice_get (parts_at 32 text.now) index ≡ Some (decimal n) → result ≡ Some n }
{
    decimal(word(text, index)?)
}

/// The node of a word of a line.
pub(crate) fn node_at(text: &[u8], index: usize) -> Option<u8>
    ensures { (n : ℕ) → n < 2 ^ 8 → slice_get (parts_at 32 text.now) index ≡ Some (decimal n) → result ≡ Some n }
{
    u8::try_from(number_at(text, index)?).ok()
}

/// The sender of a word of a line: a node, or `out`.
fn sender_at(text: &[u8], index: usize) -> Option<u8>
    ensures { (n : ℕ) → n < 2 ^ 8 → slice_get (parts_at 32 text.now) index ≡ Some (sender_word n) → result ≡ Some n }
{
    if word(text, index)? == b"out".as_slice() {
        Some(OUTSIDE)
    } else {
        node_at(text, index)
    }
}

/// The draws of a word of a line: numbers with commas between them, or `-`.
fn draws_in(alloc: Global, word: &[u8]) -> Result<Option<Vec<u64>>, AllocError>
    ensures { IfOk result (λ found. ReadsDraws word.now (option_map (λ draws. draws.items) found)) }
{
    let mut draws = Vec::new(alloc);
    if word == b"-".as_slice() {
        return Ok(Some(draws));
    }
    for part in word.split(|byte| *byte == b',') {
        let Some(draw) = decimal(part) else {
            return Ok(None);
        };
        draws.push(draw)?;
    }
    Ok(Some(draws))
}

/// The step that a turn line names.
pub(crate) fn step_in(alloc: Global, text: &[u8]) -> Result<Option<Step>, AllocError>
    ensures { IfOk result (λ found. (s : Step) → HasStepWords text.now s → found ≡ Some s) }
{
    let (Some(node), Some(from), Some(word)) = (node_at(text, 2), sender_at(text, 3), word(text, 5))
    else {
        return Ok(None);
    };
    let Some(draws) = draws_in(alloc, word)? else {
        return Ok(None);
    };
    let draws = Shared::new(alloc, draws)?;
    Ok(Some(Step { node, from, draws }))
}
