// The record of a turn, spelled from what the turn did.
ghost use Rattle.std.specs.Prelude.{◌≡◌, ◌++◌, ◌<◌, ◌^◌, ℕ, [], length, OnOk, OnErr};
ghost use Rattle.std.specs.List.{flat_map};
ghost use Rattle.ken_record.specs.Appending.{HasFront};
ghost use Rattle.ken_record.specs.Grammar.{HasLists, IsRecord};
ghost use Rattle.ken_record.specs.Spelling.{counted, page, origin, lists, fields, record_bytes};
ghost use Rattle.ken_record.specs.Turns.{as_page, turn_pages, turn_record};
ghost use Rattle.ken_record.specs.Versions.{One};

use crate::bytes::{put_1, put_2, put_4, put_8, put_part};
use crate::effects::Effects;
use crate::field::{counted_len, put_few};
use crate::record::ORIGIN_LEN;
use ken_frame::{FRAME, Frame};
use std::alloc::AllocError;
use std::sync::Arc;

// The bytes of a page with its number.
const PAGE_LEN: usize = FRAME + 4;

/// Appends the one spelling of the record of a turn with this number, these effects and these changed pages, and makes no record.
/// After an error a front of it may stand behind the bytes that `out` had.
#[tactic(auto, using(crate::proofs::Appended::appended, crate::proofs::Sizes::fields_fit))]
pub fn put_turn(
    out: &mut Vec<u8>,
    turn: u64,
    effects: &Effects,
    pages: &[(u32, Arc<Frame>)],
) -> Result<(), AllocError>
    requires { IsRecord One (turn_record turn effects.now (turn_pages pages.now)) }
    ensures ok { OnOk result (out.new.items ≡ out.old.items ++ record_bytes One (turn_record turn effects.now (turn_pages pages.now))) }
    ensures err { OnErr result (HasFront out.old.items (record_bytes One (turn_record turn effects.now (turn_pages pages.now))) out.new.items) }
{
    put_4(out, fields_len(effects, pages) as u32)?;
    put_fields(out, turn, effects, pages)
}

// The bytes of the fields.
#[tactic(auto, using(crate::proofs::Sizes::fields_long, crate::proofs::Sizes::pages_long))]
fn fields_len(effects: &Effects, pages: &[(u32, Arc<Frame>)]) -> usize
    requires { HasLists One (turn_record 1 effects.now (turn_pages pages.now)) }
    ensures { (turn : ℕ) → result ≡ length (fields One (turn_record turn effects.now (turn_pages pages.now))) }
{
    let draws = counted_len(1, effects.draws.as_slice());
    let sends = counted_len(1, effects.sends.as_slice());
    let outs = counted_len(1, effects.outs.as_slice());
    ORIGIN_LEN + draws + sends + outs + 2 + PAGE_LEN * pages.len()
}

#[tactic(auto, using(crate::proofs::Appended::appended))]
fn put_fields(
    out: &mut Vec<u8>,
    turn: u64,
    effects: &Effects,
    pages: &[(u32, Arc<Frame>)],
) -> Result<(), AllocError>
    requires { HasLists One (turn_record 1 effects.now (turn_pages pages.now)) }
    ensures ok { OnOk result (out.new.items ≡ out.old.items ++ fields One (turn_record turn effects.now (turn_pages pages.now))) }
    ensures err { OnErr result (HasFront out.old.items (fields One (turn_record turn effects.now (turn_pages pages.now))) out.new.items) }
{
    put_origin(out, turn, effects)?;
    put_lists(out, effects, pages)
}

#[tactic(auto, using(crate::proofs::Appended::appended))]
fn put_origin(out: &mut Vec<u8>, turn: u64, effects: &Effects) -> Result<(), AllocError>
    ensures ok { OnOk result (out.new.items ≡ out.old.items ++ origin (turn_record turn effects.now [])) }
    ensures err { OnErr result (HasFront out.old.items (origin (turn_record turn effects.now [])) out.new.items) }
{
    put_8(out, turn)?;
    put_8(out, effects.stamp)?;
    put_1(out, effects.from)?;
    put_8(out, effects.number)
}

#[tactic(auto, using(crate::proofs::Appended::appended))]
fn put_lists(
    out: &mut Vec<u8>,
    effects: &Effects,
    pages: &[(u32, Arc<Frame>)],
) -> Result<(), AllocError>
    requires { HasLists One (turn_record 1 effects.now (turn_pages pages.now)) }
    ensures ok { OnOk result (out.new.items ≡ out.old.items ++ lists (turn_record 1 effects.now (turn_pages pages.now))) }
    ensures err { OnErr result (HasFront out.old.items (lists (turn_record 1 effects.now (turn_pages pages.now))) out.new.items) }
{
    put_few(out, effects.draws.as_slice())?;
    put_few(out, effects.sends.as_slice())?;
    put_few(out, effects.outs.as_slice())?;
    put_pages(out, pages)
}

// Appends the pages with their count.
#[tactic(auto, using(crate::proofs::Appended::appended))]
fn put_pages(out: &mut Vec<u8>, pages: &[(u32, Arc<Frame>)]) -> Result<(), AllocError>
    requires { length pages.now < 2 ^ 16 }
    ensures ok { OnOk result (out.new.items ≡ out.old.items ++ counted 2 page (turn_pages pages.now)) }
    ensures err { OnErr result (HasFront out.old.items (counted 2 page (turn_pages pages.now)) out.new.items) }
{
    put_2(out, pages.len() as u16)?;
    put_each(out, pages)
}

// Appends the pages, one after the other.
fn put_each(out: &mut Vec<u8>, pages: &[(u32, Arc<Frame>)]) -> Result<(), AllocError>
    ensures ok { OnOk result (out.new.items ≡ out.old.items ++ flat_map page (turn_pages pages.now)) }
    ensures err { OnErr result (HasFront out.old.items (flat_map page (turn_pages pages.now)) out.new.items) }
{
    for (number, frame) in pages {
        put_page(out, *number, frame.as_slice())?;
    }
    Ok(())
}

#[tactic(auto, using(crate::proofs::Appended::appended))]
fn put_page(out: &mut Vec<u8>, number: u32, bytes: &[u8]) -> Result<(), AllocError>
    ensures ok { OnOk result (out.new.items ≡ out.old.items ++ page (record { page = number; bytes = bytes.now })) }
    ensures err { OnErr result (HasFront out.old.items (page (record { page = number; bytes = bytes.now })) out.new.items) }
{
    put_4(out, number)?;
    put_part(out, bytes)
}
