// The cuts of a disk, by their calls.
ghost use Rattle.std.specs.Prelude.{◌≡◌, ◌+◌, ◌≤◌, ℕ, length, if◌then◌else◌, is_some, IfOk, IfNone};
ghost use Rattle.std.specs.Ordering.{nat_cmp};
ghost use Rattle.std.specs.BTreeMap.{get};
ghost use Rattle.ken_memdisk.specs.Calls.{by_call, first_pick, pick_at, without};

use crate::cut::Cut;
use std::alloc::{AllocError, Global};
use std::collections::BTreeMap;

// The pick of the first cut at each call. The last ones are put in first, so that earlier ones take their places.
pub(crate) fn by_call(alloc: Global, cuts: &[Cut]) -> Result<BTreeMap<u64, u64>, AllocError>
    ensures entries { IfOk result (λ picks. picks.entries ≡ by_call cuts.now) }
    ensures first { IfOk result (λ picks. (call : ℕ) → get nat_cmp picks call ≡ first_pick cuts.now call) }
    ensures few { IfOk result (λ picks. length picks.entries ≤ length cuts.now) }
{
    let mut picks = BTreeMap::new(alloc);
    for place in (0..cuts.len()).rev() {
        picks.insert(cuts[place].call, cuts[place].pick)?;
    }
    Ok(picks)
}

// Takes the cut at a call out, and gives its pick. Where there are no cuts nothing is searched.
pub(crate) fn take_pick(picks: &mut BTreeMap<u64, u64>, call: u64) -> Option<u64>
    ensures pick { result ≡ pick_at picks.old.entries call }
    ensures rest { picks.new.entries ≡ without picks.old.entries call }
    ensures none { IfNone result (picks.new.entries ≡ picks.old.entries) }
    ensures len { length picks.new.entries + (if is_some result then 1 else 0) ≡ length picks.old.entries }
{
    if picks.is_empty() {
        return None;
    }
    picks.remove(&call)
}
