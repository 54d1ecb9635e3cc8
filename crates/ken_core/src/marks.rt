// The numbers of pages as a set.
ghost use Rattle.std.specs.Prelude.{◌≡◌, ◌<◌, ◌||◌, ℕ, map, length};
ghost use Rattle.std.specs.List.{All, AllByRecursion};
ghost use Rattle.ken_cover.specs.declared.layers.Change.{Change};
ghost use Rattle.ken_cover.specs.Overlay.{among, numbers};
ghost use Rattle.ken_cover.specs.Sides.{pages_of};
ghost use Rattle.ken_core.specs.Sets.{has};

use crate::number_set::Numbers;
use ken_cover::{Change, Layer};
use ken_record::Page;

/// Puts the numbers of all pages of layers into a set that has room for them.
pub(crate) fn mark_layers(set: &mut Numbers, layers: &[Layer])
    requires { AllByRecursion (λ l. AllByRecursion (λ c. c.page.page < length set.old) l.changes) layers.now }
    ensures width { length set.new ≡ length set.old }
    ensures all { (k : ℕ) → has set.new k ≡ (among (numbers (pages_of layers.now)) k || has set.old k) }
{
    for layer in layers {
        mark_changes(set, layer.changes.as_slice());
    }
}

/// Puts the numbers of changed pages into a set that has room for them.
pub(crate) fn mark_changes(set: &mut Numbers, changes: &[Change])
    requires { AllByRecursion (λ c. c.page.page < length set.old) changes.now }
    ensures width { length set.new ≡ length set.old }
    ensures all { (k : ℕ) → has set.new k ≡ (among (map (λ (c : Change). c.page.page) changes.now) k || has set.old k) }
{
    for change in changes {
        set.insert(u64::from(change.page.page));
    }
}

/// Puts the numbers of pages into a set that has room for them.
pub(crate) fn mark_pages(set: &mut Numbers, pages: &[Page])
    requires { All (λ e. e.page < length set.old) pages.now }
    ensures width { length set.new ≡ length set.old }
    ensures all { (k : ℕ) → has set.new k ≡ (among (numbers pages.now) k || has set.old k) }
{
    for page in pages {
        set.insert(u64::from(page.page));
    }
}
