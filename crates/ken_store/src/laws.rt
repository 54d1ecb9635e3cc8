// Laws of stores, which no single call shows.
ghost use Rattle.std.specs.Prelude.{◌≡◌, Some};
ghost use Rattle.ken_model.specs.declared.values.Value.{Value};
ghost use Rattle.ken_model.specs.Reading.{read_value};
ghost use Rattle.ken_cover.specs.Sides.{ImagePages};
ghost use Rattle.ken_store.specs.declared.store.Store.{Store};
ghost use Rattle.ken_store.specs.Answers.{disks_in};
ghost use Rattle.ken_store.specs.Recovered.{Whole};
ghost use Rattle.ken_store.specs.Standing.{RecoversTo, Standing};
ghost use Rattle.ken_store.specs.Turning.{turn_pages, state_in};

use ken_disk::Disk;

/// Each image that a crash may leave of the disks of a store that stands recovers to what its log tells, and to the value
/// of the heap after its sealed turns.
pub fn standing_stores<D: Disk>()
    ensures { (store : Store D) (i : ImagePages) (v : Value) → Standing D.told D.size store i
        → read_value (turn_pages store.turns).heap ≡ Some v
        → RecoversTo D.told store.turns.owner (disks_in store) (Whole (state_in store.turns) v) }
{}
