ghost use Rattle.std.specs.Prelude.{◌≡◌};
ghost use Rattle.ken_store.specs.Answers.{disks_from};

use crate::disks::{Disks, Which};

// A node's disks, of which one has this log.
pub(crate) fn together<D>(which: Which, current: D, image: D, other: D) -> Disks<D>
    ensures { result ≡ disks_from which current image other }
{
    match which {
        Which::First => Disks {
            log: current,
            image,
            second: other,
        },
        Which::Second => Disks {
            log: other,
            image,
            second: current,
        },
    }
}
