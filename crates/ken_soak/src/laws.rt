// A law of scripts with faults of a seed, the contract of a function that does nothing itself.
ghost use Rattle.ken_soak.specs.Tormenting.{TormentSpares};

use ken_gen::torment_adds_few;

/// Faults of a seed bring no node down: whichever node a tormented script lets go down, the script itself does.
pub fn torment_spares()
    ensures { TormentSpares }
{
    torment_adds_few();
}
