// Laws of a heap's layout, each the contract of a function that does nothing.
ghost use Rattle.ken_model.specs.LayoutLaws.{StandsForOne, ReadsWhatStands, FirstIsEmpty, BreaksAtOnePlace};

/// Bytes stand for one value at most.
pub fn stands_for_one()
    ensures { StandsForOne }
{}

/// The value that the definitions read from bytes is the one that they stand for, and they read none where they stand for
/// none.
pub fn reads_what_stands()
    ensures { ReadsWhatStands }
{}

/// The bytes of a first heap stand for the heap with root 0 and no block.
pub fn first_is_empty()
    ensures { FirstIsEmpty }
{}

/// Where bytes that stand for no value are wrong first is one place, and bytes that are wrong anywhere stand for no value.
pub fn breaks_at_one_place()
    ensures { BreaksAtOnePlace }
{}
