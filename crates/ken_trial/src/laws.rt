// A law of handlers, the contract of a function that does nothing.
ghost use Rattle.ken_trial.specs.Laws.{LimitedIsDecided};

/// A handler whose draws are decided as they are drawn is so within the limits of a turn too.
pub fn limited_is_decided()
    ensures { LimitedIsDecided }
{}
