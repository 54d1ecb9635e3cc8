ghost use Rattle.ken_model.specs.declared.kinds.Kind.{Kind};
ghost use Rattle.ken_model.specs.Kinds.{handler_of};
ghost use Rattle.ken_actors.specs.Decided.{IsDecided};

/// Each kind's draws are decided as they are drawn.
pub fn kinds_are_decided()
    ensures { (kind : Kind) → IsDecided (handler_of kind) }
{}
