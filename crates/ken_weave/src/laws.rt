ghost use Rattle.ken_weave.specs.Laws.{StepsWeave, OrderKeeps};
ghost use Rattle.ken_weave.specs.Crossing.{StepsMayNotWeave};

use crate::workers::{Fact, Workers};

/// The steps that three workers made side by side, where each knows only its own, go into one order in which nothing
/// leaves a ring before it was pushed. For that the handler hears no news that stand with more turns than it has made.
pub fn steps_weave<W: Workers>()
    ensures { StepsWeave W.turn W.patch W.send W.to_patcher W.patcher W.to_sender W.sender W.settled_by W.told_by }
{}

/// A fact that each step keeps, where the rings are so before the step and after it, holds after a whole order.
pub fn order_keeps<F: Fact>()
    ensures { OrderKeeps F.turn F.patch F.send F.rings F.fact }
{}

/// Without that test no order need exist: a handler and a patcher that each heard the other first.
pub fn steps_may_not_weave()
    ensures { StepsMayNotWeave }
{}
