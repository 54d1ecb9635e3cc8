/// Three workers that run side by side: a handler that makes turns, and a patcher and an externaliser that each take them
/// over and tell it news.
pub trait Workers {
    ghost use Rattle.std.specs.Prelude.{ℕ};
    ghost use Rattle.ken_weave.specs.Workers.{Ends};

    /// The handler, the patcher and the externaliser.
    type Turns;

    type Patches;

    type Sends;

    /// What the handler hands to the patcher at each turn, and what it hears from it.
    type Pages;

    type Settled;

    /// The same between the handler and the externaliser.
    type Sealed;

    type Progress;

    /// A step of each.
    ghost turn: { Self.Turns → Self.Turns → Type 0 };

    ghost patch: { Self.Patches → Self.Patches → Type 0 };

    ghost send: { Self.Sends → Self.Sends → Type 0 };

    /// The ends of the rings between the handler and the patcher.
    ghost to_patcher: { Ends Self.Turns Self.Pages Self.Settled };

    ghost patcher: { Ends Self.Patches Self.Pages Self.Settled };

    /// The ends of the rings between the handler and the externaliser.
    ghost to_sender: { Ends Self.Turns Self.Sealed Self.Progress };

    ghost sender: { Ends Self.Sends Self.Sealed Self.Progress };

    /// How many turns had been handed over, by what is told.
    ghost settled_by: { Self.Settled → ℕ };

    ghost told_by: { Self.Progress → ℕ };
}

/// A fact of three workers, and what holds of them after each step of an order.
pub trait Fact {
    /// The handler, the patcher and the externaliser.
    type Turns;

    type Patches;

    type Sends;

    /// A step of each.
    ghost turn: { Self.Turns → Self.Turns → Type 0 };

    ghost patch: { Self.Patches → Self.Patches → Type 0 };

    ghost send: { Self.Sends → Self.Sends → Type 0 };

    /// What holds after each step, as that nothing left a ring before it was pushed.
    ghost rings: { Self.Turns → Self.Patches → Self.Sends → Type 0 };

    ghost fact: { Self.Turns → Self.Patches → Self.Sends → Type 0 };
}
