// Laws of leases, each the contract of a function that does nothing.
ghost use Rattle.ken_actors.specs.Decided.{IsDecided};
ghost use Rattle.ken_leases.specs.Laws.{LeasesNeverOverlap};
ghost use Rattle.ken_leases.specs.Leases.{leases};

/// Over any schedule the terms for which a node grants a name don't overlap, whatever the clocks answer.
pub fn leases_never_overlap()
    ensures { LeasesNeverOverlap }
{}

/// At one message they take no draws that are the beginning of others that they take.
pub fn leases_are_decided()
    ensures { IsDecided leases }
{}
