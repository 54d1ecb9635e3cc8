// Laws of a ledger, each the contract of a function that does nothing.
ghost use Rattle.ken_actors.specs.Decided.{IsDecided};
ghost use Rattle.ken_ledger.specs.Laws.{NoPaymentIsLost};
ghost use Rattle.ken_ledger.specs.Ledger.{ledger};

/// What a payment takes from one balance is just what its receiver adds to its own.
pub fn no_payment_is_lost()
    ensures { NoPaymentIsLost }
{}

/// At one message it takes no draws that are the beginning of others that it takes.
pub fn ledger_is_decided()
    ensures { IsDecided ledger }
{}
