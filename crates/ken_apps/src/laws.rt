// Laws of the kinds' games, each the contract of a function that does nothing.
ghost use Rattle.ken_apps.specs.Money.{BlocksAreAccounts, MessagesAreCredits, MoneyIsKept};

/// Over any legal schedule of a bank's game no money is made or lost: the roots and balances of all nodes, with the credits
/// that wait between nodes, come to just what was opened.
pub fn money_is_kept()
    ensures { MoneyIsKept }
{}

/// After any schedule of a bank each block of a node is an account.
pub fn blocks_are_accounts()
    ensures { BlocksAreAccounts }
{}

/// After any schedule of a bank each message that a node has sent is a credit, and is read as that credit.
pub fn messages_are_credits()
    ensures { MessagesAreCredits }
{}
