// What is to patch is behind the live records, and what was told as settled holds for ever after. Each law is the contract of a
// function that does nothing.
ghost use Rattle.ken_store.specs.PatchLaws.{
  SettledPagesAreClean,
  StartIsAhead,
  SealKeepsAhead,
  SealAloneKeepsAhead,
  HandKeepsAhead,
  PatchKeepsAhead,
  SyncKeepsAhead,
  TurnoverKeepsAhead,
  RecoveryIsAhead,
  SealKeepsSettled,
  SealAloneKeepsSettled,
  HandKeepsSettled,
  PatchKeepsSettled,
  SyncKeepsSettled,
  TurnoverKeepsSettled,
};

/// After a sync, each live page that a base with the told turn leaves out is clean.
pub fn settled_pages_are_clean()
    ensures { SettledPagesAreClean }
{}

/// At the start nothing is to patch.
pub fn start_is_ahead()
    ensures { StartIsAhead }
{}

/// A seal keeps what is to patch behind the live records.
pub fn seal_keeps_ahead()
    ensures { SealKeepsAhead }
{}

/// Also before its record is handed.
pub fn seal_alone_keeps_ahead()
    ensures { SealAloneKeepsAhead }
{}

/// And when it is handed later.
pub fn hand_keeps_ahead()
    ensures { HandKeepsAhead }
{}

/// So does a page that is written.
pub fn patch_keeps_ahead()
    ensures { PatchKeepsAhead }
{}

/// So does a sync.
pub fn sync_keeps_ahead()
    ensures { SyncKeepsAhead }
{}

/// So does a turnover.
pub fn turnover_keeps_ahead()
    ensures { TurnoverKeepsAhead }
{}

/// After a recovery all live records are to patch, and none is behind.
pub fn recovery_is_ahead()
    ensures { RecoveryIsAhead }
{}

/// A seal of a later turn keeps what was told as settled.
pub fn seal_keeps_settled()
    ensures { SealKeepsSettled }
{}

/// Also before its record is handed.
pub fn seal_alone_keeps_settled()
    ensures { SealAloneKeepsSettled }
{}

/// And when it is handed later.
pub fn hand_keeps_settled()
    ensures { HandKeepsSettled }
{}

/// So does a page that is written.
pub fn patch_keeps_settled()
    ensures { PatchKeepsSettled }
{}

/// So does a sync.
pub fn sync_keeps_settled()
    ensures { SyncKeepsSettled }
{}

/// So does a turnover.
pub fn turnover_keeps_settled()
    ensures { TurnoverKeepsSettled }
{}
