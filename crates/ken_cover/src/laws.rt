// Each event keeps coverage. Each law is the contract of a function that does nothing.
ghost use Rattle.ken_cover.specs.Laws.{
  StartIsCovered,
  SealKeepsCoverage,
  DownKeepsCoverage,
  PatchKeepsCoverage,
  SyncKeepsCoverage,
  TurnoverKeepsCoverage,
  CrashKeepsCoverage,
  ImagesRecover,
  RecoveryKeepsCoverage,
  ImagesAreLeft,
  CrashLeavesImage,
};

/// A node whose image holds its first heap is covered.
pub fn start_is_covered()
    ensures { StartIsCovered }
{}

/// A seal keeps coverage, also one that was cut and landed.
pub fn seal_keeps_coverage()
    ensures { SealKeepsCoverage }
{}

/// So does going down, as by a seal or a turnover that was cut and didn't land.
pub fn down_keeps_coverage()
    ensures { DownKeepsCoverage }
{}

/// A page of the oldest record to patch may be written at any time.
pub fn patch_keeps_coverage()
    ensures { PatchKeepsCoverage }
{}

/// After a sync all pages are clean but those waiting to be patched.
pub fn sync_keeps_coverage()
    ensures { SyncKeepsCoverage }
{}

/// A base may take the live records' place where each page that it leaves out is clean.
pub fn turnover_keeps_coverage()
    ensures { TurnoverKeepsCoverage }
{}

/// A crash may leave any bytes on the open pages.
pub fn crash_keeps_coverage()
    ensures { CrashKeepsCoverage }
{}

/// The live records, laid over any possible image, are the heap.
pub fn images_recover()
    ensures { ImagesRecover }
{}

/// A recovery gives the heap back, and is covered.
pub fn recovery_keeps_coverage()
    ensures { RecoveryKeepsCoverage }
{}

/// Each possible image is one that a crash leaves.
pub fn images_are_left()
    ensures { ImagesAreLeft }
{}

/// Each crash leaves a possible image.
pub fn crash_leaves_image()
    ensures { CrashLeavesImage }
{}
