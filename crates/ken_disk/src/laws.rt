// Laws of disks, which no single call shows.
ghost use Rattle.std.specs.Prelude.{◌≡◌, ◌+◌, ◌≤◌, ◌<◌, ◌⊎◌, ◌∷◌, ℕ, List, length, Result, OnErr, Ok, Err};
ghost use Rattle.ken_disk.specs.declared.faults.DiskFault.{DiskFault};
ghost use Rattle.ken_disk.specs.declared.faults.DiskFault.TheVariants.{Memory};
ghost use Rattle.ken_disk.specs.Fates.{Fate, Event, IsRun, all_fallen};
ghost use Rattle.ken_disk.specs.Moments.{WentOn, MayLeave};
ghost use Rattle.ken_disk.specs.Steps.{WentDown};
ghost use Rattle.ken_disk.specs.Story.{DiskState, Story, IsImage, IsAtRest};
ghost use Rattle.ken_disk.specs.Writes.{after_writes, Made};

/// What a crash leaves now it may leave since any story before, and so with the first of the moments. An image of the
/// moments of two calls is one of the first's or of the second's.
pub fn moments()
    ensures now { (old new : Story) (image : List ℕ) → WentOn old new → IsImage new.now image → MayLeave old new image }
    ensures first { (old new : Story) (image : List ℕ) → WentOn old new → IsImage old.now image → MayLeave old new image }
    ensures parted { (old mid new : Story) (image : List ℕ) → WentOn old mid → WentOn mid new → MayLeave old new image → MayLeave old mid image ⊎ MayLeave mid new image }
    ensures joined { (old mid new : Story) → WentOn old mid → WentOn mid new → WentOn old new }
{}

/// Of a disk at rest a crash leaves what a read gives, and nothing else. After a restart it is at rest, and holds one of the
/// images from before.
pub fn crashes()
    ensures rests { (s : DiskState) (image : List ℕ) → IsAtRest s → IsImage s image → image ≡ s.seen }
    ensures image { (s : DiskState) → IsAtRest s → IsImage s s.seen }
    ensures restarted { (old new : Story) → WentDown old new → IsImage old.now new.now.seen × IsAtRest new.now × WentOn old new }
{}

/// Over any run of calls and restarts at most `falls` calls fail while the disk is up: as many as it had falls at the start.
pub fn falls()
    ensures { (start : Fate) (run : List (Event × Fate)) → IsRun start run → all_fallen start run ≤ start.falls }
{}

/// Of writes, each with its sync, by their answer: the disk went on. The count of syncs never falls; it rises by one for each write
/// after Ok, and by fewer after an error. After Ok of one write or more the disk is at rest; after Memory it is so if it was before.
pub fn synced_writes()
    ensures on { (result : Result (Unit {0}) DiskFault) (writes : List (ℕ × List ℕ)) (old new : Story) → Made result writes old new → WentOn old new }
    ensures never_fall { (result : Result (Unit {0}) DiskFault) (writes : List (ℕ × List ℕ)) (old new : Story) → Made result writes old new → old.now.syncs ≤ new.now.syncs }
    ensures counted { (writes : List (ℕ × List ℕ)) (old : Story) → (after_writes writes old).now.syncs ≡ old.now.syncs + length writes }
    ensures fewer { (result : Result (Unit {0}) DiskFault) (writes : List (ℕ × List ℕ)) (old new : Story)
        → Made result writes old new → OnErr result (new.now.syncs < old.now.syncs + length writes) }
    ensures rests { (write : ℕ × List ℕ) (writes : List (ℕ × List ℕ)) (old : Story) → IsAtRest (after_writes (write ∷ writes) old).now }
    ensures still { (writes : List (ℕ × List ℕ)) (old new : Story) → Made {T = Unit {0}} (Err Memory) writes old new → IsAtRest old.now → IsAtRest new.now }
{}
