// Laws of logs, which no single call shows.
ghost use Rattle.std.specs.Prelude.{◌≡◌, ◌+◌, ◌≤◌, ◌<◌, ℕ, List, length, Option};
ghost use Rattle.ken_disk.specs.Moments.{Through};
ghost use Rattle.ken_disk.specs.Steps.{WentDown};
ghost use Rattle.ken_disk.specs.Story.{Story, Tells};
ghost use Rattle.ken_record.specs.declared.header.Header.{Header};
ghost use Rattle.ken_record.specs.declared.base.Base.{Base};
ghost use Rattle.ken_record.specs.declared.record.Record.{Record};
ghost use Rattle.ken_log.specs.declared.log.Log.{Log};
ghost use Rattle.ken_log.specs.Layout.{IsLogOf};
ghost use Rattle.ken_log.specs.Mounts.{Mounted, Unformatted, Whole, mount_of, with_record};
ghost use Rattle.ken_log.specs.Seals.{MountsAsEither};
ghost use Rattle.ken_log.specs.Settled.{IsSettled, IsMountedAs};

use ken_disk::Disk;

/// A log mounts as what it lies as. On fewer than 32 bytes there is none. What a restart leaves after calls whose moments
/// mount as one or as the other mounts as one of the two.
pub fn mounting()
    ensures lies { (bytes : List ℕ) (head : Header) (base : Option Base) (records : List Record) (end : ℕ) → IsLogOf bytes head base records end → mount_of bytes ≡ Whole head base records }
    ensures short { (bytes : List ℕ) → length bytes < 32 → mount_of bytes ≡ Unformatted }
    ensures restarted { (before after : Mounted) (old left now : Story) → Through (MountsAsEither before after) old left → WentDown left now → MountsAsEither before after now.now.seen }
{}

/// A log that takes seals is what its disk mounts as, with as many records as it counts. Two logs that stand for the same
/// count as many, and where one record may have been sealed between them the second counts as many, or one more.
pub fn counting<D: Disk>()
    ensures settled { (log : Log D) → IsSettled D.told D.size log → Tells (D.told log.disk) (λ h. IsMountedAs log (mount_of h.now.seen)) }
    ensures anew { (log new : Log D) (mounted : Mounted) → IsMountedAs log mounted → IsMountedAs new mounted → new.records ≡ log.records }
    ensures again { (log new : Log D) (before : Mounted) (item : Record) (bytes : List ℕ) → IsMountedAs log before
        → MountsAsEither before (with_record item before) bytes → IsMountedAs new (mount_of bytes)
        → (log.records ≤ new.records) × (new.records ≤ log.records + 1) }
{}
