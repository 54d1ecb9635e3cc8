// How the program ends.
use ken_drive::{RunFault, SavingFault};
use ken_io::ReadFault;
use ken_model::Ending;
use ken_report::ReportFault;
use ken_script::ScriptFault;
use std::alloc::AllocError;
use std::fmt;

/// How the program ends. It prints as the text for standard error, which is empty for `Settled`, `Checked` and `Dumped`.
#[derive(Clone, Copy, Debug, PartialEq, Eq)]
pub enum Status {
    /// The run is settled, and its report or its summary is written.
    Settled,
    /// The command line is none of `run` alone, `check` and a length, `torment` and a seed, `soak` and its four numbers, `save` and a
    /// prefix, and `dump` with a prefix and its three numbers. Nothing was read or written.
    Usage,
    /// The script breaks this rule and none before it, first at this index from 0. Nothing was written.
    Script { rule: u8, index: u64 },
    /// Nodes have made all their turns and something still waits for them, and the report is written.
    Cut,
    /// Bytes of a file that is dumped are none that a node writes, from this place on. Nothing was written. Over disks that keep the
    /// model no run ends so.
    Damaged { node: u8, disk: u8, place: u64 },
    /// Calls of that node's disks failed more often than it may be restarted, or its outlet refused an output 65 times in a row.
    /// Nothing was written.
    Down { node: u8 },
    /// The source failed. Nothing was written.
    Read,
    /// The sink failed. A front of the report, of `yes`, of the summary or of a dump is out.
    Write,
    /// There wasn't memory enough. Nothing is out, or a front of the report.
    Memory,
    /// The report is right, and `yes` is written.
    Checked,
    /// This line of the report, counted from 1, is the first that is wrong. Nothing was written.
    Wrong { line: u64 },
    /// There are more bytes to check than 268,435,456. Nothing was written.
    Long,
    /// What the node's files recover to is written.
    Dumped,
    /// That file can't be opened. Nothing was written.
    Open { node: u8, disk: u8 },
    /// That file failed, or that disk as it was copied to its file. Nothing was written.
    Device { node: u8, disk: u8 },
}

impl Status {
    ghost use Rattle.std.specs.Prelude.{◌≡◌};
    ghost use Rattle.ken_top.specs.Statuses.{exit_code_of};

    /// The exit status of the process.
    pub fn exit_code(&self) -> u8
        ensures { result ≡ exit_code_of self.now }
    {
        match self {
            Status::Settled => 0,
            Status::Usage => 1,
            Status::Script { .. } => 2,
            Status::Cut => 3,
            Status::Damaged { .. } => 4,
            Status::Down { .. } => 5,
            Status::Read => 6,
            Status::Write => 7,
            Status::Memory => 8,
            Status::Checked => 0,
            Status::Wrong { .. } => 9,
            Status::Long => 10,
            Status::Dumped => 0,
            Status::Open { .. } => 11,
            Status::Device { .. } => 12,
        }
    }
}

impl fmt::Display for Status {
    ghost use Rattle.std.specs.Prelude.{Some};
    ghost use Rattle.ken_top.specs.Statuses.{text_of};

    ghost output = { λ status. Some (text_of status) };

    fn fmt<W: fmt::Write>(&self, f: &mut fmt::Formatter<W>) -> fmt::Result {
        match self {
            Status::Settled | Status::Checked | Status::Dumped => Ok(()),
            Status::Usage => write!(f, "ken: usage"),
            Status::Script { rule, index } => write!(f, "ken: script: rule S{rule} at {index}"),
            Status::Cut => write!(f, "ken: cut"),
            Status::Damaged { node, disk, place } => {
                write!(f, "ken: node {node} disk {disk} damaged at {place}")
            }
            Status::Down { node } => write!(f, "ken: node {node} is down"),
            Status::Read => write!(f, "ken: read failed"),
            Status::Write => write!(f, "ken: write failed"),
            Status::Memory => write!(f, "ken: out of memory"),
            Status::Wrong { line } => write!(f, "ken: line {line} is wrong"),
            Status::Long => write!(f, "ken: input too long"),
            Status::Open { node, disk } => write!(f, "ken: cannot open node {node} disk {disk}"),
            Status::Device { node, disk } => write!(f, "ken: node {node} disk {disk} failed"),
        }
    }
}

impl From<ReadFault> for Status {
    ghost use Rattle.std.specs.Prelude.{◌≡◌};
    ghost use Rattle.ken_top.specs.Statuses.{of_reading};

    ghost from_gives = { λ fault status. status ≡ of_reading fault };

    fn from(fault: ReadFault) -> Self {
        match fault {
            ReadFault::Failed => Status::Read,
            ReadFault::Memory => Status::Memory,
        }
    }
}

impl From<AllocError> for Status {
    ghost use Rattle.std.specs.Prelude.{◌≡◌};
    ghost use Rattle.ken_top.specs.declared.status.Status.TheVariants.{Memory};

    ghost from_gives = { λ _ status. status ≡ Memory };

    fn from(_: AllocError) -> Self {
        Status::Memory
    }
}

impl From<ScriptFault> for Status {
    ghost use Rattle.std.specs.Prelude.{◌≡◌};
    ghost use Rattle.ken_top.specs.Statuses.{of_script};

    ghost from_gives = { λ fault status. status ≡ of_script fault };

    fn from(fault: ScriptFault) -> Self {
        match fault {
            ScriptFault::Rule { rule, index } => Status::Script { rule, index },
            ScriptFault::Memory => Status::Memory,
        }
    }
}

impl From<ReportFault> for Status {
    ghost use Rattle.std.specs.Prelude.{◌≡◌};
    ghost use Rattle.ken_top.specs.Statuses.{of_printing};

    ghost from_gives = { λ fault status. status ≡ of_printing fault };

    fn from(fault: ReportFault) -> Self {
        match fault {
            ReportFault::Failed => Status::Write,
            ReportFault::Memory => Status::Memory,
        }
    }
}

impl From<RunFault> for Status {
    ghost use Rattle.std.specs.Prelude.{◌≡◌};
    ghost use Rattle.ken_top.specs.Statuses.{of_running};

    ghost from_gives = { λ fault status. status ≡ of_running fault };

    fn from(fault: RunFault) -> Self {
        match fault {
            RunFault::Damaged { node, disk, place } => Status::Damaged { node, disk, place },
            RunFault::Down { node } => Status::Down { node },
            RunFault::Memory => Status::Memory,
        }
    }
}

impl From<SavingFault> for Status {
    ghost use Rattle.std.specs.Prelude.{◌≡◌};
    ghost use Rattle.ken_top.specs.Statuses.{of_saving};

    ghost from_gives = { λ fault status. status ≡ of_saving fault };

    fn from(fault: SavingFault) -> Self {
        match fault {
            SavingFault::Run(fault) => Status::from(fault),
            SavingFault::Open { node, disk } => Status::Open { node, disk },
            SavingFault::Device { node, disk } => Status::Device { node, disk },
        }
    }
}

impl From<Ending> for Status {
    ghost use Rattle.std.specs.Prelude.{◌≡◌};
    ghost use Rattle.ken_top.specs.Statuses.{of_ending};

    ghost from_gives = { λ ending status. status ≡ of_ending ending };

    fn from(ending: Ending) -> Self {
        match ending {
            Ending::Settled => Status::Settled,
            Ending::Cut => Status::Cut,
        }
    }
}
