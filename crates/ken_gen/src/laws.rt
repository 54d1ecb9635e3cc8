// Laws of runs of kind share, each the contract of a function that does nothing.
ghost use Rattle.ken_gen.specs.ShareLaws.{SharesAddUp, SharesComeOut};
ghost use Rattle.ken_gen.specs.SoakLaws.{SoaksComeOut};
ghost use Rattle.ken_gen.specs.TormentLaws.{TormentAddsFew};

/// Whatever the schedule, a run of kind share that leaves nothing to wait gives each node a turn for each visit of an
/// input's path, and leaves in its root what these paths leave there.
pub fn shares_come_out()
    ensures { SharesComeOut }
{}

/// What the paths of inputs leave at all nodes is the sum of the inputs.
pub fn shares_add_up()
    ensures { SharesAddUp }
{}

/// Whatever the schedule, in a soak run each node for which something waits has turns left, and where nothing waits its
/// summary is the one of its seed, nodes and inputs.
pub fn soaks_come_out()
    ensures { SoaksComeOut }
{}

/// A script with faults of a seed has no more cuts of a node than restarts, or just those of the script alone; and no more
/// than 64 refusals of its outlet, or just those of the script.
pub fn torment_adds_few()
    ensures { TormentAddsFew }
{}
