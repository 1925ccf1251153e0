//! A master that is up has come up: so the laws of a master's progress hold of it.
ghost use Rattle.history_laws.specs.ComeUp.{MastersHaveComeUp, MastersGoOn, WorldsHaveComeUp, HostsHaveComeUp};

/// The master that is up after a history came up by its rows, and has since made the steps that the history's deeds are.
pub fn masters_have_come_up()
    ensures { MastersHaveComeUp }
{}

/// From each point of a history on, while no other master comes up, it goes on by the deeds: where messages of a kind aren't taken
/// any more, it goes on without them.
pub fn masters_go_on()
    ensures { MastersGoOn }
{}

/// That of a world came up so too, after each run over any store, and has since made the steps of the run.
pub fn worlds_have_come_up()
    ensures { WorldsHaveComeUp }
{}

/// So did that of a host, after the frames of any text, and has since made the steps of these frames.
pub fn hosts_have_come_up()
    ensures { HostsHaveComeUp }
{}
