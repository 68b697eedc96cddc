//! Laws of the definitions by computation, each as the contract of a call that does nothing: runs of
//! a group with what they tell, what they decide, how they leave each replica, and what they
//! send.

ghost use Rattle.std.specs.Prelude.{◌≡◌};
ghost use Rattle.raft_model.specs.Group.{run};
ghost use Rattle.raft_runs.specs.Runs.{digests};
ghost use Rattle.raft_runs.specs.Followed as followed;
ghost use Rattle.raft_runs.specs.Minority as minority;
ghost use Rattle.raft_runs.specs.Repeated as repeated;
ghost use Rattle.raft_runs.specs.Deposed as deposed;
ghost use Rattle.raft_runs.specs.Lagging as lagging;
ghost use Rattle.raft_runs.specs.Crashed as crashed;
ghost use Rattle.raft_runs.specs.Installed as installed;
ghost use Rattle.raft_runs.specs.DrawnThree as drawn_three;
ghost use Rattle.raft_runs.specs.DrawnFive as drawn_five;
ghost use Rattle.raft_runs.specs.DrawnApart as drawn_apart;

/// Three voters: a proposal and a read that a follower hands on to the leader.
/// Source: this project's own.
pub fn followed_run()
    ensures notes { (run followed.events_of followed.begun).notes ≡ followed.notes_of }
    ensures decided { (run followed.events_of followed.begun).group.decided ≡ followed.decided_of }
    ensures replicas { digests (run followed.events_of followed.begun).group ≡ followed.replicas_of }
    ensures sent { (run followed.events_of followed.begun).group.wire ≡ followed.wire_of }
{}

/// Three voters: what one of them has saved isn't decided.
/// Source: this project's own.
pub fn minority_run()
    ensures notes { (run minority.events_of minority.begun).notes ≡ minority.notes_of }
    ensures decided { (run minority.events_of minority.begun).group.decided ≡ minority.decided_of }
    ensures replicas { digests (run minority.events_of minority.begun).group ≡ minority.replicas_of }
    ensures sent { (run minority.events_of minority.begun).group.wire ≡ minority.wire_of }
{}

/// Three voters: a proposal that is handed on is decided twice where its envelope is delivered twice.
/// Source: this project's own.
pub fn repeated_run()
    ensures notes { (run repeated.events_of repeated.begun).notes ≡ repeated.notes_of }
    ensures decided { (run repeated.events_of repeated.begun).group.decided ≡ repeated.decided_of }
    ensures replicas { digests (run repeated.events_of repeated.begun).group ≡ repeated.replicas_of }
    ensures sent { (run repeated.events_of repeated.begun).group.wire ≡ repeated.wire_of }
{}

/// Three voters: a leader that another was elected past doesn't confirm its read by old answers.
/// Source: this project's own.
pub fn deposed_run()
    ensures notes { (run deposed.events_of deposed.begun).notes ≡ deposed.notes_of }
    ensures decided { (run deposed.events_of deposed.begun).group.decided ≡ deposed.decided_of }
    ensures replicas { digests (run deposed.events_of deposed.begun).group ≡ deposed.replicas_of }
    ensures sent { (run deposed.events_of deposed.begun).group.wire ≡ deposed.wire_of }
{}

/// Three voters: a read at a follower is confirmed with an index that it has yet to reach.
/// Source: this project's own.
pub fn lagging_run()
    ensures notes { (run lagging.events_of lagging.begun).notes ≡ lagging.notes_of }
    ensures decided { (run lagging.events_of lagging.begun).group.decided ≡ lagging.decided_of }
    ensures replicas { digests (run lagging.events_of lagging.begun).group ≡ lagging.replicas_of }
    ensures sent { (run lagging.events_of lagging.begun).group.wire ≡ lagging.wire_of }
{}

/// Three voters: the next leader decides what a leader that crashed had begun.
/// Source: this project's own.
pub fn crashed_run()
    ensures notes { (run crashed.events_of crashed.begun).notes ≡ crashed.notes_of }
    ensures decided { (run crashed.events_of crashed.begun).group.decided ≡ crashed.decided_of }
    ensures replicas { digests (run crashed.events_of crashed.begun).group ≡ crashed.replicas_of }
    ensures sent { (run crashed.events_of crashed.begun).group.wire ≡ crashed.wire_of }
{}

/// Three voters: a host that comes back with a log that ends below the front of the
/// leader's log gets a snapshot.
/// Source: this project's own.
pub fn installed_run()
    ensures notes { (run installed.events_of installed.begun).notes ≡ installed.notes_of }
    ensures decided { (run installed.events_of installed.begun).group.decided ≡ installed.decided_of }
    ensures replicas { digests (run installed.events_of installed.begun).group ≡ installed.replicas_of }
    ensures sent { (run installed.events_of installed.begun).group.wire ≡ installed.wire_of }
{}

/// A drawn schedule of three voters gives what another reading of the step table gives.
/// Source: this project's own.
pub fn drawn_three_run()
    ensures notes { (run drawn_three.events_of drawn_three.begun).notes ≡ drawn_three.notes_of }
    ensures decided { (run drawn_three.events_of drawn_three.begun).group.decided ≡ drawn_three.decided_of }
    ensures replicas { digests (run drawn_three.events_of drawn_three.begun).group ≡ drawn_three.replicas_of }
    ensures sent { (run drawn_three.events_of drawn_three.begun).group.wire ≡ drawn_three.wire_of }
{}

/// A drawn schedule of five voters gives what another reading of the step table gives.
/// Source: this project's own.
pub fn drawn_five_run()
    ensures notes { (run drawn_five.events_of drawn_five.begun).notes ≡ drawn_five.notes_of }
    ensures decided { (run drawn_five.events_of drawn_five.begun).group.decided ≡ drawn_five.decided_of }
    ensures replicas { digests (run drawn_five.events_of drawn_five.begun).group ≡ drawn_five.replicas_of }
    ensures sent { (run drawn_five.events_of drawn_five.begun).group.wire ≡ drawn_five.wire_of }
{}

/// A drawn schedule of three hosts that aren't the first gives what another reading of the step table gives.
/// Source: this project's own.
pub fn drawn_apart_run()
    ensures notes { (run drawn_apart.events_of drawn_apart.begun).notes ≡ drawn_apart.notes_of }
    ensures decided { (run drawn_apart.events_of drawn_apart.begun).group.decided ≡ drawn_apart.decided_of }
    ensures replicas { digests (run drawn_apart.events_of drawn_apart.begun).group ≡ drawn_apart.replicas_of }
    ensures sent { (run drawn_apart.events_of drawn_apart.begun).group.wire ≡ drawn_apart.wire_of }
{}
